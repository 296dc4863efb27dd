// Unsigned numbers in octets, on the wire and in stored records, read and written at a place. Inner: callers meet the `requires`.
// What is written at a place reads back there, every other octet is as it was, and n octets are a number below 256^n and back. A number
// is said of a list, in an order, and a place is the part of a list that is there: so one law serves every n, every field and both
// orders, and big-endian is little-endian from the other end. One function reads every width up to four octets and one writes it; a wire
// number is a 32-bit word in the code, whatever its width on the wire. Each order has a function of its own: a trait of orders would hold
// these same four loops, and two types more.
#![tactic(auto)]

ghost use Rattle.std.specs.Prelude.{◌≡◌, ◌+◌, ◌≤◌, length};
ghost use Rattle.base_laws.specs.Lists.{laid};
ghost use Rattle.base_numbers.specs.Numbers.{in_octets, little_endian, big_endian, NumberAt};

// The number in the n octets at a place, the highest first, as on the wire; it is below 256^n.
pub fn read_big(from: &[u8], at: usize, n: usize) -> u32
    requires { (n ≤ 4) × (at + n ≤ length from.now) }
    ensures { NumberAt big_endian from.now at n result }
{
    let mut sum: u32 = 0;
    for octet in &from[at..at + n] {
        sum = sum * 256 + *octet as u32;
    }
    sum
}

// The number in the n octets at a place, the lowest first, as in stored records; it is below 256^n.
pub fn read_little(from: &[u8], at: usize, n: usize) -> u32
    requires { (n ≤ 4) × (at + n ≤ length from.now) }
    ensures { NumberAt little_endian from.now at n result }
{
    let mut sum: u32 = 0;
    for lower in from[at..at + n].iter().rev() {
        sum = sum * 256 + *lower as u32;
    }
    sum
}

// Writes a value into the n octets at a place, the highest first; what does not fit in them is left out.
pub fn write_big(into: &mut [u8], at: usize, n: usize, value: u32)
    requires { at + n ≤ length into.old }
    ensures { into.new ≡ laid at (in_octets big_endian n value) into.old }
{
    let mut rest = value;
    // By number: behind `iter_mut().rev()` a proof has the slice's length, and not what was written.
    for i in (at..at + n).rev() {
        into[i] = (rest & 255) as u8;
        rest >>= 8;
    }
}

// Writes a value into the n octets at a place, the lowest first; what does not fit in them is left out.
pub fn write_little(into: &mut [u8], at: usize, n: usize, value: u32)
    requires { at + n ≤ length into.old }
    ensures { into.new ≡ laid at (in_octets little_endian n value) into.old }
{
    let mut rest = value;
    for octet in &mut into[at..at + n] {
        *octet = (rest & 255) as u8;
        rest >>= 8;
    }
}
