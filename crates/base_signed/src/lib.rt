// Signed numbers in eight octets, two's complement, the lowest first, read and written at a place. Inner: callers meet the `requires`.
// It is read in two halves of four octets and written whole; -2^63 is read back too.
#![tactic(auto)]

ghost use Rattle.std.specs.Prelude.{◌≡◌, ◌+◌, ◌≤◌, length};
ghost use Rattle.std.specs.Int.{w64};
ghost use Rattle.std.proofs.Common.{to_z, of_z};
ghost use Rattle.base_laws.specs.Lists.{part, laid};
ghost use Rattle.base_numbers.specs.Numbers.{number, in_octets, little_endian};

use base_numbers::read_little;
use base_octets::copy_octets;

// The signed number in the eight octets at a place, two's complement, the lowest first.
pub fn read_little_signed(from: &[u8], at: usize) -> i64
    requires { at + 8 ≤ length from.now }
    ensures { result ≡ to_z w64 (number little_endian (part at 8 from.now)) }
{
    let low = read_little(from, at, 4) as u64;
    let high = read_little(from, at + 4, 4) as u64;
    let bits = low + high * 4294967296;
    bits.cast_signed()
}

// Writes a signed number into the eight octets at a place, two's complement, the lowest first.
pub fn write_little_signed(into: &mut [u8], at: usize, value: i64)
    requires { at + 8 ≤ length into.old }
    ensures { into.new ≡ laid at (in_octets little_endian 8 (of_z w64 value)) into.old }
{
    let octets = value.cast_unsigned().to_le_bytes();
    copy_octets(into, at, &octets);
}
