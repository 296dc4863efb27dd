// The decimal text of a signed number, written into a buffer.
// It is the inner loop of what prints records: the digits are made from the last to the first, two for each division, so that none are
// counted before they are written; where they begin is known when they are there.
#![tactic(auto)]

ghost use Rattle.std.specs.Prelude.{◌≡◌, [], ◌∷◌, ◌+◌, ◌-◌, ◌/◌, ◌%◌, ◌^◌, ◌≤◌, ◌<◌, nat_abs, length};
ghost use Rattle.base_laws.specs.Lists.{laid};
ghost use Rattle.base_number_text.specs.Decimal.{digit, digits_of, decimal};
ghost use Rattle.base_number_text.specs.Put.{put_at, behind};
ghost use Rattle.base_number_text.specs.Before.{put_before, beginning};

use base_octets::copy_octets;

// No text of a number is longer: nineteen digits and a sign. The definitions have theirs, `longest_number`.
pub const LONGEST: usize = 20;

// Writes two digits at a place.
fn put_pair(into: &mut [u8], at: usize, pair: u64)
    requires { (pair < 100) × (at + 2 ≤ length into.old) }
    ensures { into.new ≡ laid at (digit (pair / 10) ∷ digit (pair % 10) ∷ []) into.old }
{
    into[at] = b'0' + ((pair / 10) as u8);
    into[at + 1] = b'0' + ((pair % 10) as u8);
}

// How many digits a number below 100 has.
fn count_digits(pair: u64) -> usize
    requires { pair < 100 }
    ensures { result ≡ length (digits_of pair) }
{
    if pair < 10 { 1 } else { 2 }
}

// Writes the digits of a size, and '-' in front of them, so that they end before a place; answers where the digits begin.
fn digits_before(into: &mut [u8], end: usize, size: u64) -> usize
    requires { (size < 10 ^ 19) × (20 ≤ end) × (end ≤ length into.old) }
    ensures { (result + length (digits_of size) ≡ end) × (1 ≤ result)
        × (into.new ≡ laid (result - 1) (45 ∷ digits_of size) into.old) }
{
    let mut rest = size;
    let mut at = end;
    while 100 <= rest {
        at -= 2;
        put_pair(into, at, rest % 100);
        rest = rest / 100;
    }
    // where one digit is left, the '0' in front of it is where the '-' goes
    put_pair(into, at - 2, rest);
    let begin = at - count_digits(rest);
    into[begin - 1] = b'-';
    begin
}

// How many octets a number's sign takes.
fn sign_of(value: i64) -> usize
    ensures { result + length (digits_of (nat_abs value)) ≡ length (decimal value) }
{
    if value < 0 { 1 } else { 0 }
}

// Writes the text of a number so that it ends before a place, and answers where it begins. The octet in front of the digits becomes '-'
// whether or not the number is below 0: no branch is taken on a sign that nobody can foresee. Where the longest text would not fit, nothing
// is changed and `end` is returned.
pub fn put_before(into: &mut [u8], end: usize, value: i64) -> usize
    ensures { (into.new ≡ put_before end value into.old)
        × (result ≡ beginning end value into.old) }
{
    if end < LONGEST {
        return end;
    }
    if into.len() < end {
        return end;
    }
    digits_before(into, end, value.unsigned_abs()) - sign_of(value)
}

// Writes the text of a number at a place, and returns the place behind it; where it does not fit, nothing is changed and `at` is returned.
pub fn write_decimal(into: &mut [u8], at: usize, value: i64) -> usize
    ensures { (into.new ≡ put_at at (decimal value) into.old)
        × (result ≡ behind at (decimal value) into.old) }
{
    let mut text = [0u8; LONGEST];
    let begin = put_before(&mut text, LONGEST, value);
    let count = LONGEST - begin;
    let all = into.len();
    if all < at {
        return at;
    }
    if all - at < count {
        return at;
    }
    copy_octets(into, at, &text[begin..]);
    at + count
}
