// Octets in hex, put into a line of text at a place.
// Octets are in lower-case hex with nothing between them, and a dash is no octets. Where the text does not fit from its place to the
// buffer's end, nothing changes and the same place is returned.
#![tactic(auto)]

ghost use Rattle.std.specs.Prelude.{◌≡◌, ◌+◌, ◌*◌, ◌≤◌, ◌<◌, length};
ghost use Rattle.base_laws.specs.Lists.{laid};
ghost use Rattle.base_number_text.specs.Put.{put_at, behind};
ghost use Rattle.base_hex.specs.Hex.{hex_digit, hex_pair, hex_pairs, hex_text};

use base_text::write_word;

// The hex digit of a number below 16.
fn hex_digit(value: u8) -> u8
    requires { value < 16 }
    ensures { result ≡ hex_digit value }
{
    if value < 10 { b'0' + value } else { 87 + value }
}

// Writes the two digits of an octet at a place, the high one first.
fn write_pair(into: &mut [u8], at: usize, octet: u8)
    requires { at + 2 ≤ length into.old }
    ensures { into.new ≡ laid at (hex_pair octet) into.old }
{
    into[at] = hex_digit(octet / 16);
    into[at + 1] = hex_digit(octet % 16);
}

// Writes the digits of each octet from a place on.
fn write_pairs(into: &mut [u8], at: usize, octets: &[u8])
    requires { at + 2 * length octets.now ≤ length into.old }
    ensures { into.new ≡ laid at (hex_pairs octets.now) into.old }
{
    for (i, octet) in octets.iter().enumerate() {
        write_pair(into, at + 2 * i, *octet);
    }
}

// Puts octets in hex at a place, `-` for no octets, and returns the place behind them; where they do not fit, nothing changes and `at` is
// returned.
pub fn write_hex(into: &mut [u8], at: usize, octets: &[u8]) -> usize
    ensures { (into.new ≡ put_at at (hex_text octets.now) into.old)
        × (result ≡ behind at (hex_text octets.now) into.old) }
{
    if octets.len() == 0 {
        return write_word(into, at, b"-");
    }
    let all = into.len();
    if all < at {
        return at;
    }
    if (all - at) / 2 < octets.len() {
        return at;
    }
    write_pairs(into, at, octets);
    at + 2 * octets.len()
}
