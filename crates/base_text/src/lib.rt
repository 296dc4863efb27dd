// A word of a line of text, put into a buffer at a place.
// Where the word does not fit from its place to the buffer's end, nothing changes and the same place is returned. Numbers are in
// `base_number_write`, octets in `base_hex`.
#![tactic(auto)]

ghost use Rattle.std.specs.Prelude.{◌≡◌};
ghost use Rattle.base_number_text.specs.Put.{put_at, behind};

use base_octets::copy_octets;

// Puts a word at a place, and returns the place behind it; where it does not fit, nothing changes and `at` is returned.
pub fn write_word(into: &mut [u8], at: usize, word: &[u8]) -> usize
    ensures { (into.new ≡ put_at at word.now into.old)
        × (result ≡ behind at word.now into.old) }
{
    let all = into.len();
    if all < at {
        return at;
    }
    if all - at < word.len() {
        return at;
    }
    copy_octets(into, at, word);
    at + word.len()
}
