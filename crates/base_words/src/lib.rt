// Runs of words: held to a bound, searched, and cut to the first so many.
// Two tests are part of every call. all_within goes to the end without a way out: a loop of a fixed length becomes a few vector instructions.
// zero_from goes down from the last word and joins words, not tests: its turns are then laid out one after the other.
#![tactic(auto)]

ghost use Rattle.std.specs.Prelude.{◌≡◌, take, drop};
ghost use Rattle.base_laws.specs.Lists.{every, place_of};
ghost use Rattle.base_words.specs.Words.{within};

// Tells whether every word is at most this.
pub fn all_within(words: &[u32], most: u32) -> bool
    ensures { result ≡ every (within most) words.now }
{
    let mut good = true;
    for word in words {
        good &= *word <= most;
    }
    good
}

// Tells whether every word from a place on is 0.
pub fn zero_from(words: &[u32], from: usize) -> bool
    ensures { result ≡ every (within 0) (drop from words.now) }
{
    let mut rest: u32 = 0;
    for i in (from..words.len()).rev() {
        rest |= words[i];
    }
    rest == 0
}

// The place of the first x, or how many words there are where x is none of them; no `Option`: so `base_laws.place_of` has it.
pub fn place_of(words: &[u32], x: u32) -> usize
    ensures { result ≡ place_of x words.now }
{
    words
        .iter()
        .position(|word| *word == x)
        .unwrap_or(words.len())
}

// The first words, so many; all of them where there are fewer.
pub fn front(words: &[u32], count: u32) -> &[u32]
    ensures { (result.now ≡ take count words.now) × (result.ref_ptr ≡ words.entry.ref_ptr) }
{
    let used = count as usize;
    if words.len() < used {
        return words;
    }
    &words[..used]
}
