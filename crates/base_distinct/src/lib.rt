// Whether a word is among others.
// is_absent is part of every call. It returns at the first word that is x: over few words, which a caller's loop counts, its turns are laid
// out one after the other, a comparison and a jump each.
#![tactic(auto)]

ghost use Rattle.std.specs.Prelude.{◌≡◌};
ghost use Rattle.base_laws.specs.Lists.{absent};

// Tells whether x is none of the words.
pub fn is_absent(words: &[u32], x: u32) -> bool
    ensures { result ≡ absent x words.now }
{
    // `contains` compares in vectors and stays a call: a test of eight MEP IDs took 36 ns with it, and 20 with this loop.
    for word in words {
        if *word == x {
            return false;
        }
    }
    true
}
