// Two runs of octets compared.
#![tactic(auto)]

ghost use Rattle.std.specs.Prelude.{◌≡◌};
ghost use Rattle.base_laws.specs.Lists.{same};

// Whether the two hold the same octets, as many and in the same order. It goes to the end without a way out: addresses and MEG IDs are
// then compared by vector instructions.
pub fn same_octets(a: &[u8], b: &[u8]) -> bool
    ensures { result ≡ same a.now b.now }
{
    if a.len() != b.len() {
        return false;
    }
    let mut good = true;
    // `==` is a call behind its first four octets: 48 octets took 5.1 ns with it, and 2.6 with this loop.
    for (x, y) in a.iter().zip(b) {
        good &= *x == *y;
    }
    good
}
