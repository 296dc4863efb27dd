// Counts that wrap, and the loss of one direction over one interval, its sign included. Rule 7 of the paper.
#![tactic(auto)]

ghost use Rattle.std.specs.Prelude.{◌≡◌, ◌^◌, ◌≤◌, unsigned_abs};
ghost use Rattle.std.proofs.Math.IntN.{sub_ℕ};
ghost use Rattle.loss_growth.specs.Growth.{growth, loss_between};

// Later less earlier, modulo 2^32.
fn growth_of(earlier: u32, later: u32) -> u32
    ensures { result ≡ growth (2 ^ 32) earlier later }
{
    later.wrapping_sub(earlier)
}

// a less b, sign included.
fn less(a: u32, b: u32) -> i64
    ensures { result ≡ sub_ℕ a b }
{
    (a as i64) - (b as i64)
}

// One direction over one interval: growth of what was sent less growth of what was received.
pub fn loss_between(sent: u32, sentnow: u32, received: u32, receivednow: u32) -> i64
    ensures { (result ≡ loss_between sent sentnow received receivednow) × (unsigned_abs result ≤ 4294967295) }
{
    less(growth_of(sent, sentnow), growth_of(received, receivednow))
}
