// Stamps of any content, as the wire and the caller have them: good, given. The paper, "Numbers".
// Every crate that takes a stamp uses this one; only decisions on delays use `receive_delay`.
#![tactic(auto)]

ghost use Rattle.std.specs.Prelude.{◌≡◌};
ghost use Rattle.base_stamp.specs.Stamps.{good, given};

// A time as the wire has it. Any content is a value: too many nanoseconds are answered, not assumed away.
#[repr(C)]
#[derive(Clone, Copy, Default)]
pub struct Stamp {
    pub seconds: u32,
    pub nanoseconds: u32,
}

// Whether a stamp has at most 999,999,999 nanoseconds.
pub fn good_stamp(s: Stamp) -> bool
    ensures { result ≡ good s }
{
    s.nanoseconds <= 999999999
}

// Whether a stamp is given: all 64 bits zero means that it is not.
pub fn given_stamp(s: Stamp) -> bool
    ensures { result ≡ given s }
{
    // both halves at once; a derived `==` tests them in turn
    !((s.seconds == 0) & (s.nanoseconds == 0))
}
