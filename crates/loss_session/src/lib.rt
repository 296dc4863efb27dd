// A loss session: its readings, its intervals and its signed totals; cleared, and well formed. Rule 7 of the paper.
#![tactic(auto)]

ghost use Rattle.std.specs.Prelude.{◌≡◌};
ghost use Rattle.loss_session.specs.Session.{cleared_session, all_zero, well_formed};

// The three counts of a loss reply and our own received count, as the paper names them:
//   txf    TxFCf, the frames that we had sent when we asked
//   rxf    RxFCf, those that the peer had received by then
//   txb    TxFCb, those that the peer had sent when it answered
//   ours   those that we had received when the answer came
#[repr(C)]
#[derive(Clone, Copy, Default)]
pub struct Readings {
    pub txf: u32,
    pub rxf: u32,
    pub txb: u32,
    pub ours: u32,
}

// A loss session: whether a reading is kept (0 or 1), the intervals measured, the reading kept, and both totals. Any content is a
// value; what is not well formed is refused. Kept is a word beside the reading, and no `Option`: C holds the session.
#[repr(C)]
#[derive(Clone, Copy, Default)]
pub struct LossSession {
    pub kept: u32,
    pub intervals: u32,
    pub last: Readings,
    pub near: i64,
    pub far: i64,
}

// How many intervals a session counts at most: the definitions have theirs, `most_intervals`.
pub const MOST_INTERVALS: u32 = 1000000000;

// A session after a clear.
pub fn cleared() -> LossSession
    ensures { result ≡ cleared_session }
{
    LossSession::default()
}

// Whether all four counts are 0.
fn all_zero(r: Readings) -> bool
    ensures { result ≡ all_zero r }
{
    // all four at once; a derived `==` tests them in turn
    (r.txf == 0) & (r.rxf == 0) & (r.txb == 0) & (r.ours == 0)
}

// Whether the paper's rules on kept reading, intervals and totals hold. It returns at the first rule that fails; and of a session that
// passes, the compiler knows by the branch taken whether a reading is kept, and does not test that again.
pub fn well_formed(s: LossSession) -> bool
    ensures { result ≡ well_formed s }
{
    let most = (s.intervals as u64) * 4294967295;
    if MOST_INTERVALS < s.intervals {
        return false;
    }
    if most < s.near.unsigned_abs() {
        return false;
    }
    if most < s.far.unsigned_abs() {
        return false;
    }
    if s.kept == 1 {
        return true;
    }
    if 1 < s.kept {
        return false;
    }
    let last = s.last;
    (s.intervals == 0) & all_zero(last)
}
