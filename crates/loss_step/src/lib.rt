// One more reading taken into a loss session. Rule 7 of the paper.
#![tactic(auto)]

ghost use Rattle.std.specs.Prelude.{◌≡◌, ◌<◌, ◌+ℤ◌};
ghost use Rattle.std.specs.Int.{w64};
ghost use Rattle.std.proofs.Common.{SFits};
ghost use Rattle.loss_session.specs.Session.{WellFormed, most_intervals};
ghost use Rattle.loss_reading.specs.Reading.{measured_of, after_reading};
ghost use Rattle.loss_reading.specs.Told.{loss_told, loss_numbers};

use loss_growth::loss_between;
use loss_reading::{LossRefusal, Losses, Updated};
use loss_session::{LossSession, MOST_INTERVALS, Readings, well_formed};

// A total carried on.
fn plus(total: i64, loss: i64) -> i64
    requires { SFits w64 (total +ℤ loss) }
    ensures { result ≡ total +ℤ loss }
{
    total + loss
}

// The interval from the kept reading to this one.
fn measured(s: LossSession, r: Readings) -> Updated
    requires well_formed { WellFormed s }
    requires intervals_lt_most_intervals { s.intervals < most_intervals }
    ensures { result ≡ measured_of s r }
{
    let e = s.last;
    let near = loss_between(e.txb, r.txb, e.ours, r.ours);
    let far = loss_between(e.txf, r.txf, e.rxf, r.rxf);
    let mut after = s;
    after.last = r;
    after.near = plus(s.near, near);
    after.far = plus(s.far, far);
    after.intervals = s.intervals + 1;
    Updated {
        answer: Ok(Some(Losses { near, far })),
        session: after,
    }
}

// One more reading: refused, kept as the first, or the end of an interval.
pub fn take_reading(s: LossSession, r: Readings) -> Updated
    ensures { (result ≡ after_reading s r) × (loss_told result.answer ≡ loss_numbers s r) }
{
    if !well_formed(s) {
        return Updated {
            answer: Err(LossRefusal::NotWellFormed),
            session: s,
        };
    }
    if s.kept == 0 {
        let mut next = s;
        next.kept = 1;
        next.last = r;
        return Updated {
            answer: Ok(None),
            session: next,
        };
    }
    if s.intervals == MOST_INTERVALS {
        return Updated {
            answer: Err(LossRefusal::Full),
            session: s,
        };
    }
    measured(s, r)
}
