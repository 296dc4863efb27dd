// What a frame changes in a state, in its arrays: the one place where a frame changes a state. Rules 1, 3, 5 and 7 of the paper.
// Of a loss reply, in this order: refusal 2 where the session is not well formed, which `receive_frame` has ruled out by then; 5 where
// the reply would start interval 1,000,000,001. Neither changes anything.
#![tactic(auto)]

ghost use Rattle.std.specs.Prelude.{◌≡◌, []};
ghost use Rattle.base_laws.specs.Ended.{ended};
ghost use Rattle.state_view.specs.State.{at_start, at_end};
ghost use Rattle.state_places.specs.Stored.{Whole};
ghost use Rattle.receive_change.specs.Change.{answer_of, read_taken, one_more, applied};

use base_period::hold_of;
use loss_reading::{LossRefusal, Losses};
use loss_session::Readings;
use loss_step::take_reading;
use receive_answer::{Drop, FrameDone, FrameRefusal};
use receive_signals::{Signal, set_timers};
use state_places::put_session;
use state_settings::{LentSettings, PERIOD, Slots};
use state_view::{RECEIVED, Run, SENT, Totals, UNEXPECTED_LEVEL, session_of};

// What a frame changes in the state.
#[derive(Clone, Copy)]
pub enum Change {
    // Rule 1: one more service frame, from the passive side or the active.
    Sent,
    Received,
    // Rule 3: a CCM of a lower level.
    UnexpectedLevel,
    // Rule 5: what a CCM, AIS or LCK of our level says.
    Told(Signal),
    // Rule 7: the counts of a loss reply.
    Reading { txf: u32, rxf: u32, txb: u32 },
}

// One more, and 0 after 4,294,967,295.
fn one_more(n: u32) -> u32
    ensures { result ≡ one_more n }
{
    n.wrapping_add(1)
}

// What a reading is answered, as a frame's answer.
#[tactic(auto, unfolding(crate::specs::Change::answer_of))]
fn answer_of(answer: Result<Option<Losses>, LossRefusal>) -> Result<FrameDone, FrameRefusal>
    ensures { result ≡ answer_of answer }
{
    // no `From`: both types are other crates'
    match answer {
        Ok(None) => Ok(FrameDone::First),
        Ok(Some(losses)) => Ok(FrameDone::Measured {
            near: losses.near,
            far: losses.far,
        }),
        Err(LossRefusal::NotWellFormed) => Err(FrameRefusal::NotWellFormed),
        Err(LossRefusal::Full) => Err(FrameRefusal::Full),
    }
}

// Takes the counts of a loss reply, with our received count beside them, into the session.
fn take_counts(
    settings: LentSettings<'_>,
    timers: &Slots,
    rdi: &Slots,
    run: &mut Run,
    totals: &mut Totals,
    txf: u32,
    rxf: u32,
    txb: u32,
) -> Result<FrameDone, FrameRefusal>
    ensures totals_value { ended result (at_end settings timers.now rdi.now run.new totals.new) [] ≡
        read_taken (at_start settings timers.now rdi.now run.old totals.old) txf rxf txb }
    ensures whole { Whole run.new totals.new }
{
    let reading = Readings {
        txf,
        rxf,
        txb,
        ours: run[RECEIVED],
    };
    let updated = take_reading(session_of(run, totals), reading);
    let after = updated.session;
    put_session(settings, timers, rdi, run, totals, after);
    let answer = updated.answer;
    answer_of(answer)
}

// Applies a change, and answers the frame: a service count one more, the unexpected-level timer with D2, what a message says, or a loss
// reply's counts taken into the session with our received count.
pub fn apply(
    settings: LentSettings<'_>,
    timers: &mut Slots,
    rdi: &mut Slots,
    run: &mut Run,
    totals: &mut Totals,
    change: Change,
) -> Result<FrameDone, FrameRefusal>
    ensures totals_value { ended result (at_end settings timers.new rdi.new run.new totals.new) [] ≡
        applied (at_start settings timers.old rdi.old run.old totals.old) change }
    ensures whole { Whole run.new totals.new }
{
    // a view of an array has its length, and costs nothing
    let _words: &[u32] = run;
    let _both: &[i64] = totals;
    match change {
        Change::Sent => {
            let n = one_more(run[SENT]);
            run[SENT] = n;
            Ok(FrameDone::Passed)
        }
        Change::Received => {
            let n = one_more(run[RECEIVED]);
            run[RECEIVED] = n;
            Ok(FrameDone::Passed)
        }
        Change::UnexpectedLevel => {
            run[UNEXPECTED_LEVEL] = hold_of(settings.set[PERIOD]);
            Ok(FrameDone::Dropped(Drop::Level))
        }
        Change::Told(signal) => {
            set_timers(settings, timers, rdi, run, totals, signal);
            Ok(FrameDone::Taken)
        }
        Change::Reading { txf, rxf, txb } => {
            take_counts(settings, timers, rdi, run, totals, txf, rxf, txb)
        }
    }
}
