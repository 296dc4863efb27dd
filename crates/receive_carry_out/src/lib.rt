// What was decided about a frame is carried out: the state is changed, a reply is written, or the frame is only answered.
// A step, as `receive_decide` is: it needs nothing, and refuses nothing but 3 for a reply and 5 for a loss reply. It gives the frame's
// own answer, which `receive_frame` returns.
#![tactic(auto)]

ghost use Rattle.std.specs.Prelude.{◌≡◌};
ghost use Rattle.base_laws.specs.Ended.{ended};
ghost use Rattle.state_view.specs.State.{at_start, at_end};
ghost use Rattle.state_places.specs.Stored.{Whole};
ghost use Rattle.receive_carry_out.specs.CarryOut.{delay_answer, carried_out};

use base_stamp::Stamp;
use receive_answer::{Drop, FrameDone, FrameRefusal};
use receive_change::apply;
use receive_delay::{DelayValues, NoDelay};
use receive_handle::Decision;
use receive_respond::respond;
use state_settings::{LentSettings, Slots};
use state_view::{LentState, Run, Totals};

// What a delay reply is answered, as a frame's answer.
#[tactic(auto, unfolding(crate::specs::CarryOut::delay_answer))]
fn delay_answer(answer: Result<DelayValues, NoDelay>) -> Result<FrameDone, FrameRefusal>
    ensures { result ≡ delay_answer answer }
{
    // no `From`: both types are other crates'
    match answer {
        Ok(DelayValues::TwoWay { twoway }) => Ok(FrameDone::TwoWay { twoway }),
        Ok(DelayValues::AllWays { twoway, far, near }) => Ok(FrameDone::AllWays {
            twoway,
            far,
            near,
        }),
        Err(NoDelay::BadStamp) => Ok(FrameDone::Dropped(Drop::Value)),
        Err(NoDelay::TooLarge) => Ok(FrameDone::Dropped(Drop::TooLarge)),
    }
}

// Does with a frame what was decided about it: answer, state and buffer.
pub fn carry_out(
    settings: LentSettings<'_>,
    timers: &mut Slots,
    rdi: &mut Slots,
    run: &mut Run,
    totals: &mut Totals,
    frame: &[u8],
    receive: Stamp,
    transmit: Stamp,
    decision: Decision,
    out: &mut [u8],
) -> Result<FrameDone, FrameRefusal>
    ensures out_after { ended result (at_end settings timers.new rdi.new run.new totals.new) out.new ≡
        carried_out (at_start settings timers.old rdi.old run.old totals.old) frame.now receive transmit out.old decision }
    ensures whole { Whole run.new totals.new }
{
    // a view of an array has its length, and costs nothing
    let _words: &[u32] = run;
    let _both: &[i64] = totals;
    match decision {
        Decision::Drops(drop) => Ok(FrameDone::Dropped(drop)),
        Decision::Passes => Ok(FrameDone::Passed),
        Decision::Changes(change) => apply(settings, timers, rdi, run, totals, change),
        Decision::Replies(request) => respond(
            LentState {
                settings,
                timers,
                rdi,
                run,
                totals,
            },
            frame,
            receive,
            transmit,
            request,
            out,
        ),
        Decision::Delays(answer) => delay_answer(answer),
    }
}
