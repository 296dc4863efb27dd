// A frame comes: refusals 2, 1 and 6, then what is decided about it, then 3 or 5.
// The end point's call for every frame, from either side. Refusals and drops in this order: 2, 1, 6 (either stamp, whatever the frame
// is); then D1 to D8 as the frame rules have them; then 3 for a reply, or 5 for a loss reply. A frame that passes, is dropped or is taken
// in never gives 3.
#![tactic(auto)]

ghost use Rattle.std.specs.Prelude.{◌≡◌};
ghost use Rattle.base_laws.specs.Ended.{ended};
ghost use Rattle.state_view.specs.State.{at_start, at_end};
ghost use Rattle.state_places.specs.Stored.{Whole};
ghost use Rattle.base_stamp.specs.Stamps.{Wire};
ghost use Rattle.receive_answer.specs.Told.{frame_told};
ghost use Rattle.receive_frame.specs.Frame.{frame_of};
ghost use Rattle.receive_frame.specs.Numbers.{frame_numbers};

use base_stamp::{Stamp, good_stamp};
use frame_head::{HEAD_LENGTH, LONGEST};
use receive_answer::{FrameDone, FrameRefusal};
use receive_carry_out::carry_out;
use receive_class::Side;
use receive_decide::decide;
use state_settings::{LentSettings, Slots};
use state_view::{LentState, Run, Totals};
use state_well_formed::is_well_formed;

// Takes a frame from a side, with the stamp of its receipt, the stamp to send a reply with, and a buffer for the reply. The answer's
// numbers are said by a chain of tests of their own, beside the same decision.
pub fn on_frame(
    settings: LentSettings<'_>,
    timers: &mut Slots,
    rdi: &mut Slots,
    run: &mut Run,
    totals: &mut Totals,
    side: Side,
    frame: &[u8],
    receive: Stamp,
    transmit: Stamp,
    out: &mut [u8],
) -> Result<FrameDone, FrameRefusal>
    ensures out_after { ended result (at_end settings timers.new rdi.new run.new totals.new) out.new ≡
        frame_of (at_start settings timers.old rdi.old run.old totals.old) side frame.now receive transmit out.old }
    ensures result_value { frame_told result ≡
        frame_numbers (at_start settings timers.old rdi.old run.old totals.old) side frame.now receive transmit out.old }
    ensures whole { Whole run.new totals.new }
    ensures wire { Wire receive × Wire transmit }
{
    // a view of an array has its length, and costs nothing
    let _words: &[u32] = run;
    let _both: &[i64] = totals;
    if !is_well_formed(LentState {
        settings,
        timers,
        rdi,
        run,
        totals,
    }) {
        return Err(FrameRefusal::NotWellFormed);
    }
    if (frame.len() < HEAD_LENGTH) | (LONGEST < frame.len()) {
        return Err(FrameRefusal::BadLength);
    }
    if !(good_stamp(receive) & good_stamp(transmit)) {
        return Err(FrameRefusal::BadStamp);
    }
    let LentSettings { set, names, ids } = settings;
    let decision = decide(set, names, ids, side, frame, receive);
    carry_out(
        settings, timers, rdi, run, totals, frame, receive, transmit, decision, out,
    )
}
