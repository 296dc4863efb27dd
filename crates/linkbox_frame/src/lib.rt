// The boundary to C: a frame to a box, on the arrays that hold the state, answered in the paper's numbers.
// It is for firmware in C or Rust: linkbox_c exports it, and linkbox_raw.h declares it. It calls the Rattle function of the same call and
// returns its answer in numbers. Any content of the memory is accepted.
#![tactic(auto)]

ghost use Rattle.std.specs.Prelude.{◌≡◌};
ghost use Rattle.base_laws.specs.Ended.{ended, told_by};
ghost use Rattle.state_view.specs.State.{before, after};
ghost use Rattle.state_places.specs.Stored.{Whole};
ghost use Rattle.base_stamp.specs.Stamps.{Wire};
ghost use Rattle.receive_answer.specs.Told.{frame_told};
ghost use Rattle.receive_frame.specs.Frame.{frame_of};
ghost use Rattle.linkbox_frame.specs.Sides.{side_of};

use base_stamp::Stamp;
use receive_answer::FrameTold;
use receive_class::Side;
use state_settings::{LentSettings, Names, Set, Slots};
use state_view::{Run, Totals};

// The side that a number of C's names.
fn side_of(number: u32) -> Side
    ensures { result ≡ side_of number }
{
    // no `From`: both types are others'
    if number == 0 {
        Side::Active
    } else {
        Side::Passive
    }
}

// A frame from a side, 0 for the active one and any other number for the passive one; a reply is written into the front of the buffer.
pub fn linkbox_raw_frame(
    set: &Set,
    names: &Names,
    ids: &Slots,
    timers: &mut Slots,
    rdi: &mut Slots,
    run: &mut Run,
    totals: &mut Totals,
    side: u32,
    frame: &[u8],
    receive: Stamp,
    transmit: Stamp,
    out: &mut [u8],
) -> FrameTold
    ensures out_after { ended result (after set names ids timers.new rdi.new run.new totals.new) out.new ≡ told_by frame_told
        (frame_of (before set names ids timers.old rdi.old run.old totals.old) (side_of side) frame.now receive transmit out.old) }
    ensures whole { Whole run.new totals.new }
    ensures wire { Wire receive × Wire transmit }
{
    let answer = receive_frame::on_frame(
        LentSettings { set, names, ids },
        timers,
        rdi,
        run,
        totals,
        side_of(side),
        frame,
        receive,
        transmit,
        out,
    );
    receive_answer::tell(answer)
}
