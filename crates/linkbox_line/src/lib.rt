// The boundary to C: the loss line of a box's session as a stored record, answered in the paper's numbers.
// It is for firmware in C or Rust: linkbox_c exports it, and linkbox_raw.h declares it. A line's record is what the firm stores each
// minute, and the session's own words are written as they are. The session of a well-formed state keeps the rules of a line, so the
// writer's refusal 4 never comes (`linkbox_line.LossLines`). Any content of the memory is accepted.
#![tactic(auto)]

ghost use Rattle.std.specs.Prelude.{◌≡◌};
ghost use Rattle.base_laws.specs.Ended.{wrote};
ghost use Rattle.state_view.specs.State.{before, session_in};
ghost use Rattle.linkbox_line.specs.Line.{line_of, loss_line_of};

use state_settings::{LentSettings, Names, Set, Slots};
use state_view::{FAR, INTERVALS, LentState, NEAR, Run, Totals};
use state_well_formed::is_well_formed;
use stored_line::LossLine;
use stored_line_calls::write_line;
use stored_record::RecordTold;

// The loss line of a state's session.
fn line_of(run: &Run, totals: &Totals) -> LossLine
    ensures { result ≡ line_of (session_in run.now totals.now) }
{
    let near = totals[NEAR];
    let far = totals[FAR];
    LossLine {
        near,
        far,
        intervals: run[INTERVALS],
    }
}

// Writes the session's loss line as a record into the front of the buffer; refusal 2, then 3.
pub fn linkbox_raw_loss_line(
    set: &Set,
    names: &Names,
    ids: &Slots,
    timers: &Slots,
    rdi: &Slots,
    run: &Run,
    totals: &Totals,
    into: &mut [u8],
) -> RecordTold
    ensures { wrote result into.new ≡ loss_line_of (before set names ids timers.now rdi.now run.now totals.now) into.old }
{
    let settings = LentSettings { set, names, ids };
    if !is_well_formed(LentState {
        settings,
        timers,
        rdi,
        run,
        totals,
    }) {
        return RecordTold {
            refusal: 2,
            length: 0,
        };
    }
    let line = line_of(run, totals);
    let answer = write_line(into, line);
    stored_record::tell(answer)
}
