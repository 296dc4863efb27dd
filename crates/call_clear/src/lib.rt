// A clear: the loss session starts again, and nothing else of the state changes.
// Refusal 2 where the state is not well formed, and then nothing changes. No buffer is passed in. That nothing else ever changes,
// whatever the answer, is `call_clear.clears`.
#![tactic(auto)]

ghost use Rattle.std.specs.Prelude.{[], ◌≡◌};
ghost use Rattle.base_laws.specs.Ended.{ended};
ghost use Rattle.state_view.specs.State.{at_start, at_end};
ghost use Rattle.state_places.specs.Stored.{Whole};
ghost use Rattle.call_clear.specs.Clear.{clear_of, clear_told, clear_numbers};

use loss_session::cleared;
use state_places::put_session;
use state_settings::{LentSettings, Slots};
use state_view::{LentState, Run, Totals};
use state_well_formed::is_well_formed;

// Why a session is not cleared.
#[derive(Clone, Copy)]
pub enum ClearRefusal {
    // Refusal 2: the state is not well formed.
    NotWellFormed,
}

// An answer in the paper's numbers: the refusal, or 0. A number and no enum: C is given it.
#[repr(C)]
#[derive(Clone, Copy)]
pub struct ClearTold {
    pub refusal: u32,
}

// Forgets the kept reading, the intervals and both totals; refusal 2 where the state is not well formed.
pub fn clear(
    settings: LentSettings<'_>,
    timers: &Slots,
    rdi: &Slots,
    run: &mut Run,
    totals: &mut Totals,
) -> Result<(), ClearRefusal>
    ensures totals_value { (ended result (at_end settings timers.now rdi.now run.new totals.new) [] ≡ clear_of (at_start settings timers.now rdi.now run.old totals.old))
        × (clear_told result ≡ clear_numbers (at_start settings timers.now rdi.now run.old totals.old)) }
    ensures whole { Whole run.new totals.new }
{
    // a view of an array has its length, and costs nothing
    let _words: &[u32] = run;
    let _both: &[i64] = totals;
    if !is_well_formed(LentState {
        settings,
        timers,
        rdi,
        run,
        totals,
    }) {
        return Err(ClearRefusal::NotWellFormed);
    }
    put_session(settings, timers, rdi, run, totals, cleared());
    Ok(())
}

// An answer in the paper's numbers.
#[tactic(auto, unfolding(crate::specs::Clear::clear_told))]
pub fn tell(answer: Result<(), ClearRefusal>) -> ClearTold
    ensures { result ≡ clear_told answer }
{
    // by this name and no `From`: lemma `tell_one`, the edits and the pages cite it
    match answer {
        Err(ClearRefusal::NotWellFormed) => ClearTold { refusal: 2 },
        Ok(()) => ClearTold { refusal: 0 },
    }
}
