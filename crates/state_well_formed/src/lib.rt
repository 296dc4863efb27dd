// Whether a state is well formed, all parts together: what is not is refused by number.
#![tactic(auto)]

ghost use Rattle.std.specs.Prelude.{◌≡◌};
ghost use Rattle.state_view.specs.State.{state_in};
ghost use Rattle.state_view.specs.WellFormed.{well_formed};

use base_period::{hold_of, ticks_of};
use loss_session::well_formed as session_good;
use state_settings::{COUNT, PERIOD, is_valid};
use state_slots::slots_good;
use state_timers::{next_good, timers_good};
use state_view::{LentState, NEXT, session_of};

// Whether the state in the arrays is well formed.
pub fn is_well_formed(state: LentState<'_>) -> bool
    ensures { result ≡ well_formed (state_in state) }
{
    let LentState {
        settings,
        timers,
        rdi,
        run,
        totals,
    } = state;
    let set = settings.set;
    if !is_valid(set, settings.names, settings.ids) {
        return false;
    }
    let hold = hold_of(set[PERIOD]);
    if !timers_good(state, hold) {
        return false;
    }
    if !next_good(run[NEXT], ticks_of(set[PERIOD])) {
        return false;
    }
    if !slots_good(timers, rdi, set[COUNT], hold) {
        return false;
    }
    session_good(session_of(run, totals))
}
