// Whether the timers of the conditions, and the ticks to the next CCM, are within their bounds: a part of whether a state is well formed.
#![tactic(auto)]

ghost use Rattle.std.specs.Prelude.{◌≡◌};
ghost use Rattle.state_view.specs.State.{state_in};
ghost use Rattle.state_view.specs.WellFormed.{timers_good, next_good};

use state_view::{
    AIS, LCK, LentState, MISMERGE, UNEXPECTED_LEVEL, UNEXPECTED_MEP, UNEXPECTED_PERIOD,
};

// The longest that an AIS or LCK holds: 3.5 minutes.
const ALARM_MOST: u32 = 126_000;

// Whether no timer of a condition is above its hold time.
pub fn timers_good(state: LentState<'_>, hold: u32) -> bool
    ensures { result ≡ timers_good (state_in state) hold }
{
    let run = state.run;
    (run[MISMERGE] <= hold)
        & (run[UNEXPECTED_LEVEL] <= hold)
        & (run[UNEXPECTED_MEP] <= hold)
        & (run[UNEXPECTED_PERIOD] <= hold)
        & (run[AIS] <= ALARM_MOST)
        & (run[LCK] <= ALARM_MOST)
}

// Whether the next CCM is one tick to one period away.
pub fn next_good(next: u32, ticks: u32) -> bool
    ensures { result ≡ next_good next ticks }
{
    (1 <= next) & (next <= ticks)
}
