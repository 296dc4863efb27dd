// Whether any condition is active, for the RDI of our own CCM.
// It only reads the state. Apart from `call_conditions`: whether any condition is active is asked for each CCM, each by itself only by
// whoever asks.
#![tactic(auto)]

ghost use Rattle.std.specs.Prelude.{◌≡◌};
ghost use Rattle.state_view.specs.State.{state_in};
ghost use Rattle.state_standing.specs.Standing.{standing};
ghost use Rattle.state_standing.specs.Flag.{flag};

use base_distinct::is_absent;
use base_words::front;
use state_settings::COUNT;
use state_view::{
    AIS, LCK, LentState, MISMERGE, UNEXPECTED_LEVEL, UNEXPECTED_MEP, UNEXPECTED_PERIOD,
};

// Whether any condition is active other than a peer's RDI.
pub fn any_stands(state: LentState<'_>) -> bool
    ensures { result ≡ standing (state_in state) }
{
    let LentState {
        settings,
        timers,
        run,
        ..
    } = state;
    let set = settings.set;
    let heard = is_absent(front(timers, set[COUNT]), 0);
    !heard
        | (0 < run[MISMERGE])
        | (0 < run[UNEXPECTED_LEVEL])
        | (0 < run[UNEXPECTED_MEP])
        | (0 < run[UNEXPECTED_PERIOD])
        | (0 < run[AIS])
        | (0 < run[LCK])
}

// 1 where it holds, else 0.
pub fn flag_of(holds: bool) -> u32
    ensures { result ≡ flag holds }
{
    u32::from(holds)
}
