// Which conditions are active, each by itself, for whoever asks.
// Refusal 2 where the state is not well formed, and then every value beside it is 0. The call only reads the state, and no buffer is
// passed in. The answer is the struct that C is given, with the refusal's number in it, and no `Result`: so there is no `tell`.
#![tactic(auto)]

ghost use Rattle.std.specs.Prelude.{◌≡◌};
ghost use Rattle.state_settings.specs.Settings.{slots};
ghost use Rattle.state_view.specs.State.{state_in};
ghost use Rattle.call_conditions.specs.Conditions.{table, lost_at, shown_of, conditions_of, no_conditions};

use state_settings::{COUNT, PEERS, Slots};
use state_standing::flag_of;
use state_view::{
    AIS, LCK, LentState, MISMERGE, UNEXPECTED_LEVEL, UNEXPECTED_MEP, UNEXPECTED_PERIOD,
};
use state_well_formed::is_well_formed;

// Each condition, 1 while it is active and else 0; and the RDI that each peer last sent.
#[repr(C)]
#[derive(Clone, Copy)]
pub struct ConditionFlags {
    pub lost: Slots,
    pub rdi: Slots,
    pub mismerge: u32,
    pub unexpectedmep: u32,
    pub unexpectedperiod: u32,
    pub unexpectedlevel: u32,
    pub ais: u32,
    pub lck: u32,
}

// What the question is answered, in the paper's numbers: the refusal, or 0, and the conditions, all 0 beside a refusal.
#[repr(C)]
#[derive(Clone, Copy)]
pub struct ConditionsTold {
    pub refusal: u32,
    pub conditions: ConditionFlags,
}

// Marks each slot that is used and whose timer is 0.
fn mark_lost(lost: &mut Slots, timers: &Slots, count: u32)
    ensures { lost.new ≡ table (lost_at count timers.now) slots }
{
    let used = count as usize;
    for (i, &timer) in timers.iter().enumerate() {
        lost[i] = flag_of((i < used) & (timer == 0));
    }
}

// The conditions of any state.
fn shown(state: LentState<'_>) -> ConditionFlags
    ensures { result ≡ shown_of (state_in state) }
{
    let mut lost = [0u32; PEERS];
    mark_lost(&mut lost, state.timers, state.settings.set[COUNT]);
    let run = state.run;
    ConditionFlags {
        lost,
        rdi: *state.rdi,
        mismerge: flag_of(0 < run[MISMERGE]),
        unexpectedmep: flag_of(0 < run[UNEXPECTED_MEP]),
        unexpectedperiod: flag_of(0 < run[UNEXPECTED_PERIOD]),
        unexpectedlevel: flag_of(0 < run[UNEXPECTED_LEVEL]),
        ais: flag_of(0 < run[AIS]),
        lck: flag_of(0 < run[LCK]),
    }
}

// No condition at all.
fn none() -> ConditionFlags
    ensures { result ≡ no_conditions }
{
    ConditionFlags {
        lost: [0; PEERS],
        rdi: [0; PEERS],
        mismerge: 0,
        unexpectedmep: 0,
        unexpectedperiod: 0,
        unexpectedlevel: 0,
        ais: 0,
        lck: 0,
    }
}

// Each condition of a well-formed state: for each slot loss of continuity and RDI, and the six others; refusal 2 and zeros of any other
// state.
pub fn conditions(state: LentState<'_>) -> ConditionsTold
    ensures { result ≡ conditions_of (state_in state) }
{
    if !is_well_formed(state) {
        return ConditionsTold {
            refusal: 2,
            conditions: none(),
        };
    }
    ConditionsTold {
        refusal: 0,
        conditions: shown(state),
    }
}
