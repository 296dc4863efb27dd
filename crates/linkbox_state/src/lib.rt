// The boundary to C: a new setting, a clear and the active conditions, on the arrays that hold the state, answered in the paper's numbers.
// Beside them it answers how many octets a box has here, for a caller to compare with its own struct. These are for firmware in C or Rust:
// linkbox_c exports them, and linkbox.h and linkbox_raw.h declare them. Each calls the Rattle function of the same call and returns its
// answer in numbers. Any content of the memory is accepted.
#![tactic(auto)]

ghost use Rattle.std.specs.Prelude.{[], ◌≡◌};
ghost use Rattle.state_settings.specs.Settings.{slots, lent_settings, Shaped};
ghost use Rattle.base_laws.specs.Ended.{ended, told_by};
ghost use Rattle.state_view.specs.State.{before, after_session};
ghost use Rattle.state_places.specs.Stored.{Whole};
ghost use Rattle.call_clear.specs.Clear.{clear_of, clear_told};
ghost use Rattle.call_conditions.specs.Conditions.{conditions_of};
ghost use Rattle.linkbox_state.specs.NewBox.{new_box};
ghost use Rattle.linkbox_state.specs.Abi.{box_octets};

use call_conditions::ConditionsTold;
use call_setting::NewBox;
use state_settings::{LentSettings, NAMES, Names, PEERS, SET, Set, Slots};
use state_view::{RUN, Run, TOTALS, Totals, lend};

// A new setting, from settings that are only read. The caller takes the new state, or keeps its own where it is refused.
pub fn linkbox_raw_new_setting(set: &Set, names: &Names, ids: &Slots) -> NewBox
    ensures value { result ≡ new_box set.now names.now ids.now }
    ensures shaped { Shaped slots (lent_settings set names ids) }
{
    call_setting::new_box(set, names, ids)
}

// A clear of the loss session; returns 0, or refusal 2.
pub fn linkbox_raw_clear(
    set: &Set,
    names: &Names,
    ids: &Slots,
    timers: &Slots,
    rdi: &Slots,
    run: &mut Run,
    totals: &mut Totals,
) -> u32
    ensures totals_value { ended result (after_session set names ids timers.now rdi.now run.new totals.new) [] ≡
        told_by (λ answer. (clear_told answer).refusal) (clear_of (before set names ids timers.now rdi.now run.old totals.old)) }
    ensures whole { Whole run.new totals.new }
{
    let answer = call_clear::clear(LentSettings { set, names, ids }, timers, rdi, run, totals);
    let told = call_clear::tell(answer);
    told.refusal
}

// The conditions, each by itself.
pub fn linkbox_raw_conditions(
    set: &Set,
    names: &Names,
    ids: &Slots,
    timers: &Slots,
    rdi: &Slots,
    run: &Run,
    totals: &Totals,
) -> ConditionsTold
    ensures { result ≡ conditions_of (before set names ids timers.now rdi.now run.now totals.now) }
{
    let settings = LentSettings { set, names, ids };
    call_conditions::conditions(lend(settings, timers, rdi, run, totals))
}

// How many octets a box has: its words of four octets, its names, its totals of eight, and no padding. It is the archive's own number, so
// a caller that was compiled against another header can see it.
pub fn linkbox_abi() -> usize
    ensures { result ≡ box_octets }
{
    4 * (SET + 3 * PEERS + RUN) + NAMES + 8 * TOTALS
}
