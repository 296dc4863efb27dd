// A new setting: the state that it starts with, or the all-zero state where it is not valid; the answer, and its number.
// Settings are lent for reading and the state is returned by value, so that a refusal leaves all that was passed in: a box that runs is not
// changed by a setting that breaks a rule. Code that writes into the settings is not compiled (`tests/gate lent_written`), so no edit can
// try that; what is tried is the relation, in `paper_said` and `paper_order`. Beside refusal 4 the state that is returned is all zeros;
// else it has the settings as they were lent, and all the rest starts again. The contract also says that the settings have the lengths of
// their arrays.
#![tactic(auto)]

ghost use Rattle.std.specs.Prelude.{◌≡◌};
ghost use Rattle.base_laws.specs.Lists.{on_first};
ghost use Rattle.state_settings.specs.Settings.{slots, lent_settings, Shaped};
ghost use Rattle.call_setting.specs.Told.{setting_told};
ghost use Rattle.call_setting.specs.Start.{no_state, started_with, setting_of, setting_numbers, box_of, answer_told};

use base_period::{hold_of, ticks_of};
use state_settings::{COUNT, NAMES, Names, PEERS, PERIOD, SET, Set, Slots, is_valid};
use state_view::{NEXT, RUN, StateArrays, TOTALS};

// Why a setting is not taken.
#[derive(Clone, Copy)]
pub enum SettingRefusal {
    // Refusal 4: it breaks a rule on its values.
    Invalid,
}

// An answer in the paper's numbers: the refusal, or 0. A number and no enum: `call_setting.setting_numbers` states it.
#[repr(C)]
#[derive(Clone, Copy)]
pub struct SettingTold {
    pub refusal: u32,
}

// An answer in the paper's numbers.
#[tactic(auto, unfolding(crate::specs::Told::setting_told))]
pub fn tell(answer: Result<(), SettingRefusal>) -> SettingTold
    ensures { result ≡ setting_told answer }
{
    // by this name and no `From`: lemma `tell_one`, the edits and the pages cite it
    match answer {
        Err(SettingRefusal::Invalid) => SettingTold { refusal: 4 },
        Ok(()) => SettingTold { refusal: 0 },
    }
}

// What a new setting is answered, and the state that it returns.
#[derive(Clone, Copy)]
pub struct Started {
    pub answer: Result<(), SettingRefusal>,
    pub state: StateArrays,
}

// The same in the paper's numbers: the refusal, or 0, and the state, all zeros beside 4. A number and no `Result`: C is given this struct.
#[repr(C)]
#[derive(Clone, Copy)]
pub struct NewBox {
    pub refusal: u32,
    pub state: StateArrays,
}

// Refusal 4, and a state of zeros.
fn none() -> NewBox
    ensures { result ≡ box_of no_state }
{
    NewBox {
        refusal: 4,
        state: StateArrays {
            set: [0; SET],
            names: [0; NAMES],
            ids: [0; PEERS],
            timers: [0; PEERS],
            rdi: [0; PEERS],
            run: [0; RUN],
            totals: [0; TOTALS],
        },
    }
}

// Sets the used peers' timers to the hold time; all of them where the count is larger, which no valid setting's is. It goes over all slots,
// so that it takes as many turns for every count.
fn start_timers(timers: &mut [u32], count: u32, hold: u32)
    ensures { timers.new ≡ on_first (λ x. hold) count timers.old }
{
    let used = count as usize;
    for (i, timer) in timers.iter_mut().enumerate() {
        if i < used {
            *timer = hold;
        }
    }
}

// The state that valid settings start with.
fn begin(set: &Set, names: &Names, ids: &Slots) -> NewBox
    ensures { result ≡ box_of (started_with set.now names.now ids.now) }
{
    let period = set[PERIOD];
    let mut timers = [0; PEERS];
    start_timers(&mut timers, set[COUNT], hold_of(period));
    let mut run = [0; RUN];
    run[NEXT] = ticks_of(period);
    NewBox {
        refusal: 0,
        state: StateArrays {
            set: *set,
            names: *names,
            ids: *ids,
            timers,
            rdi: [0; PEERS],
            run,
            totals: [0; TOTALS],
        },
    }
}

// Takes settings from their arrays: the state that they start with, or all zeros where they are not valid, answered in the paper's numbers.
// It takes no old state. C is given what is made here as it is: packed again, it would be copied to the stack twice more.
pub fn new_box(set: &Set, names: &Names, ids: &Slots) -> NewBox
    ensures value { result ≡ box_of (setting_of set.now names.now ids.now) }
    ensures shaped { Shaped slots (lent_settings set names ids) }
{
    // a view of an array has its length, and costs nothing
    let _names: &[u8] = names;
    let _ids: &[u32] = ids;
    if !is_valid(set, names, ids) {
        return none();
    }
    begin(set, names, ids)
}

// The answer that a number means.
fn answer_of(refusal: u32) -> Result<(), SettingRefusal>
    ensures { result ≡ answer_told refusal }
{
    // no `From`: `Result` and `u32` are the library's
    if refusal == 0 {
        Ok(())
    } else {
        Err(SettingRefusal::Invalid)
    }
}

// The same with the answer in words.
pub fn new_setting(set: &Set, names: &Names, ids: &Slots) -> Started
    ensures value { result ≡ setting_of set.now names.now ids.now }
    ensures answer_value { setting_told result.answer ≡ setting_numbers (lent_settings set names ids) }
    ensures shaped { Shaped slots (lent_settings set names ids) }
{
    let made = new_box(set, names, ids);
    let state = made.state;
    Started {
        answer: answer_of(made.refusal),
        state,
    }
}
