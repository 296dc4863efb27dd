// A lent state written as its 194 octets.
#![tactic(auto)]

ghost use Rattle.std.specs.Prelude.{◌≡◌, [], ◌∷◌, ◌+◌, ◌*◌, ◌≤◌, length, get_or};
ghost use Rattle.base_laws.specs.Lists.{laid};
ghost use Rattle.state_settings.specs.Settings.{slots};
ghost use Rattle.state_view.specs.State.{state_in};
ghost use Rattle.replay_state.specs.Words.{words_octets};
ghost use Rattle.replay_state.specs.State.{state_octets, running_octets};

use base_numbers::write_little;
use base_octets::copy_octets;
use replay_session::session_octets;
use replay_state::STATE;
use state_settings::LentSettings;
use state_view::{
    AIS, LCK, LentState, MISMERGE, NEXT, RECEIVED, Run, SENT, UNEXPECTED_LEVEL, UNEXPECTED_MEP,
    UNEXPECTED_PERIOD, session_of,
};
use stored_settings_body_write::body_of;

// Writes words from a place on, n octets each.
fn write_words(into: &mut [u8], at: usize, n: usize, words: &[u32])
    requires { at + n * length words.now ≤ length into.old }
    ensures { into.new ≡ laid at (words_octets n words.now) into.old }
{
    let mut place = at;
    for &word in words {
        write_little(into, place, n, word);
        place += n;
    }
}

// Writes what is between the settings and the session: the counts, the words of the slots, the timers of the conditions.
fn write_running(into: &mut [u8], timers: &[u32], rdi: &[u32], run: &Run)
    requires { (157 ≤ length into.old) × (length timers.now ≡ slots) × (length rdi.now ≡ slots) }
    ensures { into.new ≡
        laid 81 (running_octets (get_or run.now 7 0 ∷ get_or run.now 8 0 ∷ []) timers.now rdi.now
        (get_or run.now 0 0 ∷ get_or run.now 2 0 ∷ get_or run.now 3 0
        ∷ get_or run.now 1 0 ∷ get_or run.now 4 0 ∷ get_or run.now 5 0 ∷ get_or run.now 6 0 ∷ [])) into.old }
{
    let counts = [run[SENT], run[RECEIVED]];
    let others = [
        run[MISMERGE],
        run[UNEXPECTED_MEP],
        run[UNEXPECTED_PERIOD],
        run[UNEXPECTED_LEVEL],
        run[AIS],
        run[LCK],
        run[NEXT],
    ];
    write_words(into, 81, 4, &counts);
    write_words(into, 89, 4, timers);
    write_words(into, 121, 1, rdi);
    write_words(into, 129, 4, &others);
}

// The octets of a state: nothing is tested, and what does not fit in a field's octets is left out.
pub fn state_octets(state: LentState<'_>) -> [u8; STATE]
    ensures { result ≡ state_octets (state_in state) }
{
    let LentState {
        settings,
        timers,
        rdi,
        run,
        totals,
    } = state;
    let LentSettings { set, names, ids } = settings;
    // a view of an array has its length, and costs nothing
    let _names: &[u8] = names;
    let _slots: &[u32] = ids;
    let slot_timers: &[u32] = timers;
    let slot_rdi: &[u32] = rdi;
    let settings_octets = body_of(set, names, ids);
    let session = session_octets(session_of(run, totals));
    let mut octets = [0u8; STATE];
    copy_octets(&mut octets, 0, &settings_octets);
    write_running(&mut octets, slot_timers, slot_rdi, run);
    copy_octets(&mut octets, 157, &session);
    octets
}
