// A state read from its 194 octets into its seven arrays.
#![tactic(auto)]

ghost use Rattle.std.specs.Prelude.{◌≡◌, ◌+◌, ◌*◌, ◌≤◌, length, drop};
ghost use Rattle.state_settings.specs.Settings.{slots};
ghost use Rattle.replay_state.specs.Words.{words_in};
ghost use Rattle.replay_state.specs.State.{state_at, run_at, arrays_of};

use base_numbers::read_little;
use base_octets::copy_octets;
use loss_session::LossSession;
use replay_session::{SESSION, session_in};
use replay_state::STATE;
use state_settings::{PEERS, Slots};
use state_view::{Run, StateArrays};
use stored_settings_body::{BODY, settings_of};

// The words of the slots from a place on, n octets each.
fn words_in(from: &[u8], at: usize, n: usize) -> Slots
    requires { (n ≤ 4) × (at + n * slots ≤ length from.now) }
    ensures { result ≡ words_in n slots (drop at from.now) }
{
    let mut words = [0u32; PEERS];
    let mut place = at;
    for word in words.iter_mut() {
        *word = read_little(from, place, n);
        place += n;
    }
    words
}

// The running words of a state in these octets whose session is known.
fn run_in(from: &[u8], s: LossSession) -> Run
    requires { 157 ≤ length from.now }
    ensures { result ≡ run_at from.now s }
{
    let last = s.last;
    // mismerge, level, MEP, period, AIS, LCK, ticks to the next CCM, sent, received, the session's
    [
        read_little(from, 129, 4),
        read_little(from, 141, 4),
        read_little(from, 133, 4),
        read_little(from, 137, 4),
        read_little(from, 145, 4),
        read_little(from, 149, 4),
        read_little(from, 153, 4),
        read_little(from, 81, 4),
        read_little(from, 85, 4),
        s.kept,
        last.txf,
        last.rxf,
        last.txb,
        last.ours,
        s.intervals,
    ]
}

// The state in these octets, taken as it is: nothing is tested.
pub fn state_in(from: &[u8; STATE]) -> StateArrays
    ensures { result ≡ arrays_of (state_at from.now) }
{
    let all: &[u8] = from;
    let mut front = [0u8; BODY];
    copy_octets(&mut front, 0, &all[0..81]);
    let settings = settings_of(&front);
    let timers = words_in(all, 89, 4);
    let rdi = words_in(all, 121, 1);
    let mut back = [0u8; SESSION];
    copy_octets(&mut back, 0, &all[157..194]);
    let session = session_in(&back);
    let run = run_in(all, session);
    let set = settings.set;
    let names = settings.names;
    let ids = settings.ids;
    let totals = [session.near, session.far];
    StateArrays {
        set,
        names,
        ids,
        timers,
        rdi,
        run,
        totals,
    }
}
