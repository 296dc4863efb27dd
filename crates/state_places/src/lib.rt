// What storing a word, a session or all timers leaves of a state, one law for every word; a session put in its place.
// Nothing is refused or needed. A word is put by its name (`state_view.Word`, `state_view.put`): that storing it at its place changes that
// word and no other is one law for all of them, `state_places.word`, so a new word needs a row and no law. A state is laid out in one way
// only: two runs of arrays that show the same state are the same, `state_places.one`. So a contract that names the state after a call names
// the content of every array, and the proofs of one result rest on it.
#![tactic(auto)]

ghost use Rattle.std.specs.Prelude.{◌≡◌};
ghost use Rattle.state_view.specs.State.{at_start, at_end};
ghost use Rattle.state_view.specs.Changed.{with_session};
ghost use Rattle.state_places.specs.Stored.{Whole};

use loss_session::LossSession;
use state_settings::{LentSettings, Slots};
use state_view::{FAR, INTERVALS, KEPT, NEAR, OURS, RXFCF, Run, TXFCB, TXFCF, Totals};

// Puts a loss session in place of the state's; all else is as it was, and both arrays are as long as they were.
pub fn put_session(
    settings: LentSettings<'_>,
    timers: &Slots,
    rdi: &Slots,
    run: &mut Run,
    totals: &mut Totals,
    session: LossSession,
)
    ensures totals_value { at_end settings timers.now rdi.now run.new totals.new ≡ with_session session (at_start settings timers.now rdi.now run.old totals.old) }
    ensures whole { Whole run.new totals.new }
{
    // a view of an array has its length, and costs nothing
    let _words: &[u32] = run;
    let _both: &[i64] = totals;
    let last = session.last;
    run[KEPT] = session.kept;
    run[TXFCF] = last.txf;
    run[RXFCF] = last.rxf;
    run[TXFCB] = last.txb;
    run[OURS] = last.ours;
    run[INTERVALS] = session.intervals;
    let near = session.near;
    let far = session.far;
    totals[NEAR] = near;
    totals[FAR] = far;
}
