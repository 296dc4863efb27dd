// The boundary to C: the lent loss session, answered in the paper's numbers.
// It is for firmware in C or Rust: linkbox_c exports it, and linkbox.h declares it. It calls the Rattle function of the same call and
// returns its answer in numbers. Any content of the memory is accepted.
#![tactic(auto)]

ghost use Rattle.std.specs.Prelude.{◌≡◌};
ghost use Rattle.loss_session.specs.Session.{readings};
ghost use Rattle.loss_lent.specs.Lent.{Lent};

use loss_lent::answer;
use loss_reading::LossTold;
use loss_session::LossSession;

// One more reading of the lent loss session: the one function that is lent a struct. It only calls and stores. After a refusal the session
// is what it was and is not stored: the compiler then reads and writes on each way only what that way needs.
#[tactic(auto, using(crate::proofs::Refused::still))]
pub fn linkbox_measure(
    session: &mut LossSession,
    txf: u32,
    rxf: u32,
    txb: u32,
    ours: u32,
) -> LossTold
    ensures { Lent session.old (readings txf rxf txb ours) result session.new }
{
    let u = answer(*session, txf, rxf, txb, ours);
    if u.told.refusal == 0 {
        *session = u.session;
    }
    u.told
}
