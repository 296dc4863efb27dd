// The lent loss session, the sheet side of the card: rule 7 on four readings, by value, and demand 3 for it.
// A run of lent calls gives the numbers of the rule by value and leaves its session. `loss_lent.LentDemand3` is a predicate on any lent
// call, in the order's words: from a cleared session on, the results, both totals and the intervals are the account's, for at most
// 1,000,000,001 readings of true counts; after these a reading is refused with 5 and changes nothing. The one function that is lent a
// struct is `linkbox_session::linkbox_measure`: it calls the function by value and stores the session that this returns.
#![tactic(auto)]

ghost use Rattle.loss_session.specs.Session.{readings};
ghost use Rattle.loss_lent.specs.Lent.{reading_of};
ghost use Rattle.std.specs.Prelude.{◌≡◌};

use loss_reading::LossTold;
use loss_session::{LossSession, Readings};

// A reading in the paper's numbers, and the session after it.
#[derive(Clone, Copy)]
pub struct Answered {
    pub told: LossTold,
    pub session: LossSession,
}

// The session's rule by value, that of `loss_step::take_reading`, numbers in and numbers out.
pub fn answer(s: LossSession, txf: u32, rxf: u32, txb: u32, ours: u32) -> Answered
    ensures { result ≡ reading_of s (readings txf rxf txb ours) }
{
    let u = loss_step::take_reading(
        s,
        Readings {
            txf,
            rxf,
            txb,
            ours,
        },
    );
    let a = u.answer;
    let told = loss_reading::tell(a);
    let session = u.session;
    Answered { told, session }
}
