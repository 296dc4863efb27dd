// What one more reading makes of a loss session, and what it is answered, in cases and in the paper's numbers. Rule 7 of the paper.
// Two refusals, in this order: 2, the session is not well formed; 5, the reading would start interval 1,000,000,001. Each is given
// exactly then and leaves the session as it was. In numbers a first reading looks like a measured interval of 0 and 0: refusal 0, results
// 0 and 0. No other two answers look alike, and a caller in Rattle can tell the cases apart. Beside a refusal every other value is 0. The
// code that takes the reading is apart, in `loss_step`, so that a mistake in what is said here is tried without it.
#![tactic(auto)]

ghost use Rattle.std.specs.Prelude.{◌≡◌};
ghost use Rattle.loss_reading.specs.Told.{loss_told};

use loss_session::LossSession;

// The losses of the interval that a reading ends: sent less received, in each direction.
#[derive(Clone, Copy)]
pub struct Losses {
    pub near: i64,
    pub far: i64,
}

// Why a reading is not taken.
#[derive(Clone, Copy)]
pub enum LossRefusal {
    // Refusal 2: the session is not well formed.
    NotWellFormed,
    // Refusal 5: it would start interval 1,000,000,001.
    Full,
}

// What one more reading is answered, no losses for the first after a clear, which is only kept; and the session after it.
#[derive(Clone, Copy)]
pub struct Updated {
    pub answer: Result<Option<Losses>, LossRefusal>,
    pub session: LossSession,
}

// An answer in the paper's numbers: the refusal, or 0, and the two results. Numbers and no enum: C is given them.
#[repr(C)]
#[derive(Clone, Copy)]
pub struct LossTold {
    pub refusal: u32,
    pub near: i64,
    pub far: i64,
}

// An answer in the paper's numbers.
#[tactic(auto, unfolding(crate::specs::Told::loss_told))]
pub fn tell(a: Result<Option<Losses>, LossRefusal>) -> LossTold
    ensures { result ≡ loss_told a }
{
    // by this name and no `From`: lemma `tell_one`, the edits and the pages cite it
    match a {
        Err(LossRefusal::NotWellFormed) => LossTold {
            refusal: 2,
            near: 0,
            far: 0,
        },
        Err(LossRefusal::Full) => LossTold {
            refusal: 5,
            near: 0,
            far: 0,
        },
        Ok(None) => LossTold {
            refusal: 0,
            near: 0,
            far: 0,
        },
        Ok(Some(losses)) => LossTold {
            refusal: 0,
            near: losses.near,
            far: losses.far,
        },
    }
}
