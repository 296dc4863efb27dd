// What is held from call to call.
use loss_session::{LossSession, cleared};
use state_settings::{NAMES, PEERS, SET};
use state_view::{RUN, StateArrays, TOTALS};

// The state and the lent session.
#[derive(Clone, Copy)]
pub(crate) struct Held {
    pub(crate) state: StateArrays,
    pub(crate) session: LossSession,
}

// What is held after a call, and how long its line is so far.
#[derive(Clone, Copy)]
pub(crate) struct Ran {
    pub(crate) held: Held,
    pub(crate) length: usize,
}

// A state of zeros.
fn zeros() -> StateArrays {
    StateArrays {
        set: [0; SET],
        names: [0; NAMES],
        ids: [0; PEERS],
        timers: [0; PEERS],
        rdi: [0; PEERS],
        run: [0; RUN],
        totals: [0; TOTALS],
    }
}

// What is held before the first call.
pub(crate) fn nothing() -> Held {
    Held {
        state: zeros(),
        session: cleared(),
    }
}

// A call that left what is held as it was.
pub(crate) fn looked(held: Held, length: usize) -> Ran {
    Ran { held, length }
}

// A call that left this state.
pub(crate) fn stepped(held: Held, state: StateArrays, length: usize) -> Ran {
    let session = held.session;
    Ran {
        held: Held { state, session },
        length,
    }
}

// A call that left this session.
pub(crate) fn measured(held: Held, session: LossSession, length: usize) -> Ran {
    let state = held.state;
    Ran {
        held: Held { state, session },
        length,
    }
}
