// What a box knows, where it is kept and when it is well formed: a state is seven arrays, lent together, and any content is a value.
// `state_view.view_of` says which word is where, and every definition speaks of the record that it gives. When a state is well formed is
// said here, as rules, one field each (`state_view.WellFormed`), and as a test (`state_view.well_formed`), and both agree; `state_timers`,
// `state_slots` and `state_well_formed` carry the test out. A word is 32 bits wide, whatever its range, so that any content is a value
// that can be refused.
#![tactic(auto)]

ghost use Rattle.std.specs.Prelude.{◌≡◌};
ghost use Rattle.state_view.specs.State.{session_in, at_start, shown, state_lent};

use loss_session::{LossSession, Readings};
use state_settings::{LentSettings, Names, Set, Slots};

// How many running words there are, and how many totals: the definitions have theirs, `run_words` and `loss_totals`.
pub const RUN: usize = 15;

pub const TOTALS: usize = 2;

pub type Run = [u32; RUN];

pub type Totals = [i64; TOTALS];

// Where the running words are: the timers of the conditions, the ticks to the next CCM, the service counts, the loss session.
pub const MISMERGE: usize = 0;

pub const UNEXPECTED_LEVEL: usize = 1;

pub const UNEXPECTED_MEP: usize = 2;

pub const UNEXPECTED_PERIOD: usize = 3;

pub const AIS: usize = 4;

pub const LCK: usize = 5;

pub const NEXT: usize = 6;

pub const SENT: usize = 7;

pub const RECEIVED: usize = 8;

pub const KEPT: usize = 9;

pub const TXFCF: usize = 10;

pub const RXFCF: usize = 11;

pub const TXFCB: usize = 12;

pub const OURS: usize = 13;

pub const INTERVALS: usize = 14;

// Where the totals are.
pub const NEAR: usize = 0;

pub const FAR: usize = 1;

// A state in its seven arrays: settings' words, names, peers' IDs; peers' timers, peers' RDI, running words, totals.
#[repr(C)]
#[derive(Clone, Copy)]
pub struct StateArrays {
    pub set: Set,
    pub names: Names,
    pub ids: Slots,
    pub timers: Slots,
    pub rdi: Slots,
    pub run: Run,
    pub totals: Totals,
}

// A state, lent to be read.
#[derive(Clone, Copy)]
pub struct LentState<'a> {
    pub settings: LentSettings<'a>,
    pub timers: &'a Slots,
    pub rdi: &'a Slots,
    pub run: &'a Run,
    pub totals: &'a Totals,
}

impl StateArrays {
    // The state in these arrays, lent to be read.
    pub fn lent(&self) -> LentState<'_>
        ensures { state_lent result ≡ shown self.now }
    {
        LentState {
            settings: LentSettings {
                set: &self.set,
                names: &self.names,
                ids: &self.ids,
            },
            timers: &self.timers,
            rdi: &self.rdi,
            run: &self.run,
            totals: &self.totals,
        }
    }
}

// A state lent from its parts. A function may write one such struct and no second of the same references: who lends twice calls this.
pub fn lend<'a>(
    settings: LentSettings<'a>,
    timers: &'a Slots,
    rdi: &'a Slots,
    run: &'a Run,
    totals: &'a Totals,
) -> LentState<'a>
    ensures { state_lent result ≡ at_start settings timers.now rdi.now run.now totals.now }
{
    LentState {
        settings,
        timers,
        rdi,
        run,
        totals,
    }
}

// The loss session of a state.
pub fn session_of(run: &Run, totals: &Totals) -> LossSession
    ensures { result ≡ session_in run.now totals.now }
{
    let near = totals[NEAR];
    let far = totals[FAR];
    LossSession {
        kept: run[KEPT],
        intervals: run[INTERVALS],
        last: Readings {
            txf: run[TXFCF],
            rxf: run[RXFCF],
            txb: run[TXFCB],
            ours: run[OURS],
        },
        near,
        far,
    }
}
