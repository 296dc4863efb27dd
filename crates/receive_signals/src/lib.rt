// What a CCM, AIS or LCK of our level says, and the timers that it sets. Rule 5 of the paper.
#![tactic(auto)]

ghost use Rattle.std.specs.Prelude.{◌≡◌};
ghost use Rattle.std.proofs.Math.ListN as ListN;
ghost use Rattle.state_view.specs.State.{at_start, at_end};
ghost use Rattle.state_places.specs.Stored.{Whole};
ghost use Rattle.receive_signals.specs.Signals.{signalled};

use base_period::hold_of;
use state_settings::{LentSettings, PERIOD, Slots};
use state_view::{AIS, LCK, MISMERGE, Run, Totals, UNEXPECTED_MEP, UNEXPECTED_PERIOD};

// What a message says.
#[derive(Clone, Copy)]
pub enum Signal {
    // A CCM of another MEG.
    Mismerge,
    // A CCM of a MEP ID that is no peer's, our own included.
    UnexpectedMep,
    // A CCM of the peer in a slot, with its RDI.
    Heard { slot: usize, rdi: u32 },
    // The same, of another period than ours.
    UnexpectedPeriod { slot: usize, rdi: u32 },
    // An AIS, an LCK, of a period by its code.
    Alarm { code: u32 },
    Lock { code: u32 },
}

// Sets the word of a slot; nothing where there is no such slot.
fn put_slot(slots: &mut [u32], slot: usize, word: u32)
    ensures { slots.new ≡ ListN.set slots.old slot word }
{
    if slots.len() <= slot {
        return;
    }
    slots[slot] = word;
}

// Sets what a message says: every timer to our own hold time, but those of AIS and LCK to that of the period in the frame.
pub fn set_timers(
    settings: LentSettings<'_>,
    timers: &mut Slots,
    rdi: &mut Slots,
    run: &mut Run,
    totals: &Totals,
    signal: Signal,
)
    ensures totals_value { at_end settings timers.new rdi.new run.new totals.now ≡ signalled (at_start settings timers.old rdi.old run.old totals.now) signal }
    ensures whole { Whole run.new totals.now }
{
    // a view of an array has its length, and costs nothing
    let _words: &[u32] = run;
    let _both: &[i64] = totals;
    let hold = hold_of(settings.set[PERIOD]);
    match signal {
        Signal::Mismerge => {
            run[MISMERGE] = hold;
        }
        Signal::UnexpectedMep => {
            run[UNEXPECTED_MEP] = hold;
        }
        Signal::Heard { slot, rdi: flag } => {
            put_slot(timers, slot, hold);
            put_slot(rdi, slot, flag);
        }
        Signal::UnexpectedPeriod { slot, rdi: flag } => {
            put_slot(timers, slot, hold);
            put_slot(rdi, slot, flag);
            run[UNEXPECTED_PERIOD] = hold;
        }
        Signal::Alarm { code } => {
            run[AIS] = hold_of(code);
        }
        Signal::Lock { code } => {
            run[LCK] = hold_of(code);
        }
    }
}
