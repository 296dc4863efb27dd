// A tick: every timer is lowered, and on the last tick of a period a CCM is sent.
// Refusals in this order: 2; 3, on a period's last tick where the buffer is shorter than 89 octets. A refused tick has not passed: no
// timer is lowered, and as many ticks are left to the next CCM as before. A tick that sends nothing never gives 3, whatever the buffer.
#![tactic(auto)]

ghost use Rattle.std.specs.Prelude.{◌≡◌};
ghost use Rattle.base_laws.specs.Ended.{ended};
ghost use Rattle.state_view.specs.State.{at_start, at_end};
ghost use Rattle.state_places.specs.Stored.{Whole};
ghost use Rattle.call_send_answer.specs.Told.{tick_told};
ghost use Rattle.call_tick.specs.Tick.{tick_of, tick_numbers};

use base_period::ticks_of;
use call_send_answer::SendRefusal;
use call_tick_ccm::write_own_ccm;
use call_tick_lower::pass_tick;
use message_ccm::CCM_LENGTH;
use state_settings::{LentSettings, PERIOD, Slots};
use state_view::{NEXT, Run, Totals, lend};
use state_well_formed::is_well_formed;

// Lets a tick pass, and on the last of a period writes a CCM with the conditions that are active after it: refusal 2, a tick that sends
// nothing, refusal 3, or a tick with the CCM.
pub fn tick(
    settings: LentSettings<'_>,
    timers: &mut Slots,
    rdi: &Slots,
    run: &mut Run,
    totals: &Totals,
    out: &mut [u8],
) -> Result<Option<usize>, SendRefusal>
    ensures out_after { (ended result (at_end settings timers.new rdi.now run.new totals.now) out.new ≡
        tick_of (at_start settings timers.old rdi.now run.old totals.now) out.old)
        × (tick_told result ≡ tick_numbers (at_start settings timers.old rdi.now run.old totals.now) out.old) }
    ensures whole { Whole run.new totals.now }
{
    // a view of an array has its length, and costs nothing
    let _words: &[u32] = run;
    let _both: &[i64] = totals;
    if !is_well_formed(lend(settings, timers, rdi, run, totals)) {
        return Err(SendRefusal::NotWellFormed);
    }
    let left = run[NEXT];
    if 1 < left {
        pass_tick(settings, timers, rdi, run, totals, left - 1);
        return Ok(None);
    }
    if out.len() < CCM_LENGTH {
        return Err(SendRefusal::NoRoom);
    }
    pass_tick(
        settings,
        timers,
        rdi,
        run,
        totals,
        ticks_of(settings.set[PERIOD]),
    );
    // the answer is known: there is room
    let _written = write_own_ccm(lend(settings, timers, rdi, run, totals), out);
    Ok(Some(CCM_LENGTH))
}
