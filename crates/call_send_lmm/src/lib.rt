// Send LMM: the caller asks for an LMM to the loss peer, with our sent count.
// Refusals in this order: 2, 3. The state is only read. A refused call leaves the buffer as it was; else the message is in its first
// octets, and every octet behind it is as it was.
#![tactic(auto)]

ghost use Rattle.std.specs.Prelude.{◌≡◌};
ghost use Rattle.base_laws.specs.Ended.{ended};
ghost use Rattle.state_view.specs.State.{state_in};
ghost use Rattle.call_send_answer.specs.Told.{lmm_told};
ghost use Rattle.call_send_lmm.specs.Lmm.{send_lmm, lmm_numbers};

use call_send_answer::SendRefusal;
use message_lmm::write_lmm;
use state_settings::LEVEL;
use state_view::{LentState, SENT};
use state_well_formed::is_well_formed;

// Writes an LMM to the loss peer with our sent count; refusal 2 or 3.
pub fn send_lmm(state: LentState<'_>, out: &mut [u8]) -> Result<usize, SendRefusal>
    ensures { (ended result (state_in state) out.new ≡ send_lmm (state_in state) out.old)
        × (lmm_told result ≡ lmm_numbers (state_in state) out.old) }
{
    if !is_well_formed(state) {
        return Err(SendRefusal::NotWellFormed);
    }
    let LentState { settings, run, .. } = state;
    Ok(write_lmm(out, settings.names, settings.set[LEVEL], run[SENT])?)
}
