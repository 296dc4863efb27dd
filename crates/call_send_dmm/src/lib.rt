// Send DMM: the caller asks for a DMM to the loss peer, with its stamp.
// Refusals in this order: 2, 6, 3. The state is only read, and the buffer is left as by send LMM. An all-zero stamp is sent like any
// other.
#![tactic(auto)]

ghost use Rattle.std.specs.Prelude.{◌≡◌};
ghost use Rattle.base_laws.specs.Ended.{ended};
ghost use Rattle.state_view.specs.State.{state_in};
ghost use Rattle.base_stamp.specs.Stamps.{Wire};
ghost use Rattle.call_send_answer.specs.Told.{dmm_told};
ghost use Rattle.call_send_dmm.specs.Dmm.{send_dmm, dmm_numbers};

use base_stamp::{Stamp, good_stamp};
use call_send_answer::DmmRefusal;
use message_dmm::write_dmm;
use state_settings::LEVEL;
use state_view::LentState;
use state_well_formed::is_well_formed;

// Writes a DMM to the loss peer with the caller's stamp; refusal 2, 6 or 3.
pub fn send_dmm(state: LentState<'_>, stamp: Stamp, out: &mut [u8]) -> Result<usize, DmmRefusal>
    ensures out_after { (ended result (state_in state) out.new ≡
        send_dmm (state_in state) stamp out.old)
        × (dmm_told result ≡ dmm_numbers (state_in state) stamp out.old) }
    ensures wire { Wire stamp }
{
    if !is_well_formed(state) {
        return Err(DmmRefusal::NotWellFormed);
    }
    if !good_stamp(stamp) {
        return Err(DmmRefusal::BadStamp);
    }
    let settings = state.settings;
    Ok(write_dmm(out, settings.names, settings.set[LEVEL], stamp)?)
}
