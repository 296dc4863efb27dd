// The CCM that a state sends: our own address, MEG ID and MEP ID, and RDI where any condition is active.
// Refusal 3 where the buffer is shorter than 89 octets, and then nothing changes. Whether a CCM is due, and whether the state is well
// formed, `call_tick` tests before. The octets have their own short proof here, which an edit of the tick's order does not repeat.
#![tactic(auto)]

ghost use Rattle.std.specs.Prelude.{◌≡◌, length};
ghost use Rattle.state_view.specs.State.{state_in};
ghost use Rattle.message_parts.specs.Buffer.{written_of, buffer_of, written_told, written_numbers};
ghost use Rattle.message_ccm.specs.Continuity.{ccm_length};
ghost use Rattle.call_tick_ccm.specs.Ccm.{ccm_of};

use message_ccm::{CcmValues, write_ccm};
use message_parts::parts::WriteRefusal;
use state_settings::{LEVEL, LentSettings, MEP, PERIOD};
use state_standing::{any_stands, flag_of};
use state_view::LentState;

// Writes the CCM of a state, 89 octets, or gives refusal 3.
pub fn write_own_ccm(state: LentState<'_>, out: &mut [u8]) -> Result<usize, WriteRefusal>
    ensures value { (result ≡ written_of (ccm_of (state_in state)) out.old)
        × (written_told result ≡ written_numbers (ccm_of (state_in state)) out.old) }
    ensures out_after { (out.new ≡ buffer_of (ccm_of (state_in state)) out.old)
        × (length (ccm_of (state_in state)) ≡ ccm_length) }
{
    let stands = any_stands(state);
    let LentSettings { set, names, .. } = state.settings;
    let ccm = CcmValues {
        level: set[LEVEL],
        rdi: flag_of(stands),
        period: set[PERIOD],
        sequence: 0,
        mep: set[MEP],
        txfcf: 0,
        rxfcb: 0,
        txfcb: 0,
    };
    // a copy, which no caller's buffer can overlap: the MEG ID is then written by vector instructions and not octet by octet
    let copied = *names;
    write_ccm(out, &copied, ccm)
}
