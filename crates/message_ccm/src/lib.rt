// The CCM, written into the caller's buffer, with our own address and MEG ID.
// It is made of what is given and of no state, and needs nothing of its caller: it is given our names as the settings keep them, and
// takes our own address and the MEG ID from there. Buffer and answer are as in `message_parts`.
#![tactic(auto)]

ghost use Rattle.std.specs.Prelude.{◌≡◌, ◌≤◌, length};
ghost use Rattle.base_laws.specs.Lists.{part, laid};
ghost use Rattle.frame_head.specs.Head.{behind_head};
ghost use Rattle.message_parts.specs.Buffer.{written_of, buffer_of, written_told, written_numbers};
ghost use Rattle.message_ccm.specs.Continuity.{ccm_fixed, ccm_named, ccm_length};

use base_bits::{ccm_flags, first_octet, mep_id_of};
use base_numbers::write_big;
use base_octets::copy_octets;
use frame_head::HEAD_LENGTH;
use frame_multicast::multicast_of;
use message_parts::parts::{WriteRefusal, write_head};
use state_settings::{LOSSPEER, MEG, NAMES, Names};

// How long a CCM is.
pub const CCM_LENGTH: usize = 89;

// What a CCM says beside our address and MEG ID: level, RDI (0 or 1, a number as `base_bits.ccm_flags` takes it), period code, sequence,
// MEP ID, and the counts
//   txfcf   TxFCf, the frames that we had sent
//   rxfcb   RxFCb, those that we had received when the peer's last CCM came
//   txfcb   TxFCb, those that the peer had sent, as that CCM said
#[repr(C)]
#[derive(Clone, Copy)]
pub struct CcmValues {
    pub level: u32,
    pub rdi: u32,
    pub period: u32,
    pub sequence: u32,
    pub mep: u32,
    pub txfcf: u32,
    pub rxfcb: u32,
    pub txfcb: u32,
}

// Writes a CCM's fixed part and the End TLV behind it.
fn write_ccm_fixed(into: &mut [u8], meg: &[u8], ccm: CcmValues)
    requires { (behind_head 75 ≤ length into.old) × (length meg.now ≡ 48) }
    ensures { into.new ≡ laid (behind_head 4) (ccm_fixed meg.now ccm) into.old }
{
    write_big(into, HEAD_LENGTH + 4, 4, ccm.sequence);
    write_big(into, HEAD_LENGTH + 8, 2, mep_id_of(ccm.mep));
    copy_octets(into, HEAD_LENGTH + 10, meg);
    write_big(into, HEAD_LENGTH + 58, 4, ccm.txfcf);
    write_big(into, HEAD_LENGTH + 62, 4, ccm.rxfcb);
    write_big(into, HEAD_LENGTH + 66, 4, ccm.txfcb);
    write_big(into, HEAD_LENGTH + 70, 5, 0);
}

// Writes a CCM, 89 octets, version 0, to the multicast address of its level, with our own address and MEG ID.
pub fn write_ccm(into: &mut [u8], names: &Names, ccm: CcmValues) -> Result<usize, WriteRefusal>
    ensures value { (result ≡ written_of (ccm_named names.now ccm) into.old)
        × (written_told result ≡ written_numbers (ccm_named names.now ccm) into.old) }
    ensures into_after { (into.new ≡ buffer_of (ccm_named names.now ccm) into.old)
        × (length (ccm_named names.now ccm) ≡ ccm_length) }
{
    let all: &[u8] = names;
    if into.len() < CCM_LENGTH {
        return Err(WriteRefusal::NoRoom);
    }
    let group = multicast_of(ccm.level);
    copy_octets(into, 0, &group);
    write_head(
        into,
        &all[..LOSSPEER],
        first_octet(ccm.level, 0),
        1,
        ccm_flags(ccm.rdi, ccm.period),
        70,
    );
    write_ccm_fixed(into, &all[MEG..NAMES], ccm);
    Ok(CCM_LENGTH)
}
