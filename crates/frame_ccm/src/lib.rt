// The fields of a CCM, its MEG ID among them.
// All are 0, and the MEG ID is empty, where the frame is bad or another message; `frame_message::message_answer` says which. No public
// function needs anything.
#![tactic(auto)]

ghost use Rattle.std.specs.Prelude.{◌≡◌, ◌+◌, ◌≤◌, length};
ghost use Rattle.frame_ccm.specs.Ccm.{ccm_in, ccm_of, meg_in, meg_of, meg_place};

use base_bits::{mep_id_of, period_code_of, rdi_of};
use base_numbers::read_big;
use frame_head::pdu_of;
use frame_message::good_opcode;

// A CCM's fields beside its MEG ID; the counts are TxFCf, RxFCb and TxFCb. RDI is a number and no bool: `frame_ccm.ccm_in` has it so.
#[repr(C)]
#[derive(Clone, Copy, Default)]
pub struct CcmFields {
    pub sequence: u32,
    pub mep: u32,
    pub txfcf: u32,
    pub rxfcb: u32,
    pub txfcb: u32,
    pub period: u32,
    pub rdi: u32,
}

// The fields at their places in a PDU.
fn ccm_in(pdu: &[u8]) -> CcmFields
    requires { 70 ≤ length pdu.now }
    ensures { result ≡ ccm_in pdu.now }
{
    let flags = pdu[2];
    CcmFields {
        sequence: read_big(pdu, 4, 4),
        mep: mep_id_of(read_big(pdu, 8, 2)),
        txfcf: read_big(pdu, 58, 4),
        rxfcb: read_big(pdu, 62, 4),
        txfcb: read_big(pdu, 66, 4),
        period: period_code_of(flags),
        rdi: rdi_of(flags),
    }
}

// The MEG ID at its place in a PDU.
fn meg_in(pdu: &[u8]) -> &[u8]
    requires { 58 ≤ length pdu.now }
    ensures { (result.now ≡ meg_in pdu.now) × (result.ref_ptr ≡ (pdu.entry.ref_ptr.0, 10 + pdu.entry.ref_ptr.1)) }
{
    &pdu[10..58]
}

// The fields of a CCM: sequence, MEP ID, three counts, period code and RDI.
pub fn ccm_fields(frame: &[u8]) -> CcmFields
    ensures { result ≡ ccm_of frame.now }
{
    if good_opcode(frame) != 1 {
        return CcmFields::default();
    }
    ccm_in(pdu_of(frame))
}

// The MEG ID of a CCM, its 48 octets as that part of the frame; empty, at the frame's start, where there is none.
pub fn meg_id(frame: &[u8]) -> &[u8]
    ensures { (result.now ≡ meg_of frame.now) × (result.ref_ptr ≡ meg_place frame.entry.ref_ptr frame.now) }
{
    if good_opcode(frame) != 1 {
        return &frame[..0];
    }
    meg_in(pdu_of(frame))
}
