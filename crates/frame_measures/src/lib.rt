// The fields of the messages that measure: the counts of LMM and LMR, the stamps of DMM and DMR.
// All are 0 where the frame is bad or another message; `frame_message::message_answer` says which. No public function needs
// anything. The two readers differ in opcodes, fields and places: one over a reader that it is passed would be longer than both.
#![tactic(auto)]

ghost use Rattle.std.specs.Prelude.{◌≡◌, ◌≤◌, length};
ghost use Rattle.frame_measures.specs.Measures.{loss_in, loss_of, delay_in, delay_of};

use base_numbers::read_big;
use base_stamp::Stamp;
use frame_head::pdu_of;
use frame_message::good_opcode;

// The counts of an LMM or LMR: TxFCf, RxFCf and TxFCb.
#[repr(C)]
#[derive(Clone, Copy, Default)]
pub struct LossFields {
    pub txfcf: u32,
    pub rxfcf: u32,
    pub txfcb: u32,
}

// The stamps of a DMM or DMR: TxTimeStampf, RxTimeStampf and TxTimeStampb.
#[repr(C)]
#[derive(Clone, Copy, Default)]
pub struct DelayFields {
    pub txtimestampf: Stamp,
    pub rxtimestampf: Stamp,
    pub txtimestampb: Stamp,
}

// The counts at their places in a PDU.
fn loss_in(pdu: &[u8]) -> LossFields
    requires { 16 ≤ length pdu.now }
    ensures { result ≡ loss_in pdu.now }
{
    LossFields {
        txfcf: read_big(pdu, 4, 4),
        rxfcf: read_big(pdu, 8, 4),
        txfcb: read_big(pdu, 12, 4),
    }
}

// The stamps at their places in a PDU.
fn delay_in(pdu: &[u8]) -> DelayFields
    requires { 28 ≤ length pdu.now }
    ensures { result ≡ delay_in pdu.now }
{
    DelayFields {
        txtimestampf: Stamp {
            seconds: read_big(pdu, 4, 4),
            nanoseconds: read_big(pdu, 8, 4),
        },
        rxtimestampf: Stamp {
            seconds: read_big(pdu, 12, 4),
            nanoseconds: read_big(pdu, 16, 4),
        },
        txtimestampb: Stamp {
            seconds: read_big(pdu, 20, 4),
            nanoseconds: read_big(pdu, 24, 4),
        },
    }
}

// The counts of an LMM or LMR.
pub fn loss_fields(frame: &[u8]) -> LossFields
    ensures { result ≡ loss_of frame.now }
{
    let opcode = good_opcode(frame);
    if (opcode != 43) & (opcode != 42) {
        return LossFields::default();
    }
    loss_in(pdu_of(frame))
}

// The three stamps of a DMM or DMR, of any content.
pub fn delay_fields(frame: &[u8]) -> DelayFields
    ensures { result ≡ delay_of frame.now }
{
    let opcode = good_opcode(frame);
    if (opcode != 47) & (opcode != 46) {
        return DelayFields::default();
    }
    delay_in(pdu_of(frame))
}
