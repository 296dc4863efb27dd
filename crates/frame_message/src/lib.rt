// Which message a frame is: what the reader tests, and then the period code.
// Nothing here knows of settings or state. A bad frame's number is the reader's, 1, D1, D3, D4 or D5, and after these D7: a CCM of period
// code 0, an AIS or LCK of a code other than 4 and 6. For a frame of its own level the box tests the code by `code_good`, after the
// destination, D6; this answer is for readers and for lower levels. One answer serves all fields: the functions that read fields give those of their message, and zeros for any other frame.
// Each judges the frame again, so a caller who needs several fields of one frame pays for that.
#![tactic(auto)]

ghost use Rattle.std.specs.Prelude.{◌≡◌};
ghost use Rattle.frame_message.specs.Message.{code_good, message_in, message_of};
ghost use Rattle.frame_message.specs.Told.{message_numbers, good_opcode};
ghost use Rattle.frame_message_answer.specs.Told.{message_told};

use base_bits::period_code_of;
use frame_head::{is_oam, length_good, pdu_of};
use frame_judge::judge_row;
use frame_message_answer::{NoMessage, tell};
use frame_opcodes::{Rule, rule_of};
use frame_reader_answer::Bad;
use frame_tlvs::tlvs_whole;

// Whether a message of this row may have a period code: AIS and LCK 4 or 6, a CCM any but 0; no other message has one.
pub fn code_good(rule: Rule, code: u32) -> bool
    ensures { result ≡ code_good rule code }
{
    (!rule.alarm | ((code == 4) | (code == 6))) & (!rule.period | (code != 0))
}

// Which message a PDU is. The row of its opcode is found once.
fn message_in(pdu: &[u8]) -> Result<u8, NoMessage>
    ensures { result ≡ message_in pdu.now }
{
    if pdu.len() < 4 {
        return Err(NoMessage::Bad(Bad::Short));
    }
    let rule = rule_of(pdu[1]);
    let start = judge_row(pdu, rule)?;
    if !tlvs_whole(pdu, start) {
        return Err(NoMessage::Bad(Bad::CutOff));
    }
    if !code_good(rule, period_code_of(pdu[2])) {
        return Err(NoMessage::PeriodCode);
    }
    Ok(pdu[1])
}

// Which message a frame is, by its opcode; a reason or D7 where it is none.
pub fn message_answer(frame: &[u8]) -> Result<u8, NoMessage>
    ensures { (result ≡ message_of frame.now) × (message_told result ≡ message_numbers frame.now) }
{
    if !length_good(frame) {
        return Err(NoMessage::Bad(Bad::Length));
    }
    if !is_oam(frame) {
        return Err(NoMessage::Bad(Bad::Opcode));
    }
    message_in(pdu_of(frame))
}

// The opcode of a good frame; 0 of a bad one, and no `Option`: so `frame_message.good_opcode` has it, and no message has opcode 0.
pub fn good_opcode(frame: &[u8]) -> u32
    ensures { result ≡ good_opcode frame.now }
{
    tell(message_answer(frame)).opcode
}
