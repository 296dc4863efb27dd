// What is before the TLVs of a PDU: D1, D3 and D4, or where the TLVs start.
// These tests come before the TLVs in the paper's order; D5 is the walk's. They are given the PDU alone, wherever that is in a frame, need
// nothing of their caller and answer for any octets. They are a step of the reader, so their answer has no numbers of its own. A caller
// that has found the row of the opcode passes it in, so that it is looked up once.
#![tactic(auto)]

ghost use Rattle.std.specs.Prelude.{◌≡◌};
ghost use Rattle.frame_judge.specs.Judge.{judge_by, judge_pdu};

use frame_opcodes::{Rule, rule_of};
use frame_reader_answer::Bad;

// Where the TLVs of a PDU start, by a row of the table and the frame's own offset; D1, D3 or D4 where they do not.
pub fn judge_row(pdu: &[u8], rule: Rule) -> Result<usize, Bad>
    ensures { result ≡ judge_by rule pdu.now }
{
    if pdu.len() < 4 {
        return Err(Bad::Short);
    }
    if !rule.known {
        return Err(Bad::Opcode);
    }
    let offset = pdu[3] as usize;
    if offset < rule.least {
        return Err(Bad::Offset);
    }
    Ok(4 + offset)
}

// The same by the row of the PDU's own opcode.
pub fn judge_pdu(pdu: &[u8]) -> Result<usize, Bad>
    ensures { result ≡ judge_pdu pdu.now }
{
    if pdu.len() < 2 {
        return Err(Bad::Short);
    }
    judge_row(pdu, rule_of(pdu[1]))
}
