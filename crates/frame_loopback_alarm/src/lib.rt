// The fields of loopback messages and of alarms: the transaction, the period.
// Each is 0 where the frame is bad or another message; `frame_message::message_answer` says which. No function needs anything. The two
// share a test of two opcodes and nothing else, so each stands by itself. 0 and no `Option`: so `transaction_of` and `alarm_of` are defined.
#![tactic(auto)]

ghost use Rattle.std.specs.Prelude.{◌≡◌};
ghost use Rattle.frame_loopback_alarm.specs.Fixed.{transaction_of, alarm_of};

use base_bits::period_code_of;
use base_numbers::read_big;
use frame_head::pdu_of;
use frame_message::good_opcode;

// The transaction of an LBM or LBR.
pub fn transaction(frame: &[u8]) -> u32
    ensures { result ≡ transaction_of frame.now }
{
    let opcode = good_opcode(frame);
    if (opcode != 3) & (opcode != 2) {
        return 0;
    }
    read_big(pdu_of(frame), 4, 4)
}

// The period code of an AIS or LCK.
pub fn alarm_period(frame: &[u8]) -> u32
    ensures { result ≡ alarm_of frame.now }
{
    let opcode = good_opcode(frame);
    if (opcode != 33) & (opcode != 35) {
        return 0;
    }
    period_code_of(pdu_of(frame)[2])
}
