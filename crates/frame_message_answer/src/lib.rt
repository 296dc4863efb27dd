// Which message a frame may be, or why it is none; and the same in the paper's numbers.
#![tactic(auto)]

ghost use Rattle.std.specs.Prelude.{◌≡◌};
ghost use Rattle.frame_message_answer.specs.Told.{message_told};
ghost use Rattle.frame_message_answer.specs.declared.NoMessage.TheVariants.{Bad};

use frame_reader_answer::{Bad, tell as tell_reader};

// Why a frame is no message.
#[derive(Clone, Copy)]
pub enum NoMessage {
    // D7: a CCM without period, or an AIS or LCK of a period that is not its.
    PeriodCode,
    // The reader's reason: 1, D1, D3, D4 or D5.
    Bad(Bad),
}

impl From<Bad> for NoMessage {
    ghost from_gives = { λ b e. e ≡ Bad b };

    fn from(b: Bad) -> NoMessage {
        NoMessage::Bad(b)
    }
}

// An answer in the paper's numbers: the refusal, or 0; the drop, or 0; and the opcode of a good frame. Numbers and no enum:
// `frame_message.message_numbers` states them.
#[repr(C)]
#[derive(Clone, Copy)]
pub struct MessageTold {
    pub refusal: u32,
    pub drop: u32,
    pub opcode: u32,
}

// Which message a frame is, by its opcode, or why it is none, in the paper's numbers.
#[tactic(auto, unfolding(crate::specs::Told::message_told, frame_reader_answer::specs::Told::tlv_told))]
pub fn tell(answer: Result<u8, NoMessage>) -> MessageTold
    ensures { result ≡ message_told answer }
{
    // by this name and no `From`: lemma `tell_one`, the edits and the pages cite it
    match answer {
        Ok(opcode) => MessageTold {
            refusal: 0,
            drop: 0,
            opcode: opcode as u32,
        },
        Err(NoMessage::PeriodCode) => MessageTold {
            refusal: 0,
            drop: 7,
            opcode: 0,
        },
        Err(NoMessage::Bad(b)) => {
            let bad = tell_reader(Err(b));
            MessageTold {
                refusal: bad.refusal,
                drop: bad.drop,
                opcode: 0,
            }
        }
    }
}
