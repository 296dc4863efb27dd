// What the three calls that send are answered, a tick, send LMM and send DMM, and the same in the paper's numbers.
// Apart from the calls, so that a wrong number is tried in a crate of three matches. One struct serves all three: the
// refusal and the length of what was written.
#![tactic(auto)]

ghost use Rattle.std.specs.Prelude.{◌≡◌};
ghost use Rattle.call_send_answer.specs.Told.{tick_told, lmm_told, dmm_told};
ghost use Rattle.call_send_answer.specs.declared.SendRefusal.TheVariants as Send;
ghost use Rattle.call_send_answer.specs.declared.DmmRefusal.TheVariants as Dmm;

use message_parts::parts::{WriteRefusal, WrittenTold};

// Why a tick does not pass, or an LMM is not sent.
#[derive(Clone, Copy)]
pub enum SendRefusal {
    // Refusal 2: the state is not well formed.
    NotWellFormed,
    // Refusal 3: the buffer is shorter than what is to be sent.
    NoRoom,
}

impl From<WriteRefusal> for SendRefusal {
    ghost from_gives = { λ _ refusal. refusal ≡ Send.NoRoom };

    fn from(_refusal: WriteRefusal) -> SendRefusal {
        SendRefusal::NoRoom
    }
}

// Why a DMM is not sent.
#[derive(Clone, Copy)]
pub enum DmmRefusal {
    // Refusal 2: the state is not well formed.
    NotWellFormed,
    // Refusal 6: the caller's stamp has too many nanoseconds.
    BadStamp,
    // Refusal 3: the buffer is shorter than the message.
    NoRoom,
}

impl From<WriteRefusal> for DmmRefusal {
    ghost from_gives = { λ _ refusal. refusal ≡ Dmm.NoRoom };

    fn from(_refusal: WriteRefusal) -> DmmRefusal {
        DmmRefusal::NoRoom
    }
}

// An answer to a tick in the paper's numbers: refused, passed with nothing to send, or passed with a CCM of so many octets in the buffer.
#[tactic(auto, unfolding(crate::specs::Told::tick_told))]
pub fn tell_tick(answer: Result<Option<usize>, SendRefusal>) -> WrittenTold
    ensures { result ≡ tick_told answer }
{
    // by this name and no `From`: lemma `tell_tick_one`, the edits and the pages cite it
    match answer {
        Err(SendRefusal::NotWellFormed) => WrittenTold {
            refusal: 2,
            length: 0,
        },
        Err(SendRefusal::NoRoom) => WrittenTold {
            refusal: 3,
            length: 0,
        },
        Ok(None) => WrittenTold {
            refusal: 0,
            length: 0,
        },
        Ok(Some(n)) => WrittenTold {
            refusal: 0,
            length: n,
        },
    }
}

// An answer about an LMM in the paper's numbers: refused, or so many octets in the buffer.
#[tactic(auto, unfolding(crate::specs::Told::lmm_told))]
pub fn tell_lmm(answer: Result<usize, SendRefusal>) -> WrittenTold
    ensures { result ≡ lmm_told answer }
{
    // by this name and no `From`: lemma `tell_lmm_one`, the edits and the pages cite it
    match answer {
        Err(SendRefusal::NotWellFormed) => WrittenTold {
            refusal: 2,
            length: 0,
        },
        Err(SendRefusal::NoRoom) => WrittenTold {
            refusal: 3,
            length: 0,
        },
        Ok(n) => WrittenTold {
            refusal: 0,
            length: n,
        },
    }
}

// An answer about a DMM in the paper's numbers: refused, or so many octets in the buffer.
#[tactic(auto, unfolding(crate::specs::Told::dmm_told))]
pub fn tell_dmm(answer: Result<usize, DmmRefusal>) -> WrittenTold
    ensures { result ≡ dmm_told answer }
{
    // by this name and no `From`: lemma `tell_dmm_one`, the edits and the pages cite it
    match answer {
        Err(DmmRefusal::NotWellFormed) => WrittenTold {
            refusal: 2,
            length: 0,
        },
        Err(DmmRefusal::BadStamp) => WrittenTold {
            refusal: 6,
            length: 0,
        },
        Err(DmmRefusal::NoRoom) => WrittenTold {
            refusal: 3,
            length: 0,
        },
        Ok(n) => WrittenTold {
            refusal: 0,
            length: n,
        },
    }
}
