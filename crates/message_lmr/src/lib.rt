// The loss reply (LMR): the reply with opcode 42, our received count in RxFCf, our sent count in TxFCb. Needs nothing of its caller.
#![tactic(auto)]

ghost use Rattle.std.specs.Prelude.{◌≡◌};
ghost use Rattle.message_reply.specs.Replied.{replied_of, left_of, replied_told, replied_numbers};
ghost use Rattle.message_lmr.specs.Lmr.{lmr_octets};

use base_numbers::write_big;
use frame_head::HEAD_LENGTH;
use message_reply::{ReplyRefusal, write_reply};

// Places in a frame: RxFCf and TxFCb.
const RX_FCF: usize = HEAD_LENGTH + 8;

const TX_FCB: usize = HEAD_LENGTH + 12;

// Where the fixed part of the request ends.
const LMM_FIXED: usize = HEAD_LENGTH + 16;

// Writes the reply to a loss request, opcode 42: our received count in RxFCf, our sent count in TxFCb.
pub fn write_lmr(
    into: &mut [u8],
    request: &[u8],
    own: [u8; 6],
    received: u32,
    sent: u32,
) -> Result<usize, ReplyRefusal>
    ensures value { (result ≡ replied_of 12 request.now (lmr_octets own received sent request.now) into.old)
        × (replied_told result ≡ replied_numbers 12 request.now (lmr_octets own received sent request.now) into.old) }
    ensures into_after { into.new ≡
        left_of 12 request.now (lmr_octets own received sent request.now) into.old }
{
    if request.len() < LMM_FIXED {
        return Err(ReplyRefusal::CutOff);
    }
    if into.len() < request.len() {
        return Err(ReplyRefusal::NoRoom);
    }
    write_reply(into, request, own, 42);
    write_big(into, RX_FCF, 4, received);
    write_big(into, TX_FCB, 4, sent);
    Ok(request.len())
}
