// The delay reply (DMR): the reply with opcode 46 and the two stamps, given or not. Needs nothing of its caller.
#![tactic(auto)]

ghost use Rattle.std.specs.Prelude.{◌≡◌};
ghost use Rattle.message_reply.specs.Replied.{replied_of, left_of, replied_told, replied_numbers};
ghost use Rattle.message_dmr.specs.Dmr.{dmr_octets};

use base_stamp::Stamp;
use frame_head::HEAD_LENGTH;
use message_parts::parts::write_stamp;
use message_reply::{ReplyRefusal, write_reply};

// Places in a frame: RxTimeStampf and TxTimeStampb.
const RX_STAMP: usize = HEAD_LENGTH + 12;

const TX_STAMP: usize = HEAD_LENGTH + 20;

// Where the fixed part of the request ends.
const DMM_FIXED: usize = HEAD_LENGTH + 36;

// Writes the reply to a delay request, opcode 46: the receive stamp in RxTimeStampf, the transmit stamp in TxTimeStampb, given or not.
pub fn write_dmr(
    into: &mut [u8],
    request: &[u8],
    own: [u8; 6],
    receive: Stamp,
    transmit: Stamp,
) -> Result<usize, ReplyRefusal>
    ensures value { (result ≡ replied_of 32 request.now (dmr_octets own receive transmit request.now) into.old)
        × (replied_told result ≡ replied_numbers 32 request.now (dmr_octets own receive transmit request.now) into.old) }
    ensures into_after { into.new ≡
        left_of 32 request.now (dmr_octets own receive transmit request.now) into.old }
{
    if request.len() < DMM_FIXED {
        return Err(ReplyRefusal::CutOff);
    }
    if into.len() < request.len() {
        return Err(ReplyRefusal::NoRoom);
    }
    write_reply(into, request, own, 46);
    write_stamp(into, RX_STAMP, receive);
    write_stamp(into, TX_STAMP, transmit);
    Ok(request.len())
}
