// The loopback reply (LBR): the request with its source as destination, our address as source, and opcode 2. Needs nothing of its caller.
#![tactic(auto)]

ghost use Rattle.std.specs.Prelude.{◌≡◌};
ghost use Rattle.message_reply.specs.Replied.{replied_of, left_of, replied_told, replied_numbers};
ghost use Rattle.message_lbr.specs.Lbr.{lbr_octets};

use frame_head::HEAD_LENGTH;
use message_reply::{ReplyRefusal, write_reply};

// Where the fixed part of the request ends.
const LBM_FIXED: usize = HEAD_LENGTH + 8;

// Writes the reply to a loopback request: source as destination, our address as source, opcode 2.
pub fn write_lbr(into: &mut [u8], request: &[u8], own: [u8; 6]) -> Result<usize, ReplyRefusal>
    ensures value { (result ≡ replied_of 4 request.now (lbr_octets own request.now) into.old)
        × (replied_told result ≡ replied_numbers 4 request.now (lbr_octets own request.now) into.old) }
    ensures into_after { into.new ≡ left_of 4 request.now (lbr_octets own request.now) into.old }
{
    if request.len() < LBM_FIXED {
        return Err(ReplyRefusal::CutOff);
    }
    if into.len() < request.len() {
        return Err(ReplyRefusal::NoRoom);
    }
    write_reply(into, request, own, 2);
    Ok(request.len())
}
