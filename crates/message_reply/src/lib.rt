// What the replies share: the request with other addresses and another opcode, and what writing a reply is answered.
// D5 where the request ends before its fixed part does, then refusal 3 where the buffer is shorter than the reply, and nothing changes by
// either; else the reply is in the first octets, and every octet behind it is as it was (`message_reply.replied_of`,
// `message_reply.left_of`, in numbers `message_reply.replied_numbers`). A reply is the request copied whole with what differs laid over it,
// so it is as long as the request and keeps its padding. Twelve octets are written twice; in return the definition says "all other octets
// are kept" by its form. A reply is made of what is given and of no state. Nothing is needed of the caller: that a good request never
// gets this D5 is a theorem. The writers take our address by value, six octets, so that its type has the length.
#![tactic(auto)]

ghost use Rattle.std.specs.Prelude.{◌≡◌, ◌+◌, ◌≤◌, length};
ghost use Rattle.base_laws.specs.Lists.{part, laid};
ghost use Rattle.message_reply.specs.Replies.{reply_into};

use base_octets::copy_octets;
use frame_head::HEAD_LENGTH;

// The opcode's place in a frame.
const OPCODE: usize = HEAD_LENGTH + 1;

// Where the PDU's first four octets end, the opcode among them.
const PDU_HEAD_END: usize = HEAD_LENGTH + 4;

// Why a reply is not written. One that is written is in the buffer's first octets, and the answer says how many.
#[derive(Clone, Copy)]
pub enum ReplyRefusal {
    // D5: the request ends before its fixed part does. Never given to a frame that was judged before.
    CutOff,
    // Refusal 3: the buffer is shorter than the reply.
    NoRoom,
}

// The octets that are copied at a time. No request is shorter, since all have the PDU's first four octets.
const BLOCK: usize = 16;

// Copies the block at a place, by way of an array: one load and one store; a direct copy would first test whether the two overlap.
fn copy_block(into: &mut [u8], from: &[u8], at: usize)
    requires { (at + 16 ≤ length into.old) × (at + 16 ≤ length from.now) }
    ensures { into.new ≡ laid at (part at 16 from.now) into.old }
{
    let mut block = [0u8; BLOCK];
    copy_octets(&mut block, 0, &from[at..at + BLOCK]);
    copy_octets(into, at, &block);
}

// Copies the request to the buffer's front, block by block; the last one ends with the request, and may overlap the one before it.
fn copy_request(into: &mut [u8], request: &[u8])
    requires { (16 ≤ length request.now) × (length request.now ≤ length into.old) }
    ensures { into.new ≡ laid 0 request.now into.old }
{
    let last = request.len() - BLOCK;
    for at in (0..last).step_by(BLOCK) {
        copy_block(into, request, at);
    }
    copy_block(into, request, last);
}

// Writes the request with its source as destination, our address as source, and another opcode. Where the request has no opcode, or the
// buffer no room for it, the buffer stays as it was: the writers of replies have refused both before.
pub fn write_reply(into: &mut [u8], request: &[u8], own: [u8; 6], opcode: u8)
    ensures { into.new ≡ reply_into own opcode request.now into.old }
{
    if request.len() < PDU_HEAD_END {
        return;
    }
    if into.len() < request.len() {
        return;
    }
    copy_request(into, request);
    copy_octets(into, 0, &request[6..12]);
    copy_octets(into, 6, &own);
    into[OPCODE] = opcode;
}
