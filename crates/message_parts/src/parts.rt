// What messages share: what writing one is answered, a stamp, the head of a frame.
ghost use Rattle.std.specs.Prelude.{◌≡◌, ◌+◌, ◌≤◌, length};
ghost use Rattle.base_laws.specs.Lists.{laid};
ghost use Rattle.frame_head.specs.Head.{behind_head};
ghost use Rattle.message_parts.specs.Messages.{stamp_octets, after_destination};

use base_numbers::write_big;
use base_octets::copy_octets;
use base_stamp::Stamp;
use frame_head::HEAD_LENGTH;

// Why a message is not written. One that is written is in the buffer's first octets, and the answer says how many.
#[derive(Clone, Copy)]
pub enum WriteRefusal {
    // Refusal 3: the buffer is shorter than the message.
    NoRoom,
}

// An answer in the paper's numbers: the refusal, or 0, and the message's length. Numbers and no enum: C is given them.
#[repr(C)]
#[derive(Clone, Copy)]
pub struct WrittenTold {
    pub refusal: u32,
    pub length: usize,
}

// Writes a stamp into the eight octets at a place: seconds, then nanoseconds.
pub fn write_stamp(into: &mut [u8], at: usize, stamp: Stamp)
    requires { at + 8 ≤ length into.old }
    ensures { into.new ≡ laid at (stamp_octets stamp) into.old }
{
    write_big(into, at, 4, stamp.seconds);
    write_big(into, at + 4, 4, stamp.nanoseconds);
}

// Writes what is between the destination and the fixed part: source, 89-02, and the PDU's first four octets.
pub fn write_head(into: &mut [u8], source: &[u8], first: u8, opcode: u8, flags: u8, offset: u8)
    requires { (behind_head 4 ≤ length into.old) × (length source.now ≡ 6) }
    ensures { into.new ≡ laid 6 (after_destination source.now first opcode flags offset) into.old }
{
    copy_octets(into, 6, source);
    write_big(into, 12, 2, 0x8902);
    into[HEAD_LENGTH] = first;
    into[HEAD_LENGTH + 1] = opcode;
    into[HEAD_LENGTH + 2] = flags;
    into[HEAD_LENGTH + 3] = offset;
}
