// A frame's head: its length and EtherType, its two addresses, where its PDU is, and the PDU's level and version.
// Each function answers for any octets. Nothing here knows of messages, settings or state. Every place behind the head is a place of the
// PDU: `HEAD_LENGTH`, the 14 octets before it, is in this file alone, and `frame_head.head_length` in one file of the definitions.
#![tactic(auto)]

ghost use Rattle.std.specs.Prelude.{◌≡◌};
ghost use Rattle.frame_head.specs.Head.{head_length, length_good, oam_frame, destination_of, source_of, pdu_of, place_or_start, level_of, version_of};
ghost use Rattle.frame_head.specs.Addresses.{in_head};

use base_bits::{level_of, version_of};
use base_numbers::read_big;

// The octets before the PDU: destination 6, source 6, EtherType 2.
pub const HEAD_LENGTH: usize = 14;

// The longest frame, without its check sequence.
pub const LONGEST: usize = 1514;

// Whether a frame has from 14 to 1,514 octets.
pub fn length_good(frame: &[u8]) -> bool
    ensures { result ≡ length_good frame.now }
{
    (HEAD_LENGTH <= frame.len()) & (frame.len() <= LONGEST)
}

// Whether a frame is an OAM frame, by its EtherType; what is shorter than a head is none.
pub fn is_oam(frame: &[u8]) -> bool
    ensures { result ≡ oam_frame frame.now }
{
    if frame.len() < HEAD_LENGTH {
        return false;
    }
    read_big(frame, 12, 2) == 0x8902
}

// The destination, as that part of the frame; empty, at the frame's start, where the frame is shorter than its head.
pub fn destination(frame: &[u8]) -> &[u8]
    ensures { (result.now ≡ in_head (destination_of frame.now) frame.now)
        × (result.ref_ptr ≡ place_or_start 0 frame.entry.ref_ptr frame.now) }
{
    if frame.len() < HEAD_LENGTH {
        return &frame[..0];
    }
    &frame[0..6]
}

// The source, as that part of the frame; empty, at the frame's start, where the frame is shorter than its head.
pub fn source(frame: &[u8]) -> &[u8]
    ensures { (result.now ≡ in_head (source_of frame.now) frame.now)
        × (result.ref_ptr ≡ place_or_start 6 frame.entry.ref_ptr frame.now) }
{
    if frame.len() < HEAD_LENGTH {
        return &frame[..0];
    }
    &frame[6..12]
}

// The PDU, the octets behind the head, as that part of the frame; empty, at the frame's start, where the frame ends before them.
pub fn pdu_of(frame: &[u8]) -> &[u8]
    ensures { (result.now ≡ pdu_of frame.now) × (result.ref_ptr ≡ place_or_start head_length frame.entry.ref_ptr frame.now) }
{
    if frame.len() < HEAD_LENGTH {
        return &frame[..0];
    }
    &frame[HEAD_LENGTH..]
}

// The level, in the first octet of the PDU; 0 where there is no PDU.
pub fn level(frame: &[u8]) -> u32
    ensures { result ≡ level_of (pdu_of frame.now) }
{
    let pdu = pdu_of(frame);
    if pdu.len() == 0 {
        return 0;
    }
    level_of(pdu[0])
}

// The version, in the same octet; 0 where there is no PDU.
pub fn version(frame: &[u8]) -> u32
    ensures { result ≡ version_of (pdu_of frame.now) }
{
    let pdu = pdu_of(frame);
    if pdu.len() == 0 {
        return 0;
    }
    version_of(pdu[0])
}
