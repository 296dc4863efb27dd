// The search for a TLV, and D5: where the value of the first one of a type is, or why it cannot be read; in a PDU, and in a frame.
// A cut behind the wanted TLV is D5 too, so the walk goes to the end: from the wanted TLV on it is the same loop, for type 0, which stops
// at nothing but the end or a cut. No function needs anything.
#![tactic(auto)]

ghost use Rattle.std.specs.Prelude.{◌≡◌};
ghost use Rattle.frame_seek.specs.Seek.{seek_in, seek_of, Within};

use frame_head::{HEAD_LENGTH, is_oam, length_good, pdu_of};
use frame_judge::judge_pdu;
use frame_reader_answer::Bad;
use frame_tlvs::{Place, tlvs_whole, walk};

// Where a value is: its first octet's place, and how many octets it has.
#[derive(Clone, Copy)]
pub struct Span {
    pub start: usize,
    pub len: usize,
}

// Where in a PDU the value of the first TLV of a type is; none where there is no such TLV, or the reason that it cannot be read. Each TLV
// is passed once.
pub fn seek_pdu(pdu: &[u8], kind: u8) -> Result<Option<Span>, Bad>
    ensures { (result ≡ seek_in pdu.now kind) × Within pdu.now result }
{
    let start = judge_pdu(pdu)?;
    match walk(pdu, kind, start) {
        Place::Cut(_) => Err(Bad::CutOff),
        Place::End(_) => Ok(None),
        Place::Found { start: at, len } => {
            if !tlvs_whole(pdu, at + len) {
                return Err(Bad::CutOff);
            }
            Ok(Some(Span { start: at, len }))
        }
    }
}

// The first TLV of a type in a frame: refusal 1, D3 for a service frame, or what its PDU gives, by its place in the frame, for a caller
// who cannot be given a part.
pub fn seek_frame(frame: &[u8], kind: u8) -> Result<Option<Span>, Bad>
    ensures { (result ≡ seek_of frame.now kind) × Within frame.now result }
{
    if !length_good(frame) {
        return Err(Bad::Length);
    }
    if !is_oam(frame) {
        return Err(Bad::Opcode);
    }
    match seek_pdu(pdu_of(frame), kind)? {
        Some(value) => Ok(Some(Span {
            start: HEAD_LENGTH + value.start,
            len: value.len,
        })),
        None => Ok(None),
    }
}
