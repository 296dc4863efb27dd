// The reader: asked for a TLV type, the value of the first such TLV as that part of the caller's frame.
// Nothing here knows of settings or state, and no function needs anything: each answers for any octets and any type. A bad frame's number
// is refusal 1, D1, D3, D4 or D5, whichever test fails first. An empty part alone does not say whether there is an empty value or none:
// `frame_reader::tlv_answer` does.
#![tactic(auto)]

ghost use Rattle.std.specs.Prelude.{◌≡◌};
ghost use Rattle.frame_reader_answer.specs.Told.{tlv_told};
ghost use Rattle.frame_reader.specs.Reader.{value_of, place_of, answer_of};
ghost use Rattle.frame_reader.specs.Numbers.{tlv_numbers};

use frame_reader_answer::Bad;
use frame_seek::seek_frame;

// The value of the first TLV of a type, as that part of the frame; empty, at the frame's start, where there is none or the
// frame is bad.
pub fn tlv_value(frame: &[u8], kind: u8) -> &[u8]
    ensures { (result.now ≡ value_of frame.now kind) × (result.ref_ptr ≡ place_of frame.entry.ref_ptr frame.now kind) }
{
    match seek_frame(frame, kind) {
        Ok(Some(value)) => &frame[value.start..value.start + value.len],
        Ok(None) => &frame[..0],
        Err(_) => &frame[..0],
    }
}

// Whether there is a value, even an empty one; the reason where the frame is bad.
pub fn tlv_answer(frame: &[u8], kind: u8) -> Result<bool, Bad>
    ensures { (result ≡ answer_of frame.now kind) × (tlv_told result ≡ tlv_numbers frame.now kind) }
{
    Ok(seek_frame(frame, kind)?.is_some())
}
