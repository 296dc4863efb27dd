// The boundary to C: the reader of TLVs, answered in the paper's numbers.
// It is for firmware in C or Rust: linkbox_c exports it, and linkbox.h declares it. It calls the Rattle function of the same call and
// returns its answer in numbers. Any content of the memory is accepted.
#![tactic(auto)]

ghost use Rattle.std.specs.Prelude.{◌≡◌};
ghost use Rattle.frame_reader_answer.specs.Told.{tlv_told};
ghost use Rattle.frame_seek.specs.Seek.{seek_of};
ghost use Rattle.linkbox_reader.specs.Tlvs.{tlv_at};

use frame_reader_answer::Bad;
use frame_seek::seek_frame;

// A TLV in the paper's numbers: the refusal, or 0; the drop, or 0; 1 where there is a value; and where in the frame it is. Numbers and no
// enum: C is given them.
#[repr(C)]
#[derive(Clone, Copy)]
pub struct TlvAt {
    pub refusal: u32,
    pub drop: u32,
    pub value: u32,
    pub start: usize,
    pub length: usize,
}

// An answer of the reader's beside a place and a length.
fn placed(answer: Result<bool, Bad>, start: usize, length: usize) -> TlvAt
    ensures { result ≡
        record { refusal = (tlv_told answer).refusal; drop = (tlv_told answer).drop; value = (tlv_told answer).value; start = start; length = length } }
{
    let told = frame_reader_answer::tell(answer);
    TlvAt {
        refusal: told.refusal,
        drop: told.drop,
        value: told.value,
        start,
        length,
    }
}

// The first TLV of a type in a frame: whether there is a value, where in the frame it is and how long it is, 0 and 0 where there is none.
pub fn linkbox_tlv(frame: &[u8], kind: u8) -> TlvAt
    ensures { result ≡ tlv_at (seek_of frame.now kind) }
{
    match seek_frame(frame, kind) {
        Ok(Some(value)) => placed(Ok(true), value.start, value.len),
        Ok(None) => placed(Ok(false), 0, 0),
        Err(b) => placed(Err(b), 0, 0),
    }
}
