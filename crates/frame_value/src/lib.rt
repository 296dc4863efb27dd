// What the value of a TLV holds: the octets of a data TLV, the zeros of a test TLV; the answer on it, and the same in the paper's numbers.
// The value is the part of the frame that the reader returns; nothing is copied, and nothing is needed of the caller. A test TLV without
// any octet has no pattern type, so it does not hold type 0.
#![tactic(auto)]

ghost use Rattle.std.specs.Prelude.{◌≡◌};
ghost use Rattle.frame_value.specs.Told.{value_told};
ghost use Rattle.frame_value.specs.Values.{zero_pattern, same_data, zero_test};
ghost use Rattle.frame_value.specs.Numbers.{same_numbers, zero_numbers};

use base_compare::same_octets;
use frame_reader::{tlv_answer, tlv_value};
use frame_reader_answer::{Bad, tell as tell_reader};

// An answer in the paper's numbers: those of the reader, and 1 where the value is what was asked for. Numbers and no enum:
// `frame_value.same_numbers` states them.
#[repr(C)]
#[derive(Clone, Copy)]
pub struct ValueTold {
    pub refusal: u32,
    pub drop: u32,
    pub value: u32,
    pub holds: u32,
}

// Whether a value is what was asked for, none where there is no such TLV, or why the frame cannot be read; in the paper's numbers.
#[tactic(auto, unfolding(crate::specs::Told::value_told, frame_reader_answer::specs::Told::tlv_told))]
pub fn tell(answer: Result<Option<bool>, Bad>) -> ValueTold
    ensures { result ≡ value_told answer }
{
    // by this name and no `From`: lemma `tell_one`, the edits and the pages cite it
    match answer {
        Ok(Some(true)) => ValueTold {
            refusal: 0,
            drop: 0,
            value: 1,
            holds: 1,
        },
        Ok(Some(false)) => ValueTold {
            refusal: 0,
            drop: 0,
            value: 1,
            holds: 0,
        },
        Ok(None) => ValueTold {
            refusal: 0,
            drop: 0,
            value: 0,
            holds: 0,
        },
        Err(b) => {
            let bad = tell_reader(Err(b));
            ValueTold {
                refusal: bad.refusal,
                drop: bad.drop,
                value: 0,
                holds: 0,
            }
        }
    }
}

// Whether a test TLV's value is pattern type 0, a null signal without check sequence, and zeros behind it.
fn zero_pattern(value: &[u8]) -> bool
    ensures { result ≡ zero_pattern value.now }
{
    !value.is_empty() && value.iter().all(|octet| *octet == 0)
}

// Whether the value of the frame's data TLV, type 3, is these octets, as many and in the same order; none where there is no such TLV, the
// reason where the frame is bad.
pub fn same_data(frame: &[u8], octets: &[u8]) -> Result<Option<bool>, Bad>
    ensures { (result ≡ same_data frame.now octets.now)
        × (value_told result ≡ same_numbers frame.now octets.now) }
{
    let same = same_octets(tlv_value(frame, 3), octets);
    Ok(tlv_answer(frame, 3)?.then_some(same))
}

// Whether the frame's test TLV, type 32, holds pattern type 0 and zeros only; none where there is no such TLV, the reason where the frame
// is bad.
pub fn all_zero_test(frame: &[u8]) -> Result<Option<bool>, Bad>
    ensures { (result ≡ zero_test frame.now) × (value_told result ≡ zero_numbers frame.now) }
{
    let zeros = zero_pattern(tlv_value(frame, 32));
    Ok(tlv_answer(frame, 32)?.then_some(zeros))
}
