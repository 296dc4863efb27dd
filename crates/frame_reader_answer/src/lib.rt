// What the reader answers, and why it cannot read a frame; both in the paper's numbers.
// A bad frame's number is refusal 1, D1, D3, D4 or D5. Two matches, apart from the tests of a frame.
#![tactic(auto)]

ghost use Rattle.std.specs.Prelude.{◌≡◌};
ghost use Rattle.frame_reader_answer.specs.Told.{bad_of, tlv_told};

// Why a frame cannot be read.
#[derive(Clone, Copy)]
pub enum Bad {
    // Refusal 1: not from 14 to 1,514 octets.
    Length,
    // D1: an OAM frame shorter than 18.
    Short,
    // D3: a service frame, or an opcode that is not in the table.
    Opcode,
    // D4: a TLV offset below the opcode's.
    Offset,
    // D5: the fixed part, a TLV or the End TLV missing.
    CutOff,
}

// An answer in the paper's numbers: the refusal, or 0; the drop, or 0; and 1 where there is a value. Numbers and no enum:
// `frame_reader.tlv_numbers` states them, and C is given them.
#[repr(C)]
#[derive(Clone, Copy)]
pub struct TlvTold {
    pub refusal: u32,
    pub drop: u32,
    pub value: u32,
}

// A reason in the paper's numbers.
fn tell_bad(b: Bad) -> TlvTold
    ensures { result ≡ bad_of b }
{
    // no `From`: `tell` alone calls it
    match b {
        Bad::Length => TlvTold {
            refusal: 1,
            drop: 0,
            value: 0,
        },
        Bad::Short => TlvTold {
            refusal: 0,
            drop: 1,
            value: 0,
        },
        Bad::Opcode => TlvTold {
            refusal: 0,
            drop: 3,
            value: 0,
        },
        Bad::Offset => TlvTold {
            refusal: 0,
            drop: 4,
            value: 0,
        },
        Bad::CutOff => TlvTold {
            refusal: 0,
            drop: 5,
            value: 0,
        },
    }
}

// What the call beside the reader answers, whether there is a value or why the frame cannot be read, in the paper's numbers.
#[tactic(auto, unfolding(crate::specs::Told::tlv_told))]
pub fn tell(a: Result<bool, Bad>) -> TlvTold
    ensures { result ≡ tlv_told a }
{
    // by this name and no `From`: lemma `tell_one`, the edits and the pages cite it
    match a {
        Ok(true) => TlvTold {
            refusal: 0,
            drop: 0,
            value: 1,
        },
        Ok(false) => TlvTold {
            refusal: 0,
            drop: 0,
            value: 0,
        },
        Err(b) => tell_bad(b),
    }
}
