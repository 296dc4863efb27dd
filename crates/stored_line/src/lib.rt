// What a stored loss line is, kind 2, and what reading and writing one give, in cases and in the paper's numbers.
// It holds the two totals of a session and the intervals that they cover.
#![tactic(auto)]

ghost use Rattle.std.specs.Prelude.{◌≡◌};
ghost use Rattle.stored_line.specs.LineCalls.{line_told};

// The octets of the whole record.
pub const LINE: usize = 24;

// A loss line.
#[repr(C)]
#[derive(Clone, Copy)]
pub struct LossLine {
    pub near: i64,
    pub far: i64,
    pub intervals: u32,
}

// An answer in the paper's numbers: the refusal, or 0, and the line's values. Numbers and no enum: C is given them.
#[repr(C)]
#[derive(Clone, Copy)]
pub struct LineTold {
    pub refusal: u32,
    pub intervals: u32,
    pub near: i64,
    pub far: i64,
}

// A line that was read, or none, refusal 7, in the paper's numbers.
#[tactic(auto, unfolding(crate::specs::LineCalls::line_told))]
pub fn tell(answer: Option<LossLine>) -> LineTold
    ensures { result ≡ line_told answer }
{
    // by this name and no `From`: lemma `tell_one`, the edits and the pages cite it
    match answer {
        None => LineTold {
            refusal: 7,
            intervals: 0,
            near: 0,
            far: 0,
        },
        Some(line) => LineTold {
            refusal: 0,
            intervals: line.intervals,
            near: line.near,
            far: line.far,
        },
    }
}
