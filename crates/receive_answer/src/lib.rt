// What a frame is answered: a case for each line of the paper's tables, and the same in the paper's numbers.
// What was done has a number of ours, 1 to 7, beside the paper's refusals, drops and values: these alone do not distinguish a frame that
// passes from one that is taken in, nor a first reading from an interval without loss.
#![tactic(auto)]

ghost use Rattle.std.specs.Prelude.{◌≡◌};
ghost use Rattle.receive_answer.specs.Told.{drop_of, absent, tell_frame, frame_told};

// Why a frame is dropped, by the paper's number.
#[derive(Clone, Copy)]
pub enum Drop {
    // D1: an OAM frame shorter than 18.
    Short = 1,
    // D2: its level.
    Level = 2,
    // D3: an opcode that is not handled.
    Opcode = 3,
    // D4: a TLV offset below the opcode's.
    Offset = 4,
    // D5: the fixed part, a TLV or the End TLV missing.
    CutOff = 5,
    // D6: it is not for us.
    Destination = 6,
    // D7: a field's value.
    Value = 7,
    // D8: a delay that a signed 64-bit number cannot hold. Never given.
    TooLarge = 8,
}

// Why a call with a frame is refused.
#[derive(Clone, Copy)]
pub enum FrameRefusal {
    // Refusal 2: the state is not well formed.
    NotWellFormed,
    // Refusal 1: not from 14 to 1,514 octets.
    BadLength,
    // Refusal 6: a stamp of the caller has too many nanoseconds.
    BadStamp,
    // Refusal 3: the buffer is shorter than the reply.
    NoRoom,
    // Refusal 5: a good loss reply would start interval 1,000,000,001.
    Full,
}

// What was done with a frame. A drop is no refusal: the call is answered.
#[derive(Clone, Copy)]
pub enum FrameDone {
    Dropped(Drop),
    Passed,
    // A CCM, AIS or LCK, taken in.
    Taken,
    // A reply of so many octets is in the buffer.
    Replied(usize),
    // A loss reply that is the first after a clear: it is only kept.
    First,
    // The losses of the interval that a loss reply ends.
    Measured { near: i64, far: i64 },
    // The delay of a delay reply without a pair of middle stamps.
    TwoWay { twoway: i64 },
    // The three delays of one with both.
    AllWays { twoway: i64, far: i64, near: i64 },
}

// An answer in the paper's numbers: the refusal, or 0; the drop, or 0; what was done (below), or 0 beside a refusal or a drop; the
// reply's length; near and far loss; two-way delay, one-way far and one-way near. What is not formed is 0. Numbers and
// no enum: C is given them.
#[repr(C)]
#[derive(Clone, Copy)]
pub struct FrameTold {
    pub refusal: u32,
    pub drop: u32,
    pub done: u32,
    pub length: usize,
    pub near: i64,
    pub far: i64,
    pub twoway: i64,
    pub onewayfar: i64,
    pub onewaynear: i64,
}

// What was done, in numbers of our own: the frame passes, is taken in, is answered, is kept as a first reading, gives losses, a two-way
// delay, or all three delays. So a caller can tell a first reading from an interval without loss.
pub const PASSED: u32 = 1;

pub const TAKEN: u32 = 2;

pub const REPLIED: u32 = 3;

pub const FIRST: u32 = 4;

pub const LOSS: u32 = 5;

pub const TWO_WAY: u32 = 6;

pub const ALL_WAYS: u32 = 7;

// A drop's number.
#[tactic(auto, unfolding(crate::specs::Told::drop_of))]
fn number_of(drop: Drop) -> u32
    ensures { result ≡ drop_of drop }
{
    drop as u32
}

// The numbers of an answer without a loss or a delay.
fn plain(refusal: u32, drop: u32, done: u32, length: usize) -> FrameTold
    ensures { result ≡ tell_frame refusal drop done length absent absent absent absent absent }
{
    FrameTold {
        refusal,
        drop,
        done,
        length,
        near: 0,
        far: 0,
        twoway: 0,
        onewayfar: 0,
        onewaynear: 0,
    }
}

// The numbers of an answer with losses.
fn lost(near: i64, far: i64) -> FrameTold
    ensures { result ≡ tell_frame 0 0 5 0 near far absent absent absent }
{
    FrameTold {
        refusal: 0,
        drop: 0,
        done: LOSS,
        length: 0,
        near,
        far,
        twoway: 0,
        onewayfar: 0,
        onewaynear: 0,
    }
}

// The numbers of an answer with delays.
fn delayed(done: u32, twoway: i64, far: i64, near: i64) -> FrameTold
    ensures { result ≡ tell_frame 0 0 done 0 absent absent twoway far near }
{
    FrameTold {
        refusal: 0,
        drop: 0,
        done,
        length: 0,
        near: 0,
        far: 0,
        twoway,
        onewayfar: far,
        onewaynear: near,
    }
}

// An answer in the paper's numbers: refusal, drop, what was done, length, near and far loss, two-way delay, one-way far and near.
#[tactic(auto, unfolding(crate::specs::Told::frame_told))]
pub fn tell(answer: Result<FrameDone, FrameRefusal>) -> FrameTold
    ensures { result ≡ frame_told answer }
{
    // by this name and no `From`: lemma `tell_one`, the edits and the pages cite it
    match answer {
        Err(FrameRefusal::NotWellFormed) => plain(2, 0, 0, 0),
        Err(FrameRefusal::BadLength) => plain(1, 0, 0, 0),
        Err(FrameRefusal::BadStamp) => plain(6, 0, 0, 0),
        Err(FrameRefusal::NoRoom) => plain(3, 0, 0, 0),
        Err(FrameRefusal::Full) => plain(5, 0, 0, 0),
        Ok(FrameDone::Dropped(drop)) => plain(0, number_of(drop), 0, 0),
        Ok(FrameDone::Passed) => plain(0, 0, PASSED, 0),
        Ok(FrameDone::Taken) => plain(0, 0, TAKEN, 0),
        Ok(FrameDone::Replied(length)) => plain(0, 0, REPLIED, length),
        Ok(FrameDone::First) => plain(0, 0, FIRST, 0),
        Ok(FrameDone::Measured { near, far }) => lost(near, far),
        Ok(FrameDone::TwoWay { twoway }) => delayed(TWO_WAY, twoway, 0, 0),
        Ok(FrameDone::AllWays { twoway, far, near }) => delayed(ALL_WAYS, twoway, far, near),
    }
}
