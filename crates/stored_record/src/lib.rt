// A stored record of any kind: its head tested, head and body written, and what writing one is answered.
// The head is two octets with the length of all that follows them and two with the kind; then comes the body (`stored_record.record_of`).
// Refusals of a write, in this order: 4, the values break a rule, as the caller says, or the body has more than 65,533 octets, which its
// two-octet length field, that counts the kind too, cannot express; 3, the buffer is shorter than the record. Neither changes the buffer;
// else the record is in the first octets, and every octet behind it is as it was. The head is tested and written here for every kind, so
// 4 before 3 is said once. No function needs anything.
#![tactic(auto)]

ghost use Rattle.std.specs.Prelude.{◌≡◌, ◌+◌, ◌≤◌, length};
ghost use Rattle.stored_record.specs.Writing.{record_told, write_record, record_numbers};
ghost use Rattle.base_laws.specs.Ended.{wrote};
ghost use Rattle.base_laws.specs.Lists.{laid};
ghost use Rattle.stored_record.specs.Record.{record_of, is_record};

use base_numbers::{read_little, write_little};
use base_octets::copy_octets;

// Why a record is not written. One that is written is in the buffer's first octets, and the answer says how many.
#[derive(Clone, Copy)]
pub enum RecordRefusal {
    // Refusal 4: what is to be written breaks a rule on its values.
    BreaksRule,
    // Refusal 3: the buffer is shorter than the record.
    NoRoom,
}

// An answer in the paper's numbers: the refusal, or 0, and the record's length. Numbers and no enum: C is given them.
#[repr(C)]
#[derive(Clone, Copy)]
pub struct RecordTold {
    pub refusal: u32,
    pub length: usize,
}

// An answer in the paper's numbers: the refusal, or the record's length.
#[tactic(auto, unfolding(crate::specs::Writing::record_told))]
pub fn tell(answer: Result<usize, RecordRefusal>) -> RecordTold
    ensures { result ≡ record_told answer }
{
    // by this name and no `From`: lemma `tell_one`, the edits and the pages cite it
    match answer {
        Err(RecordRefusal::BreaksRule) => RecordTold {
            refusal: 4,
            length: 0,
        },
        Err(RecordRefusal::NoRoom) => RecordTold {
            refusal: 3,
            length: 0,
        },
        Ok(n) => RecordTold {
            refusal: 0,
            length: n,
        },
    }
}

// The octets in front of a record's body.
pub const HEAD: usize = 4;

// The longest body whose length two octets can express.
const LONGEST: usize = 65533;

// Whether the octets begin with a whole record of this kind that has a body of so many octets. What is behind it is not looked at.
pub fn is_record(from: &[u8], kind: u16, body: usize) -> bool
    ensures { result ≡ is_record kind body from.now }
{
    if from.len() < HEAD {
        return false;
    }
    if from.len() - HEAD < body {
        return false;
    }
    (read_little(from, 0, 2) as usize == body + 2) & (read_little(from, 2, 2) == kind as u32)
}

// Writes the head and the body of a record that the buffer has room for.
fn put_record(into: &mut [u8], kind: u16, body: &[u8])
    requires { (4 + length body.now ≤ length into.old) × (length body.now ≤ 65533) }
    ensures { into.new ≡ laid 0 (record_of kind body.now) into.old }
{
    write_little(into, 0, 2, (body.len() + 2) as u32);
    write_little(into, 2, 2, kind as u32);
    copy_octets(into, HEAD, body);
}

// Writes a record of a kind into the front of the buffer. `good` says whether the values keep their rules. Values that break one are
// refused before the buffer's length is looked at, and so is a body that no record can hold.
pub fn write_record(
    into: &mut [u8],
    kind: u16,
    body: &[u8],
    good: bool,
) -> Result<usize, RecordRefusal>
    ensures { (wrote result into.new ≡ write_record good kind body.now into.old)
        × (record_told result ≡ record_numbers good body.now into.old) }
{
    if !good | (LONGEST < body.len()) {
        return Err(RecordRefusal::BreaksRule);
    }
    if into.len() < HEAD + body.len() {
        return Err(RecordRefusal::NoRoom);
    }
    put_record(into, kind, body);
    Ok(HEAD + body.len())
}
