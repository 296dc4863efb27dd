// The text of a chunk of records, written into a buffer: a line for each loss record, and the refusal at a bad one.
#![tactic(auto)]

ghost use Rattle.std.specs.Prelude.{◌≡◌, ◌+◌, ◌-◌, ◌≤◌, length, set};
ghost use Rattle.base_laws.specs.Ended.{wrote};
ghost use Rattle.base_laws.specs.Lists.{laid};
ghost use Rattle.base_number_text.specs.Before.{put_before, beginning};
ghost use Rattle.stored_line.specs.LineCalls.{read_line};
ghost use Rattle.stored_sheet.specs.Sheet.{line_text, answer_text, longest_line};
ghost use Rattle.stored_sheet_lines.specs.Chunk.{reached, write_lines};

use base_number_write::put_before;
use base_octets::copy_octets;
use stored_line::{LINE, LossLine};
use stored_line_calls::read_line;

// No line is longer: three numbers of at most 20 octets, each with one octet behind it. The definitions have theirs, `longest_line`.
pub const LONGEST: usize = 63;

// Why no text is written.
#[derive(Clone, Copy)]
pub enum SheetRefusal {
    // The buffer may be too short for it, and nothing was read.
    NoRoom,
}

// What is written where there is room.
#[derive(Clone, Copy)]
pub enum Printed {
    // The text of all the records, so many octets.
    All(usize),
    // The text up to a bad record and the refusal behind it, so many octets. Nothing more is to be printed.
    Stopped(usize),
}

// Writes a number and one octet behind it so that they end before a place of a line, and answers where they begin.
fn put_number(text: &mut [u8], end: usize, value: i64, mark: u8) -> usize
    requires { (21 ≤ end) × (end ≤ length text.old) }
    ensures { (text.new ≡ put_before (end - 1) value (set text.old (end - 1) mark))
        × (result ≡ beginning (end - 1) value (set text.old (end - 1) mark)) }
{
    text[end - 1] = mark;
    put_before(text, end - 1, value)
}

// Writes a line at a place, and answers the place behind it. It is made from its end to its front, since only then the place of each number
// is known without counting its digits, and then copied whole.
fn put_line(into: &mut [u8], at: usize, line: LossLine) -> usize
    requires { at + longest_line ≤ length into.old }
    ensures { (into.new ≡ laid at (line_text line) into.old)
        × (result ≡ at + length (line_text line))
        × (result ≤ at + longest_line) }
{
    let mut text = [0u8; LONGEST];
    let far = put_number(&mut text, LONGEST, line.far, b'\n');
    let near = put_number(&mut text, far, line.near, b' ');
    let front = put_number(&mut text, near, line.intervals as i64, b' ');
    copy_octets(into, at, &text[front..]);
    at + (LONGEST - front)
}

// Writes the text of the record at the front of the octets at a place, and answers the place behind it: behind its line, or of a bad record
// as an error behind the refusal.
fn put_next(into: &mut [u8], at: usize, from: &[u8]) -> Result<usize, usize>
    requires { at + longest_line ≤ length into.old }
    ensures { (into.new ≡ laid at (answer_text (read_line from.now)) into.old)
        × (result ≡ reached at (read_line from.now)) }
{
    match read_line(from) {
        None => {
            copy_octets(into, at, b"refused 7\n");
            Err(at + 10)
        }
        Some(line) => Ok(put_line(into, at, line)),
    }
}

// Writes the text of a chunk of records into the front of the buffer: as far as the first bad one, if there is one. It needs room for three
// octets for each octet read and one line more, which is always enough, so that the text need not be measured first.
pub fn write_lines(into: &mut [u8], from: &[u8]) -> Result<Printed, SheetRefusal>
    ensures { wrote result into.new ≡ write_lines from.now into.old }
{
    if into.len() < LONGEST {
        return Err(SheetRefusal::NoRoom);
    }
    if (into.len() - LONGEST) / 3 < from.len() {
        return Err(SheetRefusal::NoRoom);
    }
    let mut at: usize = 0;
    for record in from.chunks(LINE) {
        match put_next(into, at, record) {
            Ok(behind) => at = behind,
            Err(behind) => return Ok(Printed::Stopped(behind)),
        }
    }
    Ok(Printed::All(at))
}
