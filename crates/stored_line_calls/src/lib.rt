// The stored record of a loss line, read and written.
#![tactic(auto)]

ghost use Rattle.std.specs.Prelude.{◌≡◌, ◌≤◌, length};
ghost use Rattle.base_laws.specs.Ended.{wrote};
ghost use Rattle.stored_record.specs.Writing as written;
ghost use Rattle.stored_line.specs.Line.{keeps_rules, line_in};
ghost use Rattle.stored_line.specs.LineCalls.{read_line, write_line, line_written_numbers, line_told, line_numbers};

use base_numbers::{read_little, write_little};
use base_signed::{read_little_signed, write_little_signed};
use loss_session::{LossSession, Readings, well_formed};
use stored_line::LossLine;
use stored_record::{RecordRefusal, is_record, write_record};

// The record's kind, and the octets of its body.
const KIND: u16 = 2;

const BODY: usize = 20;

// Where the values are in the record, behind its head.
const NEAR: usize = 4;

const FAR: usize = 12;

const INTERVALS: usize = 20;

// Whether the line keeps the rules on intervals and totals: those of a session that has them.
fn keeps_rules(line: LossLine) -> bool
    ensures { result ≡ keeps_rules line }
{
    well_formed(LossSession {
        kept: 1,
        intervals: line.intervals,
        last: Readings::default(),
        near: line.near,
        far: line.far,
    })
}

// The line in the octets of a record.
fn line_in(from: &[u8]) -> LossLine
    requires { 24 ≤ length from.now }
    ensures { result ≡ line_in from.now }
{
    LossLine {
        near: read_little_signed(from, NEAR),
        far: read_little_signed(from, FAR),
        intervals: read_little(from, INTERVALS, 4),
    }
}

// Reads the loss line at the front of the octets; none, refusal 7, where there is no whole record of kind 2 or its values break a rule.
// What is behind its record is not looked at.
pub fn read_line(from: &[u8]) -> Option<LossLine>
    ensures { (result ≡ read_line from.now) × (line_told result ≡ line_numbers from.now) }
{
    if !is_record(from, KIND, BODY) {
        return None;
    }
    let line = line_in(from);
    if !keeps_rules(line) {
        return None;
    }
    Some(line)
}

// Writes a loss line's record into the front of the buffer: refused with 4 where it breaks a rule, and then with 3 where there is no room.
pub fn write_line(into: &mut [u8], line: LossLine) -> Result<usize, RecordRefusal>
    ensures { (wrote result into.new ≡ write_line line into.old)
        × (written.record_told result ≡ line_written_numbers line into.old) }
{
    let mut body = [0u8; BODY];
    write_little_signed(&mut body, 0, line.near);
    write_little_signed(&mut body, 8, line.far);
    write_little(&mut body, 16, 4, line.intervals);
    write_record(into, KIND, &body, keeps_rules(line))
}
