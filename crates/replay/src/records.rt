// The calls that take no state: the reader, and stored records.
use crate::body::{rest, settings_to_write};
use crate::line::{number, reason, refused, said, sent, worded};
use base_numbers::read_little;
use base_signed::read_little_signed;
use base_text::write_word;
use frame_reader::{tlv_answer, tlv_value};
use replay_calls::MOST;
use stored_line::LossLine;
use stored_line_calls::{read_line, write_line};
use stored_settings::{read_settings, write_settings};
use stored_settings_body_write::body_of;

// 265: what the reader says of a TLV.
pub(crate) fn ask_tlv(call: &[u8; MOST], n: usize, line: &mut [u8]) -> usize {
    let kind = call[2];
    let frame = rest(call, 3, n);
    let told = frame_reader_answer::tell(tlv_answer(frame, kind));
    let behind = reason(line, told.refusal, told.drop);
    if 0 < behind {
        return behind;
    }
    if told.value == 0 {
        return write_word(line, 0, b"none");
    }
    worded(line, b"value", tlv_value(frame, kind))
}

// 268: the settings of a stored record.
pub(crate) fn run_read_settings(call: &[u8; MOST], n: usize, line: &mut [u8]) -> usize {
    let read = read_settings(rest(call, 2, n));
    if read.refusal != 0 {
        return refused(line, read.refusal);
    }
    let body = body_of(&read.set, &read.names, &read.ids);
    worded(line, b"settings", &body)
}

// 269: a stored record of settings.
pub(crate) fn run_write_settings(call: &[u8; MOST], out: &mut [u8], line: &mut [u8]) -> usize {
    let read = settings_to_write(call);
    let told = stored_record::tell(write_settings(out, &read.set, &read.names, &read.ids));
    sent(line, told.refusal, told.length)
}

// 270: a stored loss line.
pub(crate) fn run_read_line(call: &[u8; MOST], n: usize, line: &mut [u8]) -> usize {
    let told = stored_line::tell(read_line(rest(call, 2, n)));
    if told.refusal != 0 {
        return refused(line, told.refusal);
    }
    let first = said(line, b"line", told.intervals as i64);
    let second = number(line, first, told.near);
    number(line, second, told.far)
}

// 271: a stored loss line written.
pub(crate) fn run_write_line(call: &[u8; MOST], out: &mut [u8], line: &mut [u8]) -> usize {
    let all: &[u8] = call;
    let given = LossLine {
        near: read_little_signed(all, 4),
        far: read_little_signed(all, 12),
        intervals: read_little(all, 20, 4),
    };
    let told = stored_record::tell(write_line(out, given));
    sent(line, told.refusal, told.length)
}
