// The parts that lines share. Each is put behind what is there already, and returns the place behind itself.
use base_hex::write_hex;
use base_number_write::write_decimal;
use base_text::write_word;
use replay_calls::MOST;

// A space, and a number behind it.
pub(crate) fn number(line: &mut [u8], at: usize, value: i64) -> usize {
    let behind = write_word(line, at, b" ");
    write_decimal(line, behind, value)
}

// A word in front of the line, and a number behind it.
pub(crate) fn said(line: &mut [u8], word: &[u8], value: i64) -> usize {
    let behind = write_word(line, 0, word);
    number(line, behind, value)
}

// A space, and octets in hex behind it.
pub(crate) fn octets(line: &mut [u8], at: usize, octets: &[u8]) -> usize {
    let behind = write_word(line, at, b" ");
    write_hex(line, behind, octets)
}

// A word in front of the line, and octets in hex behind it.
pub(crate) fn worded(line: &mut [u8], word: &[u8], shown: &[u8]) -> usize {
    let behind = write_word(line, 0, word);
    octets(line, behind, shown)
}

// The buffer part that a call passed in.
pub(crate) fn buffer(line: &mut [u8], at: usize, out: &[u8]) -> usize {
    let behind = write_word(line, at, b" |");
    octets(line, behind, out)
}

// A length as a signed number. None is above that of a call, so the test decides nothing.
pub(crate) fn length_of(n: usize) -> i64 {
    if MOST < n {
        return -1;
    }
    n as i64
}

// A refusal.
pub(crate) fn refused(line: &mut [u8], refusal: u32) -> usize {
    said(line, b"refused", refusal as i64)
}

// A refusal or a drop; nothing where there is neither.
pub(crate) fn reason(line: &mut [u8], refusal: u32, drop: u32) -> usize {
    if refusal != 0 {
        return refused(line, refusal);
    }
    if drop != 0 {
        return said(line, b"dropped", drop as i64);
    }
    0
}

// A refusal, or what was written.
pub(crate) fn sent(line: &mut [u8], refusal: u32, length: usize) -> usize {
    if refusal != 0 {
        return refused(line, refusal);
    }
    said(line, b"sent", length_of(length))
}

// A refusal, or a word where there was none.
pub(crate) fn done(line: &mut [u8], refusal: u32, word: &[u8]) -> usize {
    if refusal != 0 {
        return refused(line, refusal);
    }
    write_word(line, 0, word)
}
