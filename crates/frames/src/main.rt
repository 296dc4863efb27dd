// Prints what frames, given in hex, read as.
// Standard input has a frame a line, in hex: the TLV type that is asked for, then the frame's octets; blanks are passed over, and `#`
// begins a comment, so a fitter can type it. Each line prints its message with the fields, or `refused N` or `dropped N`, and after a bar
// what the reader says of the TLV. A line that is not octets is named on standard error too. Any argument gets a usage line there, and
// nothing is printed. Where standard output takes no more, that error ends the program. The test input has a reason above each frame,
// decided from the papers and not from the program.
#![tactic(auto)]

ghost use Rattle.std.specs.Prelude.{◌≤◌, length};

use base_stamp::Stamp;
use frame_ccm::{ccm_fields, meg_id};
use frame_head::{level, version};
use frame_loopback_alarm::{alarm_period, transaction};
use frame_measures::{delay_fields, loss_fields};
use frame_message::message_answer;
use frame_message_answer::tell as tell_message;
use frame_reader::{tlv_answer, tlv_value};
use frame_reader_answer::tell as tell_tlv;
use std::env::FillError;
use std::io::{self, Read};
use std::ops::ControlFlow;
use std::rt::Env;

// A word, and the number behind it.
fn print_number(rt: &impl Print, word: &[u8], n: u32) -> io::Result<()> {
    rt.write_all(word)?;
    rt.print(n)
}

// An octet in two hex digits.
fn print_octet(rt: &impl Print, x: u8) -> io::Result<()> {
    print!(rt; "{x:02x}")
}

// A word, and the octets behind it.
fn print_octets(rt: &impl Print, word: &[u8], octets: &[u8]) -> io::Result<()> {
    rt.write_all(word)?;
    for octet in octets {
        print_octet(rt, *octet)?;
    }
    Ok(())
}

// A word, and the seconds and nanoseconds behind it.
fn print_stamp(rt: &impl Print, word: &[u8], stamp: Stamp) -> io::Result<()> {
    print_number(rt, word, stamp.seconds)?;
    print_number(rt, b" ", stamp.nanoseconds)
}

// A refusal or a drop; returns whether there was one.
fn print_reason(rt: &impl Print, refusal: u32, drop: u32) -> io::Result<bool> {
    if refusal != 0 {
        print_number(rt, b"refused ", refusal)?;
        return Ok(true);
    }
    if drop != 0 {
        print_number(rt, b"dropped ", drop)?;
        return Ok(true);
    }
    Ok(false)
}

// A message's name, and its level and version.
fn print_head(rt: &impl Print, name: &[u8], frame: &[u8]) -> io::Result<()> {
    rt.write_all(name)?;
    print_number(rt, b" level ", level(frame))?;
    print_number(rt, b" version ", version(frame))
}

// The fields of a CCM.
fn print_ccm(rt: &impl Print, frame: &[u8]) -> io::Result<()> {
    let ccm = ccm_fields(frame);
    print_head(rt, b"CCM", frame)?;
    print_number(rt, b" sequence ", ccm.sequence)?;
    print_number(rt, b" mep ", ccm.mep)?;
    print_octets(rt, b" meg ", meg_id(frame))?;
    print_number(rt, b" txfcf ", ccm.txfcf)?;
    print_number(rt, b" rxfcb ", ccm.rxfcb)?;
    print_number(rt, b" txfcb ", ccm.txfcb)?;
    print_number(rt, b" period ", ccm.period)?;
    print_number(rt, b" rdi ", ccm.rdi)
}

// The transaction of an LBM or LBR.
fn print_loopback(rt: &impl Print, name: &[u8], frame: &[u8]) -> io::Result<()> {
    print_head(rt, name, frame)?;
    print_number(rt, b" transaction ", transaction(frame))
}

// The period code of an AIS or LCK.
fn print_alarm(rt: &impl Print, name: &[u8], frame: &[u8]) -> io::Result<()> {
    print_head(rt, name, frame)?;
    print_number(rt, b" period ", alarm_period(frame))
}

// The counts of an LMM or LMR.
fn print_loss(rt: &impl Print, name: &[u8], frame: &[u8]) -> io::Result<()> {
    let loss = loss_fields(frame);
    print_head(rt, name, frame)?;
    print_number(rt, b" txfcf ", loss.txfcf)?;
    print_number(rt, b" rxfcf ", loss.rxfcf)?;
    print_number(rt, b" txfcb ", loss.txfcb)
}

// The stamps of a DMM or DMR.
fn print_delay(rt: &impl Print, name: &[u8], frame: &[u8]) -> io::Result<()> {
    let delay = delay_fields(frame);
    let sent = delay.txtimestampf;
    let heard = delay.rxtimestampf;
    let answered = delay.txtimestampb;
    print_head(rt, name, frame)?;
    print_stamp(rt, b" txtimestampf ", sent)?;
    print_stamp(rt, b" rxtimestampf ", heard)?;
    print_stamp(rt, b" txtimestampb ", answered)
}

// The message that a frame is, or why it is none.
fn print_message(rt: &impl Print, frame: &[u8]) -> io::Result<()> {
    let told = tell_message(message_answer(frame));
    if print_reason(rt, told.refusal, told.drop)? {
        return Ok(());
    }
    let opcode = told.opcode;
    match opcode {
        1 => print_ccm(rt, frame),
        2 => print_loopback(rt, b"LBR", frame),
        3 => print_loopback(rt, b"LBM", frame),
        33 => print_alarm(rt, b"AIS", frame),
        35 => print_alarm(rt, b"LCK", frame),
        42 => print_loss(rt, b"LMR", frame),
        43 => print_loss(rt, b"LMM", frame),
        46 => print_delay(rt, b"DMR", frame),
        47 => print_delay(rt, b"DMM", frame),
        _ => Ok(()),
    }
}

// What the reader says of a TLV.
fn print_tlv(rt: &impl Print, frame: &[u8], kind: u8) -> io::Result<()> {
    let told = tell_tlv(tlv_answer(frame, kind));
    if print_reason(rt, told.refusal, told.drop)? {
        return Ok(());
    }
    if told.value == 0 {
        return rt.print("none");
    }
    let value = tlv_value(frame, kind);
    print!(rt; "value {}", value.len())?;
    if 0 < value.len() {
        print_octets(rt, b" ", value)?;
    }
    Ok(())
}

// The whole line of a frame.
fn show(rt: &impl Print, frame: &[u8], kind: u8) -> io::Result<()> {
    print_message(rt, frame)?;
    rt.print(" | ")?;
    print_tlv(rt, frame, kind)?;
    println!(rt)
}

// The octets that a line may have; a frame of more is too long in any case, and the rest is ignored.
const LINE: usize = 2048;

// How far a line has been read.
#[derive(Clone, Copy)]
struct Marks {
    // The line's number, counted from 1.
    number: u64,
    // The octets that are whole.
    at: usize,
    // The first digit of an octet whose second is still to come.
    half: bool,
    high: u8,
    // There was something on the line, or something that is no digit.
    any: bool,
    wrong: bool,
    comment: bool,
}

// At the start of a line.
fn no_marks(number: u64) -> Marks {
    Marks {
        number,
        at: 0,
        half: false,
        high: 0,
        any: false,
        wrong: false,
        comment: false,
    }
}

// The value of a hex digit; 16 of anything else.
fn digit(c: u8) -> u8 {
    if c < b'0' {
        return 16;
    }
    if c <= b'9' {
        return c - b'0';
    }
    if c < b'A' {
        return 16;
    }
    if c <= b'F' {
        return c - b'A' + 10;
    }
    if c < b'a' {
        return 16;
    }
    if c <= b'f' {
        return c - b'a' + 10;
    }
    16
}

// Takes a digit: the first of an octet is kept, the second makes it whole.
fn take_digit(line: &mut [u8; LINE], before: Marks, d: u8) -> Marks {
    let mut marks = before;
    marks.any = true;
    if !before.half {
        marks.half = true;
        marks.high = d;
        return marks;
    }
    marks.half = false;
    let at = before.at;
    if at < LINE {
        line[at] = (before.high % 16) * 16 + d % 16;
        marks.at = at + 1;
    }
    marks
}

// Takes a character that does not end the line.
fn take_inner(line: &mut [u8; LINE], before: Marks, c: u8) -> Marks {
    let mut marks = before;
    if before.comment {
        return marks;
    }
    if c == b'#' {
        marks.comment = true;
        return marks;
    }
    if (c == b' ') | (c == b'\t') | (c == b'\r') {
        return marks;
    }
    let d = digit(c);
    if d < 16 {
        return take_digit(line, before, d);
    }
    marks.any = true;
    marks.wrong = true;
    marks
}

// Takes a character; the end of a line prints what it reads as.
fn take(
    rt: &(impl Print + Eprint),
    line: &mut [u8; LINE],
    before: Marks,
    c: u8,
) -> io::Result<Marks> {
    if c == b'\n' {
        end_line(rt, line, before)?;
        // it never wraps: no input has so many lines
        return Ok(no_marks(before.number.wrapping_add(1)));
    }
    Ok(take_inner(line, before, c))
}

// Prints what a line reads as: nothing where nothing was on it. What standard error does not take is lost, and the next line comes.
fn end_line(rt: &(impl Print + Eprint), line: &[u8; LINE], marks: Marks) -> io::Result<()> {
    if !marks.any {
        return Ok(());
    }
    let all: &[u8] = line;
    let at = marks.at;
    if marks.wrong | marks.half {
        println!(rt; "not octets")?;
        let _ = eprintln!(rt; "frames: line {}: not octets", marks.number);
        return Ok(());
    }
    if at < 1 {
        return Ok(());
    }
    if all.len() < at {
        return Ok(());
    }
    show(rt, &all[1..at], all[0])
}

// Takes the characters of a chunk one by one.
fn take_all(
    rt: &(impl Print + Eprint),
    chunk: &[u8],
    line: &mut [u8; LINE],
    before: Marks,
) -> io::Result<Marks> {
    let mut marks = before;
    for c in chunk {
        marks = take(rt, line, marks, *c)?;
    }
    Ok(marks)
}

// The octets read at a time.
const CHUNK: usize = 4096;

// Reads until the buffer is full or the input ends; returns how many octets came. A read that fails ends the input.
// The same text in each program: a library function needs a contract that leaves one result, and none can say what an input gives.
fn read_full(input: &mut impl Read, buffer: &mut [u8]) -> usize
    ensures { result ≤ length buffer.new }
{
    let mut got = 0;
    while got < buffer.len() {
        match input.read(&mut buffer[got..]) {
            Ok(n) if 0 < n => got += n,
            _ => break,
        }
    }
    got
}

// Reads a chunk of input and takes it; answers the marks after it, as a break where the input has ended.
fn read_chunk(
    rt: &(impl Print + Eprint),
    input: &mut impl Read,
    line: &mut [u8; LINE],
    marks: Marks,
) -> io::Result<ControlFlow<Marks, Marks>> {
    let mut chunk = [0u8; CHUNK];
    let got = read_full(input, &mut chunk);
    if got == 0 {
        return Ok(ControlFlow::Break(marks));
    }
    let after = take_all(rt, &chunk[..got], line, marks)?;
    Ok(ControlFlow::Continue(after))
}

// Whether the program was given an argument. It may be any octets, so it is not read as text.
// The same text in each program: a library function needs a contract that leaves one result, and none can say what an argument is.
fn has_argument(rt: &impl Env) -> bool {
    !matches!(rt.arg(1, &mut [0u8; 1]), Err(FillError::NotPresent))
}

fn main(rt: HostRuntime) -> io::Result<()> {
    if has_argument(&rt) {
        return eprintln!(rt;
            "usage: frames < TEXT    (no arguments; a TLV type and a frame a line, in hex)"
        );
    }
    let mut input = rt.stdin();
    let mut line = [0u8; LINE];
    let mut marks = no_marks(1);
    // a loop must be shown to end, and nothing says that input does
    for _ in 0..u64::MAX {
        match read_chunk(&rt, &mut input, &mut line, marks)? {
            ControlFlow::Continue(after) => marks = after,
            ControlFlow::Break(last) => return end_line(&rt, &line, last),
        }
    }
    Ok(())
}
