// Prints the link sheet: stored loss lines on standard input; a header and a line for each on standard output.
// There may be any number of them. It prints `refused 7` at the first that is bad or cut short, says on standard error which one that is
// and where it begins, and stops. Any argument gets a usage line on standard error, and nothing is printed: a header alone would look like
// an empty month. What is printed for a chunk of records is proved in `stored_sheet_lines`; here is only the reading and the writing. The
// buffer is as large as a chunk needs, so too little room is never answered. The loop ends by a count of turns, 2^64 - 1 of them, since a
// loop must be shown to end and nothing says that the input does. What standard error does not take is lost: there is no other place to
// say it.
#![tactic(auto)]

ghost use Rattle.std.specs.Prelude.{◌≤◌, length};

use std::env::FillError;
use std::io::Read;
use std::rt::Env;
use stored_sheet::header;
use stored_sheet_lines::{LONGEST, Printed, SheetRefusal, write_lines};

// The octets of a record.
const RECORD: u64 = 24;

// The octets read at a time: whole records, so that none is split between two chunks.
const CHUNK: usize = 24576;

// Room for their text, as much as `write_lines` needs: three octets for each and one line more.
const ROOM: usize = 3 * CHUNK + LONGEST;

// Reads until the buffer is full or the input ends; returns how many octets came. A read that fails ends the input.
// The same text in each program: a library function needs a contract that leaves one result, and none can say what an input gives.
fn read_full(input: &mut impl Read, buffer: &mut [u8]) -> usize
    ensures { result ≤ length buffer.new }
{
    let mut got = 0;
    while got < buffer.len() {
        match input.read(&mut buffer[got..]) {
            Ok(n) if 0 < n => got += n,
            _ => break,
        }
    }
    got
}

// Prints the first n octets of the text; returns whether all were written.
fn print(rt: &(impl Print + Eprint), text: &[u8; ROOM], n: usize) -> bool {
    let all: &[u8] = text;
    if all.len() < n {
        return false;
    }
    if rt.write_all(&all[0..n]).is_ok() {
        return true;
    }
    let _ = eprintln!(rt; "sheet: standard output takes no more");
    false
}

// The place after one more octet of text: a line feed ends the line of a record. The sum never wraps: no input is that long.
fn step(place: u64, octet: u8) -> u64 {
    if octet == b'\n' {
        return place.wrapping_add(RECORD);
    }
    place
}

// The place after as many records as the text has lines.
fn place_after(text: &[u8], at: u64) -> u64 {
    let mut place = at;
    for octet in text {
        place = step(place, *octet);
    }
    place
}

// Says which record is bad, counted from 1, and the octet where it begins, counted from 0. The text of its chunk ends with the refusal.
fn complain(rt: &impl Eprint, text: &[u8; ROOM], n: usize, at: u64) {
    let all: &[u8] = text;
    if all.len() < n {
        return;
    }
    let place = place_after(&all[0..n], at).wrapping_sub(RECORD);
    let number = place / RECORD + 1;
    let _ = eprintln!(rt; "sheet: record {number}, at octet {place}: refused 7");
}

// Reads the chunk at a place and prints its text; returns whether more is to be printed. The header comes once the input has begun or
// ended, so that what a program before this one has to say comes first.
fn turn(rt: &(impl Print + Eprint), input: &mut impl Read, at: u64) -> bool {
    let mut chunk = [0u8; CHUNK];
    let got = read_full(input, &mut chunk);
    if at == 0 {
        let _ = rt.write_all(&header());
    }
    if got == 0 {
        return false;
    }
    let mut text = [0u8; ROOM];
    match write_lines(&mut text, &chunk[..got]) {
        // never: ROOM is what it needs
        Err(SheetRefusal::NoRoom) => {
            let _ = eprintln!(rt; "sheet: too little room for a chunk");
            false
        }
        Ok(Printed::All(n)) => print(rt, &text, n),
        Ok(Printed::Stopped(n)) => {
            if print(rt, &text, n) {
                complain(rt, &text, n, at);
            }
            false
        }
    }
}

// Whether the program was given an argument. It may be any octets, so it is not read as text.
// The same text in each program: a library function needs a contract that leaves one result, and none can say what an argument is.
fn has_argument(rt: &impl Env) -> bool {
    !matches!(rt.arg(1, &mut [0u8; 1]), Err(FillError::NotPresent))
}

fn main(rt: HostRuntime) {
    if has_argument(&rt) {
        let _ = eprintln!(rt;
            "usage: sheet < RECORDS    (no arguments; stored loss lines in, their sheet out)"
        );
        return;
    }
    let mut input = rt.stdin();
    let mut at: u64 = 0;
    // a loop must be shown to end, and nothing says that input does
    for _ in 0..u64::MAX {
        if !turn(&rt, &mut input, at) {
            return;
        }
        at = at.wrapping_add(CHUNK as u64);
    }
}
