// Runs recorded calls: calls on standard input, one line for each on standard output.
// At a bad call it prints `bad call`, says on standard error which call that is and where it begins, and stops. Any argument gets a usage
// line there, and nothing is printed. What a call is, what it is answered and how octets and numbers are written is proved in
// the crates below; here is only which call goes where, and in which words its answer is printed. State and session are held by value: a
// handler takes what is held, lends the state from there, and returns what is then held; what a new setting returns becomes the held state.
// 267 calls `loss_lent::answer`, the rule by value, as all is held here. A part at a fixed place of a call is read from the program's array
// of 2,000 octets, so no handler tests a length.
#![tactic(auto)]

mod body;
mod held;
mod line;
mod records;
mod sessions;
mod shows;
mod steps;

ghost use Rattle.std.specs.Prelude.{◌≤◌, length};

use crate::body::rest;
use crate::held::{Held, Ran, looked, nothing};
use crate::line::buffer;
use crate::records::{
    ask_tlv, run_read_line, run_read_settings, run_write_line, run_write_settings,
};
use crate::sessions::{put_session, run_measure};
use crate::shows::{run_conditions, run_dmm, run_lmm, show_state};
use crate::steps::{put_state, run_clear, run_frame, run_setting, run_tick};
use base_numbers::read_little;
use base_text::write_word;
use replay_calls::{MOST, ROOM, call_length, hands_over, room_of};
use replay_good_calls::is_call;
use state_view::StateArrays;
use std::env::FillError;
use std::io::Read;
use std::rt::Env;

// Room for the longest line: 1,600 octets in hex, and the answer before them.
const LINE: usize = 4096;

// What is held after a call that was run, and how many octets it had behind its length.
#[derive(Clone, Copy)]
struct Turn {
    held: Held,
    used: usize,
}

// Sets the buffer's octet i to (165 + i) mod 256.
fn refill(buffer: &mut [u8]) {
    let mut octet: u8 = 165;
    for place in buffer.iter_mut() {
        *place = octet;
        octet = octet.wrapping_add(1);
    }
}

// Runs a call that leaves what is held as it is, and writes its line as far as the answer goes.
fn run_look(
    state: StateArrays,
    number: u32,
    call: &[u8; MOST],
    n: usize,
    out: &mut [u8],
    line: &mut [u8],
) -> usize {
    match number {
        261 => run_lmm(state, out, line),
        262 => run_dmm(state, call, out, line),
        264 => show_state(state, line),
        265 => ask_tlv(call, n, line),
        268 => run_read_settings(call, n, line),
        269 => run_write_settings(call, out, line),
        270 => run_read_line(call, n, line),
        271 => run_write_line(call, out, line),
        272 => run_conditions(state, line),
        _ => 0,
    }
}

// Runs a call on what is held, and writes its line as far as the answer goes.
fn run_call(
    held: Held,
    number: u32,
    call: &[u8; MOST],
    n: usize,
    out: &mut [u8],
    line: &mut [u8],
) -> Ran {
    let state = held.state;
    match number {
        257 => run_setting(held, call, line),
        258 => run_frame(held, call, n, out, line),
        259 => run_tick(held, out, line),
        260 => run_clear(held, line),
        263 => put_state(held, call, line),
        266 => put_session(held, call, line),
        267 => run_measure(held, call, line),
        _ => looked(held, run_look(state, number, call, n, out, line)),
    }
}

// The end of a call's line: the buffer part, where one was passed in, and a line feed.
fn end_line(line: &mut [u8], at: usize, number: u32, out: &[u8]) -> usize {
    if hands_over(number) {
        let behind = buffer(line, at, out);
        return write_word(line, behind, b"\n");
    }
    write_word(line, at, b"\n")
}

// Prints the first n octets of a line; returns whether all were written.
fn print(rt: &impl Print, line: &[u8; LINE], n: usize) -> bool {
    let all: &[u8] = line;
    if all.len() < n {
        return false;
    }
    rt.write_all(&all[0..n]).is_ok()
}

// A bad call: the last line, and no more. Standard error says which it is, counted from 1, and the octet where it begins, counted from 0.
// What is not taken there is lost, since nothing comes after it.
fn bad(rt: &(impl Print + Eprint), number: u64, at: u64) {
    let _ = println!(rt; "bad call");
    let _ = eprintln!(rt; "replay: call {number}, at octet {at}: bad call");
}

// Runs a call with its part of the buffer, and writes its whole line. That the part fits, `is_call` has tested.
fn run_part(
    held: Held,
    call: &[u8; MOST],
    n: usize,
    buffer: &mut [u8],
    room: usize,
    line: &mut [u8],
) -> Ran {
    if buffer.len() < room {
        return looked(held, 0);
    }
    let number = read_little(call, 0, 2);
    let out = &mut buffer[0..room];
    let ran = run_call(held, number, call, n, out, line);
    let length = end_line(line, ran.length, number, out);
    let after = ran.held;
    looked(after, length)
}

// Runs a call and prints its line; none where standard output takes no more.
fn run_whole(
    rt: &impl Print,
    held: Held,
    call: &[u8; MOST],
    n: usize,
    room: usize,
) -> Option<Turn> {
    let mut buffer = [0u8; ROOM];
    refill(&mut buffer);
    let mut line = [0u8; LINE];
    let ran = run_part(held, call, n, &mut buffer, room, &mut line);
    let after = ran.held;
    if !print(rt, &line, ran.length) {
        return None;
    }
    Some(Turn {
        held: after,
        used: n,
    })
}

// Reads until the buffer is full or the input ends; returns how many octets came. A read that fails ends the input.
// The same text in each program: a library function needs a contract that leaves one result, and none can say what an input gives.
fn read_full(input: &mut impl Read, buffer: &mut [u8]) -> usize
    ensures { result ≤ length buffer.new }
{
    let mut got = 0;
    while got < buffer.len() {
        match input.read(&mut buffer[got..]) {
            Ok(n) if 0 < n => got += n,
            _ => break,
        }
    }
    got
}

// Reads what follows a call's length; returns whether all of it came. That it fits, `call_length` has tested.
fn fetch(input: &mut impl Read, call: &mut [u8], length: usize) -> bool {
    if call.len() < length {
        return false;
    }
    read_full(input, &mut call[0..length]) == length
}

// Reads the next call, of this number and at this octet, and runs it; none where nothing more is to be run: the input has ended, the call is
// bad, or standard output takes no more.
fn take_call(
    rt: &(impl Print + Eprint),
    input: &mut impl Read,
    held: Held,
    number: u64,
    at: u64,
) -> Option<Turn> {
    let mut head = [0u8; 2];
    let got = read_full(input, &mut head);
    if got == 0 {
        return None;
    }
    let length = call_length(&head);
    if (got < 2) | (length == 0) {
        bad(rt, number, at);
        return None;
    }
    let mut call = [0u8; MOST];
    if !fetch(input, &mut call, length) {
        bad(rt, number, at);
        return None;
    }
    if !is_call(rest(&call, 0, length)) {
        bad(rt, number, at);
        return None;
    }
    let room = room_of(rest(&call, 0, length));
    run_whole(rt, held, &call, length, room)
}

// The place after a call: its two octets of length, and what follows them. The sum never wraps: no input is that long.
fn place_after(at: u64, used: usize) -> u64 {
    at.wrapping_add(2).wrapping_add(used as u64)
}

// Whether the program was given an argument. It may be any octets, so it is not read as text.
// The same text in each program: a library function needs a contract that leaves one result, and none can say what an argument is.
fn has_argument(rt: &impl Env) -> bool {
    !matches!(rt.arg(1, &mut [0u8; 1]), Err(FillError::NotPresent))
}

fn main(rt: HostRuntime) {
    if has_argument(&rt) {
        let _ = eprintln!(rt;
            "usage: replay < RUN    (no arguments; recorded calls in, a line for each out)"
        );
        return;
    }
    let mut input = rt.stdin();
    let mut held = nothing();
    let mut at: u64 = 0;
    // a loop must be shown to end, and nothing says that input does
    for number in 1..=u64::MAX {
        match take_call(&rt, &mut input, held, number, at) {
            Some(turn) => {
                held = turn.held;
                at = place_after(at, turn.used);
            }
            None => return,
        }
    }
}
