// Works a month again: raw loss replies on standard input, a stored loss line after each on standard output.
// A reply is four little-endian counts of 32 bits (TxFCf, RxFCf, TxFCb, our own received count); `sheet` prints the lines. A reply that
// the input cuts short, or that the session has no interval left for, ends it; the lines before it stay. Which reply that is, where it
// begins, and at the end how many replies were worked, is said on standard error, since standard output holds records and nothing else.
// Any argument gets a usage line there, and nothing is written. What is written for a chunk of replies is proved in `stored_replies`. The
// loop ends by a count of turns, 2^64 - 1 of them, since a loop must be shown to end and nothing says that the input does. What standard
// error does not take is lost: there is no other place to say it.
#![tactic(auto)]

ghost use Rattle.std.specs.Prelude.{◌<◌, ◌≤◌, length};

use loss_session::{LossSession, cleared};
use std::env::FillError;
use std::io::Read;
use std::ops::ControlFlow;
use std::rt::Env;
use stored_line::LINE;
use stored_replies::{REPLY, RecountRefusal, recount};

// The octets read at a time: whole replies, so that none is split between two chunks.
const CHUNK: usize = 16384;

// Room for a record of each.
const ROOM: usize = CHUNK / REPLY * LINE;

// Reads until the buffer is full or the input ends; returns how many octets came. A read that fails ends the input.
// The same text in each program: a library function needs a contract that leaves one result, and none can say what an input gives.
fn read_full(input: &mut impl Read, buffer: &mut [u8]) -> usize
    ensures { result ≤ length buffer.new }
{
    let mut got = 0;
    while got < buffer.len() {
        match input.read(&mut buffer[got..]) {
            Ok(n) if 0 < n => got += n,
            _ => break,
        }
    }
    got
}

// A word on standard error, a number, and a word after it.
fn say(err: &impl Print, before: &[u8], n: u64, after: &[u8]) {
    let _ = err.write_all(before);
    let _ = err.print(n);
    let _ = err.write_all(after);
}

// The replies that a session has taken since it was cleared: each but the first is the end of an interval.
fn replies(session: LossSession) -> u64
    ensures { result < 8589934592 }
{
    session.kept as u64 + session.intervals as u64
}

// Says which reply is the next, counted from 1, and the octet where it begins, counted from 0.
fn say_next(err: &impl Print, session: LossSession) {
    let taken = replies(session);
    say(err, b"recount: reply ", taken + 1, b", at octet ");
    say(err, b"", taken * 16, b": ");
}

// Says how many replies were worked.
fn say_count(err: &impl Print, session: LossSession) {
    say(err, b"recount: replies worked: ", replies(session), b"\n");
}

// Writes the first n records; returns whether all were written.
fn print(out: &impl Print, err: &impl Print, records: &[u8; ROOM], n: usize) -> bool {
    let all: &[u8] = records;
    if all.len() / LINE < n {
        return false;
    }
    if out.write_all(&all[0..n * LINE]).is_ok() {
        return true;
    }
    let _ = err.write_all(b"recount: standard output takes no more\n");
    false
}

// Says why it ends, if it does; returns whether it goes on.
fn goes_on(err: &impl Print, session: LossSession, halted: bool, left: usize) -> bool {
    if halted {
        say_next(err, session);
        say(err, b"refused ", HALTED, b", no interval is left for it\n");
        return false;
    }
    if left != 0 {
        say_next(err, session);
        say(
            err,
            b"cut short, ",
            left as u64,
            b" of its 16 octets are there\n",
        );
        return false;
    }
    true
}

// The paper's number of a halt: a session without an interval left.
const HALTED: u64 = 5;

// The paper's number of a refusal.
fn number_of(refusal: RecountRefusal) -> u64 {
    match refusal {
        RecountRefusal::NotWellFormed => 2,
        RecountRefusal::NoRoom => 3,
    }
}

// Reads a chunk and writes the records of its replies; answers the session after it, as a break where nothing more is to be read.
fn work_chunk(
    input: &mut impl Read,
    out: &impl Print,
    err: &impl Print,
    session: LossSession,
) -> ControlFlow<LossSession, LossSession> {
    let mut chunk = [0u8; CHUNK];
    let got = read_full(input, &mut chunk);
    if got == 0 {
        return ControlFlow::Break(session);
    }
    let mut records = [0u8; ROOM];
    match recount(&mut records, &chunk[..got], session) {
        // never: the session is well formed, and ROOM is what it needs
        Err(refusal) => {
            say(err, b"recount: refused ", number_of(refusal), b"\n");
            ControlFlow::Break(session)
        }
        Ok(done) => {
            let after = done.session;
            let written = print(out, err, &records, done.taken);
            let fine = goes_on(err, after, done.halted, got % REPLY);
            if written & fine {
                ControlFlow::Continue(after)
            } else {
                ControlFlow::Break(after)
            }
        }
    }
}

// Whether the program was given an argument. It may be any octets, so it is not read as text.
// The same text in each program: a library function needs a contract that leaves one result, and none can say what an argument is.
fn has_argument(rt: &impl Env) -> bool {
    !matches!(rt.arg(1, &mut [0u8; 1]), Err(FillError::NotPresent))
}

fn main(rt: HostRuntime) {
    let mut input = rt.stdin();
    let out = rt.stdout();
    let err = rt.stderr();
    if has_argument(&rt) {
        let _ = err.write_all(
            b"usage: recount < RAW > RECORDS    (no arguments; raw loss replies in, stored loss lines out)\n",
        );
        return;
    }
    let mut session = cleared();
    // a loop must be shown to end, and nothing says that input does
    for _ in 0..u64::MAX {
        match work_chunk(&mut input, &out, &err, session) {
            ControlFlow::Continue(after) => session = after,
            ControlFlow::Break(after) => {
                say_count(&err, after);
                return;
            }
        }
    }
}
