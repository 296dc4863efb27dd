// The calls that may change the state.
use crate::body::{rest, settings, stamp};
use crate::held::{Held, Ran, stepped};
use crate::line::{done, length_of, number, reason, said, sent};
use base_octets::copy_octets;
use base_text::write_word;
use call_clear::clear;
use call_setting::new_setting;
use call_tick::tick;
use receive_answer::{ALL_WAYS, FIRST, FrameTold, LOSS, PASSED, REPLIED, TAKEN, TWO_WAY};
use receive_class::Side;
use receive_frame::on_frame;
use replay_calls::MOST;
use replay_state::STATE;
use replay_state_read::state_in;
use state_view::StateArrays;

// 257: what the setting returns becomes the held state: the state that it starts with, zeros where it is refused.
pub(crate) fn run_setting(held: Held, call: &[u8; MOST], line: &mut [u8]) -> Ran {
    let read = settings(call);
    let started = new_setting(&read.set, &read.names, &read.ids);
    let answer = started.answer;
    let state = started.state;
    let told = call_setting::tell(answer);
    stepped(held, state, done(line, told.refusal, b"set"))
}

// The side that an octet names.
fn side_of(octet: u8) -> Side {
    // no `From`: both types are others'
    if octet == 0 {
        Side::Active
    } else {
        Side::Passive
    }
}

// The words of a frame's answer where it is no refusal and no drop.
fn frame_done(line: &mut [u8], told: FrameTold) -> usize {
    let kind = told.done;
    match kind {
        PASSED => write_word(line, 0, b"passed"),
        TAKEN => write_word(line, 0, b"taken"),
        REPLIED => said(line, b"replied", length_of(told.length)),
        FIRST => losses(line, told.near, told.far),
        LOSS => losses(line, told.near, told.far),
        TWO_WAY => said(line, b"delay", told.twoway),
        ALL_WAYS => delays(line, told.twoway, told.onewayfar, told.onewaynear),
        _ => 0,
    }
}

// Near and far loss.
pub(crate) fn losses(line: &mut [u8], near: i64, far: i64) -> usize {
    let at = said(line, b"loss", near);
    number(line, at, far)
}

// Two-way delay, then the one-way delays, far first.
fn delays(line: &mut [u8], twoway: i64, far: i64, near: i64) -> usize {
    let at = said(line, b"delay", twoway);
    let next = number(line, at, far);
    number(line, next, near)
}

// A frame's answer.
fn frame_said(line: &mut [u8], told: FrameTold) -> usize {
    let behind = reason(line, told.refusal, told.drop);
    if 0 < behind {
        return behind;
    }
    frame_done(line, told)
}

// 258: a frame.
pub(crate) fn run_frame(
    held: Held,
    call: &[u8; MOST],
    n: usize,
    out: &mut [u8],
    line: &mut [u8],
) -> Ran {
    let before = held.state;
    let mut after = before;
    let answer = on_frame(
        before.lent().settings,
        &mut after.timers,
        &mut after.rdi,
        &mut after.run,
        &mut after.totals,
        side_of(call[2]),
        rest(call, 21, n),
        stamp(call, 5),
        stamp(call, 13),
        out,
    );
    let told = receive_answer::tell(answer);
    stepped(held, after, frame_said(line, told))
}

// A tick's answer.
fn tick_said(line: &mut [u8], refusal: u32, length: usize) -> usize {
    if length == 0 {
        return done(line, refusal, b"ticked");
    }
    sent(line, refusal, length)
}

// 259: a tick.
pub(crate) fn run_tick(held: Held, out: &mut [u8], line: &mut [u8]) -> Ran {
    let before = held.state;
    let mut after = before;
    let answer = tick(
        before.lent().settings,
        &mut after.timers,
        &before.rdi,
        &mut after.run,
        &before.totals,
        out,
    );
    let told = call_send_answer::tell_tick(answer);
    stepped(held, after, tick_said(line, told.refusal, told.length))
}

// 260: a clear.
pub(crate) fn run_clear(held: Held, line: &mut [u8]) -> Ran {
    let before = held.state;
    let mut after = before;
    let answer = clear(
        before.lent().settings,
        &before.timers,
        &before.rdi,
        &mut after.run,
        &mut after.totals,
    );
    let told = call_clear::tell(answer);
    stepped(held, after, done(line, told.refusal, b"cleared"))
}

// 263: the state is put as it is.
pub(crate) fn put_state(held: Held, call: &[u8; MOST], line: &mut [u8]) -> Ran {
    let all: &[u8] = call;
    let mut body = [0u8; STATE];
    copy_octets(&mut body, 0, &all[2..196]);
    let state = state_in(&body);
    stepped(held, state, done(line, 0, b"set"))
}
