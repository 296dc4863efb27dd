// The calls that look at the state and leave it as it is.
use crate::body::stamp;
use crate::line::{number, refused, sent, worded};
use base_text::write_word;
use call_conditions::{ConditionFlags, conditions};
use call_send_answer::{tell_dmm, tell_lmm};
use call_send_dmm::send_dmm;
use call_send_lmm::send_lmm;
use replay_calls::MOST;
use replay_state_write::state_octets;
use state_settings::{COUNT, PEERS, Slots};
use state_view::StateArrays;

// 261: an LMM.
pub(crate) fn run_lmm(state: StateArrays, out: &mut [u8], line: &mut [u8]) -> usize {
    let told = tell_lmm(send_lmm(state.lent(), out));
    sent(line, told.refusal, told.length)
}

// 262: a DMM with the caller's stamp.
pub(crate) fn run_dmm(
    state: StateArrays,
    call: &[u8; MOST],
    out: &mut [u8],
    line: &mut [u8],
) -> usize {
    let told = tell_dmm(send_dmm(state.lent(), stamp(call, 4), out));
    sent(line, told.refusal, told.length)
}

// 264: the held state's octets.
pub(crate) fn show_state(state: StateArrays, line: &mut [u8]) -> usize {
    let shown = state_octets(state.lent());
    worded(line, b"state", &shown)
}

// A word where a condition is active.
fn condition(line: &mut [u8], at: usize, word: &[u8], stands: u32) -> usize {
    if stands == 0 {
        return at;
    }
    write_word(line, at, word)
}

// A peer's ID, and right behind it what is active of it.
fn peer(line: &mut [u8], at: usize, id: u32, lost: u32, rdi: u32) -> usize {
    let named = number(line, at, id as i64);
    let colon = write_word(line, named, b":");
    let first = condition(line, colon, b"L", lost);
    let second = condition(line, first, b"R", rdi);
    if second == colon {
        return write_word(line, colon, b"-");
    }
    second
}

// A slot's peer, where the slot is used.
fn slot(line: &mut [u8], at: usize, used: bool, id: u32, lost: u32, rdi: u32) -> usize {
    if !used {
        return at;
    }
    peer(line, at, id, lost, rdi)
}

// Each used peer.
fn peers(line: &mut [u8], at: usize, count: u32, ids: &Slots, lost: &Slots, rdi: &Slots) -> usize {
    let used = count as usize;
    let mut behind = at;
    for i in 0..PEERS {
        behind = slot(line, behind, i < used, ids[i], lost[i], rdi[i]);
    }
    behind
}

// The conditions that are no peer's.
fn others(line: &mut [u8], at: usize, flags: ConditionFlags) -> usize {
    let a = condition(line, at, b" mismerge", flags.mismerge);
    let b = condition(line, a, b" mep", flags.unexpectedmep);
    let c = condition(line, b, b" period", flags.unexpectedperiod);
    let d = condition(line, c, b" level", flags.unexpectedlevel);
    let e = condition(line, d, b" ais", flags.ais);
    condition(line, e, b" lck", flags.lck)
}

// 272: which conditions are active.
pub(crate) fn run_conditions(state: StateArrays, line: &mut [u8]) -> usize {
    let told = conditions(state.lent());
    if told.refusal != 0 {
        return refused(line, told.refusal);
    }
    let flags = told.conditions;
    let lost = flags.lost;
    let heard = flags.rdi;
    let start = write_word(line, 0, b"conditions");
    let at = peers(line, start, state.set[COUNT], &state.ids, &lost, &heard);
    others(line, at, flags)
}
