// What a good message for us does, by who handles it: rules 5 to 8 of the paper.
// No state is looked at. A step of `receive_decide`, which has judged the frame: a good message has its fixed part. Its length is tested
// again here, so that nothing is needed of the caller; that a frame that was judged never gets this D5 is part of the proof of
// `receive_decide`.
#![tactic(auto)]

ghost use Rattle.std.specs.Prelude.{◌≡◌, ◌+◌, ◌≤◌, length};
ghost use Rattle.frame_head.specs.Head.{flags_of};
ghost use Rattle.frame_message.specs.Message.{period_code};
ghost use Rattle.frame_measures.specs.Measures.{stamp};
ghost use Rattle.state_settings.specs.Settings.{lent_settings};
ghost use Rattle.receive_handle.specs.Handle.{loss_reply_of, delay_reply_of, handled_of};

use base_bits::period_code_of;
use base_numbers::read_big;
use base_stamp::Stamp;
use frame_opcodes::Handler;
use receive_answer::Drop;
use receive_change::Change;
use receive_delay::{DelayValues, NoDelay, measure_delay};
use receive_peer::ccm_signal;
use receive_respond::Request;
use receive_signals::Signal;
use state_settings::{Names, Set, Slots};

// What is done with a frame.
#[derive(Clone, Copy)]
pub enum Decision {
    // It is dropped, and nothing changes.
    Drops(Drop),
    // It passes, and nothing changes.
    Passes,
    // It changes the state.
    Changes(Change),
    // It is answered.
    Replies(Request),
    // It gives delays, or is dropped for its stamps.
    Delays(Result<DelayValues, NoDelay>),
}

// The period code of an alarm; 0 where the PDU has no flags, and no `Option`: so `frame_head.flags_of` has it.
fn code_in(pdu: &[u8]) -> u32
    ensures { result ≡ period_code (flags_of pdu.now) }
{
    if pdu.len() < 3 {
        return 0;
    }
    period_code_of(pdu[2])
}

// The three counts of a loss reply.
fn reading_in(pdu: &[u8]) -> Decision
    ensures { result ≡ loss_reply_of pdu.now }
{
    if pdu.len() < 16 {
        return Decision::Drops(Drop::CutOff);
    }
    Decision::Changes(Change::Reading {
        txf: read_big(pdu, 4, 4),
        rxf: read_big(pdu, 8, 4),
        txb: read_big(pdu, 12, 4),
    })
}

// A stamp of a delay reply.
fn stamp_at(pdu: &[u8], at: usize) -> Stamp
    requires { at + 8 ≤ length pdu.now }
    ensures { result ≡ stamp at pdu.now }
{
    Stamp {
        seconds: read_big(pdu, at, 4),
        nanoseconds: read_big(pdu, at + 4, 4),
    }
}

// The delays of a delay reply.
fn delays_in(pdu: &[u8], receive: Stamp) -> Decision
    ensures { result ≡ delay_reply_of pdu.now receive }
{
    if pdu.len() < 28 {
        return Decision::Drops(Drop::CutOff);
    }
    Decision::Delays(measure_delay(
        stamp_at(pdu, 4),
        stamp_at(pdu, 12),
        stamp_at(pdu, 20),
        receive,
    ))
}

// A message for us, by who handles it: D5 where the fixed part of its opcode is not all there, which a good one never gets, else the
// handler's line of rules 5 to 8.
pub fn handle_message(
    set: &Set,
    names: &Names,
    ids: &Slots,
    pdu: &[u8],
    receive: Stamp,
    handler: Handler,
) -> Decision
    ensures { result ≡ handled_of (lent_settings set names ids) pdu.now receive handler }
{
    match handler {
        Handler::Nobody => Decision::Drops(Drop::Opcode),
        Handler::ReaderOnly => Decision::Drops(Drop::Opcode),
        Handler::Continuity => Decision::Changes(Change::Told(ccm_signal(set, names, ids, pdu))),
        Handler::Loopback => Decision::Replies(Request::Loopback),
        Handler::Alarm => Decision::Changes(Change::Told(Signal::Alarm { code: code_in(pdu) })),
        Handler::Lock => Decision::Changes(Change::Told(Signal::Lock { code: code_in(pdu) })),
        Handler::LossReply => reading_in(pdu),
        Handler::LossRequest => Decision::Replies(Request::Loss),
        Handler::DelayReply => delays_in(pdu, receive),
        Handler::DelayRequest => Decision::Replies(Request::Delay),
    }
}
