// What is done with a frame, decided from the settings and the frame alone: no state is looked at.
// Rules 1 to 5 and 8 of the paper; which requests rule 6 answers, and which counts rule 7 takes. It is given the settings, the frame, its
// side and the receive stamp, and no other part of the state, so nothing else can bear on the decision. A frame is decided first and
// carried out after. A change is one case of the decision and not a second answer beside it: a drop, a pass or a reply could else come
// with a change that does not belong to it. Rule 3's drop, which changes something, is a change whose answer is D2.
#![tactic(auto)]

ghost use Rattle.std.specs.Prelude.{◌≡◌, ◌≤◌, length, true};
ghost use Rattle.frame_head.specs.Head.{behind_head, oam_frame, pdu_of, opcode_of};
ghost use Rattle.frame_opcodes.specs.Opcodes.{rule_of};
ghost use Rattle.state_settings.specs.Settings.{lent_settings, own_named, losspeer_named};
ghost use Rattle.receive_decide.specs.Decide.{is_ours, below_of, own_of, count_of, decide_of};
ghost use Rattle.receive_decide.specs.OneLook.{look_at};

use base_bits::period_code_of;
use base_stamp::Stamp;
use frame_head::{LONGEST, destination, level, pdu_of, source};
use frame_message::{code_good, good_opcode};
use frame_opcodes::{Rule, rule_of};
use frame_tlvs::tlvs_whole;
use receive_answer::Drop;
use receive_change::Change;
use receive_class::{Class, Side, class_of};
use receive_for_us::{good_destination, is_for_us};
use receive_handle::{Decision, handle_message};
use state_settings::{LEVEL, LOSSPEER, MEG, Names, Set, Slots};

// Whether a frame whose opcode has this row is for us.
fn for_us(names: &Names, frame: &[u8], rule: Rule) -> bool
    requires behind_head_in_bounds { behind_head 4 ≤ length frame.now }
    requires rule_value { rule ≡ rule_of (opcode_of (pdu_of frame.now)) }
    ensures { result ≡ is_ours (own_named names.now) (losspeer_named names.now) frame.now }
{
    let all: &[u8] = names;
    let to = destination(frame);
    let from = source(frame);
    is_for_us(
        &all[..LOSSPEER],
        &all[LOSSPEER..MEG],
        rule,
        level(frame),
        to,
        from,
    )
}

// Rule 3: a frame of a lower level is dropped; a good CCM for us is remembered. A CCM may come from anybody.
fn below(names: &Names, frame: &[u8]) -> Decision
    requires { behind_head 4 ≤ length frame.now }
    ensures { result ≡ below_of (own_named names.now) (losspeer_named names.now) frame.now }
{
    let all: &[u8] = names;
    let to = destination(frame);
    let ours = good_destination(&all[..LOSSPEER], true, level(frame), to);
    if (good_opcode(frame) == 1) & ours {
        return Decision::Changes(Change::UnexpectedLevel);
    }
    Decision::Drops(Drop::Level)
}

// Rule 4: a frame of our own level, whose opcode has this row, is looked at once: D3, D4, D5, D6 and D7 in turn, or good.
fn look(names: &Names, frame: &[u8], rule: Rule) -> Result<(), Drop>
    requires behind_head_in_bounds { behind_head 4 ≤ length frame.now }
    requires rule_value { rule ≡ rule_of (opcode_of (pdu_of frame.now)) }
    ensures { result ≡ look_at (own_named names.now) (losspeer_named names.now) frame.now }
{
    if !rule.handled {
        return Err(Drop::Opcode);
    }
    // refused before
    if LONGEST < frame.len() {
        return Err(Drop::Short);
    }
    let pdu = pdu_of(frame);
    let offset = pdu[3] as usize;
    if offset < rule.least {
        return Err(Drop::Offset);
    }
    if !tlvs_whole(pdu, 4 + offset) {
        return Err(Drop::CutOff);
    }
    if !for_us(names, frame, rule) {
        return Err(Drop::Destination);
    }
    if !code_good(rule, period_code_of(pdu[2])) {
        return Err(Drop::Value);
    }
    Ok(())
}

// Rule 4: a frame of our own level is dropped, or handled by its opcode's row.
fn own_level(set: &Set, names: &Names, ids: &Slots, frame: &[u8], receive: Stamp) -> Decision
    requires behind_head_in_bounds { behind_head 4 ≤ length frame.now }
    requires frame_value { oam_frame frame.now ≡ true }
    ensures { result ≡ own_of (lent_settings set names ids) frame.now receive }
{
    let pdu = pdu_of(frame);
    let rule = rule_of(pdu[1]);
    match look(names, frame, rule) {
        Err(drop) => Decision::Drops(drop),
        Ok(()) => {
            let handler = rule.handler;
            handle_message(set, names, ids, pdu, receive, handler)
        }
    }
}

// A service frame is counted by its side.
fn count(side: Side) -> Change
    ensures { result ≡ count_of side }
{
    match side {
        Side::Active => Change::Received,
        Side::Passive => Change::Sent,
    }
}

// Decides what is done with a frame, by rules 1 to 4 in their order: it is dropped, passes, changes something, is replied to, or has its
// delays measured.
pub fn decide(
    set: &Set,
    names: &Names,
    ids: &Slots,
    side: Side,
    frame: &[u8],
    receive: Stamp,
) -> Decision
    ensures { result ≡ decide_of (lent_settings set names ids) side frame.now receive }
{
    match class_of(set[LEVEL], side, frame) {
        Class::Service => Decision::Changes(count(side)),
        Class::Short => Decision::Drops(Drop::Short),
        Class::Above => Decision::Passes,
        Class::Inside => Decision::Drops(Drop::Level),
        Class::Below => below(names, frame),
        Class::Own => own_level(set, names, ids, frame, receive),
    }
}
