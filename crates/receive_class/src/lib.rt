// What a frame is to the box: service, too short, above, inside, below, our own level.
// This is the first thing decided about a frame. It looks at the level that is set, the side, the length, the EtherType and the first
// octet of the PDU, and at nothing else. It is a step and not an answer, so it has no numbers. What is shorter than a head counts as
// service; `receive_frame` has refused it with 1 before. The side is an enum, so a caller in Rattle has no third one.
#![tactic(auto)]

ghost use Rattle.std.specs.Prelude.{◌≡◌};
ghost use Rattle.receive_class.specs.Class.{by_side, class_of};

use frame_head::{HEAD_LENGTH, is_oam, level};

// Where a frame comes from: the link, or the equipment on our own end.
#[derive(Clone, Copy)]
pub enum Side {
    Active,
    Passive,
}

// What a frame is to the box.
#[derive(Clone, Copy)]
pub enum Class {
    // No OAM frame: it passes and is counted.
    Service,
    // D1: an OAM frame shorter than 18.
    Short,
    // Of a level above ours: it passes.
    Above,
    // D2: of our level or a lower one, from the passive side.
    Inside,
    // Of a lower level, from the active side.
    Below,
    // Of our level, from the active side.
    Own,
}

// What a frame that is not above our level is, by the side it comes from.
fn by_side(ours: u32, side: Side, theirs: u32) -> Class
    ensures { result ≡ by_side ours side theirs }
{
    match side {
        Side::Passive => Class::Inside,
        Side::Active => {
            if theirs < ours {
                Class::Below
            } else {
                Class::Own
            }
        }
    }
}

// What a frame is to a box of this level: service, too short (D1), above, inside (D2), below or our own level.
pub fn class_of(ours: u32, side: Side, frame: &[u8]) -> Class
    ensures { result ≡ class_of ours side frame.now }
{
    if !is_oam(frame) {
        return Class::Service;
    }
    if frame.len() < HEAD_LENGTH + 4 {
        return Class::Short;
    }
    let theirs = level(frame);
    if ours < theirs {
        return Class::Above;
    }
    by_side(ours, side, theirs)
}
