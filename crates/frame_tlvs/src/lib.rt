// The TLVs of a PDU: where a walk over them stops.
// It knows of no frame, no opcode and no state, and answers for any octets, any type and any place. The TLVs are said twice: as a
// grammar, `frame_tlvs.Tlvs`, of what is there (a type, two octets of length, a value; the End TLV; padding), and as a walk that says
// where the code stops.
#![tactic(auto)]

ghost use Rattle.std.specs.Prelude.{◌≡◌};
ghost use Rattle.frame_tlvs.specs.Tlvs.{walk_from, Inside, tlvs_whole};

use base_numbers::read_big;

// Where a walk over the TLVs stops: at type 0, at the wanted type (its value's start and length), or at a cut. An enum of its own: each of
// the three has a place, and which of them is a failure is for the caller to say.
#[derive(Clone, Copy)]
pub enum Place {
    End(usize),
    Found { start: usize, len: usize },
    Cut(usize),
}

// Walks over the TLVs of a PDU from a place on, and stops at type 0, at the wanted type, or at a cut; a value that is found is inside.
pub fn walk(pdu: &[u8], kind: u8, start: usize) -> Place
    ensures { (result ≡ walk_from kind start pdu.now) × Inside pdu.now result }
{
    let mut at = start;
    let place = loop {
        if pdu.len() <= at {
            break Place::Cut(at);
        }
        let t = pdu[at];
        if t == 0 {
            break Place::End(at);
        }
        if pdu.len() - at < 3 {
            break Place::Cut(at);
        }
        let n = read_big(pdu, at + 1, 2) as usize;
        if pdu.len() - at - 3 < n {
            break Place::Cut(at);
        }
        if t == kind {
            break Place::Found {
                start: at + 3,
                len: n,
            };
        }
        at = at + 3 + n;
    };
    place
}

// Whether the TLVs of a PDU are whole from a place on: each is all there, and the End TLV comes.
pub fn tlvs_whole(pdu: &[u8], start: usize) -> bool
    ensures { result ≡ tlvs_whole start pdu.now }
{
    match walk(pdu, 0, start) {
        Place::End(_) => true,
        Place::Found { start: _, len: _ } => true,
        Place::Cut(_) => false,
    }
}
