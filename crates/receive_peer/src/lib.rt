// Whose a CCM of our level is: MEG ID, MEP ID, period. Rule 5 of the paper.
// It looks at the settings and the PDU, and at no state.
#![tactic(auto)]

ghost use Rattle.std.specs.Prelude.{◌≡◌};
ghost use Rattle.state_settings.specs.Settings.{lent_settings};
ghost use Rattle.receive_peer.specs.Peers.{ccm_signal};

use base_bits::{mep_id_of, period_code_of, rdi_of};
use base_compare::same_octets;
use base_numbers::read_big;
use base_words::{front, place_of};
use receive_signals::Signal;
use state_settings::{COUNT, MEG, NAMES, Names, PERIOD, Set, Slots};

// What a CCM's PDU says: another MEG, no peer's MEP ID, or the peer in its slot with its RDI, and whether its period is unlike ours. One
// too short for a MEG ID has not ours.
pub fn ccm_signal(set: &Set, names: &Names, ids: &Slots, pdu: &[u8]) -> Signal
    ensures { result ≡ ccm_signal (lent_settings set names ids) pdu.now }
{
    let all: &[u8] = names;
    if pdu.len() < 58 {
        return Signal::Mismerge;
    }
    if !same_octets(&pdu[10..58], &all[MEG..NAMES]) {
        return Signal::Mismerge;
    }
    let peers = front(ids, set[COUNT]);
    let slot = place_of(peers, mep_id_of(read_big(pdu, 8, 2)));
    if peers.len() <= slot {
        return Signal::UnexpectedMep;
    }
    let rdi = rdi_of(pdu[2]);
    if period_code_of(pdu[2]) != set[PERIOD] {
        return Signal::UnexpectedPeriod { slot, rdi };
    }
    Signal::Heard { slot, rdi }
}
