// Whether a frame is for us: D6, by its addresses, its opcode and its level.
// No frame is looked at here, and no state.
#![tactic(auto)]

ghost use Rattle.std.specs.Prelude.{◌≡◌};
ghost use Rattle.receive_for_us.specs.Ours.{has_group_bit, good_destination, good_source, for_us};

use base_compare::same_octets;
use frame_multicast::is_multicast;
use frame_opcodes::Rule;

// Whether an address is a group's: the lowest bit of its first octet.
fn has_group_bit(address: &[u8]) -> bool
    ensures { result ≡ has_group_bit address.now }
{
    if address.len() == 0 {
        return false;
    }
    address[0] % 2 == 1
}

// Whether a destination is good: our address, or the multicast address of the frame's level where the opcode may go there.
pub fn good_destination(own: &[u8], multicast: bool, level: u32, destination: &[u8]) -> bool
    ensures { result ≡ good_destination own.now multicast level destination.now }
{
    same_octets(destination, own) | (multicast & is_multicast(destination, level))
}

// Whether a source is good: a request is not from a group, what only the loss peer may send is from it.
fn good_source(losspeer: &[u8], only: bool, request: bool, source: &[u8]) -> bool
    ensures { result ≡ good_source losspeer.now only request source.now }
{
    let individual = !(request & has_group_bit(source));
    // the loss peer's address is compared only where it counts
    if !only {
        return individual;
    }
    individual & same_octets(source, losspeer)
}

// Whether a frame whose opcode has this row, of this level and with these addresses, is for a box of these addresses, so not D6: our
// address, or the multicast address of the frame's level where the opcode may go there; no request from a group, and no LMR but the loss
// peer's.
pub fn is_for_us(
    own: &[u8],
    losspeer: &[u8],
    rule: Rule,
    level: u32,
    destination: &[u8],
    source: &[u8],
) -> bool
    ensures { result ≡ for_us own.now losspeer.now rule level destination.now source.now }
{
    let to = good_destination(own, rule.multicast, level, destination);
    to & good_source(losspeer, rule.losspeer, rule.request, source)
}
