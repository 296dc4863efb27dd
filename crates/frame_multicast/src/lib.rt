// The multicast address of a level, 01-80-C2-00-00-3x: one prefix, compared on receipt and written into sent CCMs.
// No function needs anything.
#![tactic(auto)]

ghost use Rattle.std.specs.Prelude.{◌≡◌};
ghost use Rattle.base_laws.specs.Lists.{same};
ghost use Rattle.frame_multicast.specs.Multicast.{multicast_of, last_of};

use base_compare::same_octets;

// The first five octets of every level's address.
const PREFIX: [u8; 5] = [0x01, 0x80, 0xc2, 0x00, 0x00];

// The last octet of a level's address, from the low three bits of the level.
fn last_of(level: u32) -> u8
    ensures { result ≡ last_of level }
{
    (0x30 | (level & 7)) as u8
}

// Whether an address is the multicast address of a level.
pub fn is_multicast(address: &[u8], level: u32) -> bool
    ensures { result ≡ same address.now (multicast_of level) }
{
    if address.len() != 6 {
        return false;
    }
    same_octets(&address[..5], &PREFIX) & (address[5] == last_of(level))
}

// The multicast address of a level.
pub fn multicast_of(level: u32) -> [u8; 6]
    ensures { result ≡ multicast_of level }
{
    [
        PREFIX[0],
        PREFIX[1],
        PREFIX[2],
        PREFIX[3],
        PREFIX[4],
        last_of(level),
    ]
}
