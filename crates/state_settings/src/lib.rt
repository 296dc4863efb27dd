// What a box is set to, and when that is valid.
// The settings are in three lent arrays; any content is a value, and what breaks a rule is tested for and not assumed away.
#![tactic(auto)]

ghost use Rattle.std.specs.Prelude.{◌≡◌, get_or};
ghost use Rattle.state_settings.specs.Settings.{lent_settings, own_named, losspeer_named};
ghost use Rattle.state_settings.specs.Valid.{numbers_good, addresses_good, valid};

use base_compare::same_octets;
use state_peer_ids::peers_good;

// How many peers a box has room for: the code's only 8. The definitions have theirs, `slots`.
pub const PEERS: usize = 8;

// How many words the settings are, and how many octets the names: the definitions have theirs, `set_words` and `name_octets`.
pub const SET: usize = 4;

pub const NAMES: usize = 60;

pub type Set = [u32; SET];

pub type Names = [u8; NAMES];

// A word for each slot of a peer: its ID, its timer, its RDI.
pub type Slots = [u32; PEERS];

// What a box is set to, as it is lent: words, names, and the peers' IDs.
#[derive(Clone, Copy)]
pub struct LentSettings<'a> {
    pub set: &'a Set,
    pub names: &'a Names,
    pub ids: &'a Slots,
}

// Where the settings' words are.
pub const LEVEL: usize = 0;

pub const MEP: usize = 1;

pub const PERIOD: usize = 2;

pub const COUNT: usize = 3;

// Where the names begin: our own address, the loss peer's, the MEG ID.
pub const OWN: usize = 0;

pub const LOSSPEER: usize = 6;

pub const MEG: usize = 12;

// Whether level, MEP ID and period code are within their bounds, and there is a peer.
fn numbers_good(set: &Set) -> bool
    ensures { result ≡
        numbers_good (get_or set.now 0 0) (get_or set.now 1 0) (get_or set.now 2 0) (get_or set.now 3 0) }
{
    (set[LEVEL] <= 7)
        & ((1 <= set[MEP]) & (set[MEP] <= 8191))
        & ((1 <= set[PERIOD]) & (set[PERIOD] <= 7))
        & (1 <= set[COUNT])
}

// Whether both addresses are those of single stations, and differ.
fn addresses_good(names: &Names) -> bool
    ensures { result ≡ addresses_good (own_named names.now) (losspeer_named names.now) }
{
    let all: &[u8] = names;
    let same = same_octets(&all[..LOSSPEER], &all[LOSSPEER..MEG]);
    (names[OWN] % 2 == 0) & (names[LOSSPEER] % 2 == 0) & !same
}

// Whether the settings keep every rule of the paper on their values.
// Three references, and no `LentSettings`: a struct of three is passed in memory, where it is copied once more, and the test of a service
// frame took 11 ns more (49.7 for 38.6).
pub fn is_valid(set: &Set, names: &Names, ids: &Slots) -> bool
    ensures { result ≡ valid (lent_settings set names ids) }
{
    if !numbers_good(set) {
        return false;
    }
    if !addresses_good(names) {
        return false;
    }
    peers_good(ids, set[COUNT], set[MEP])
}
