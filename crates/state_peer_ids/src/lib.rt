// The MEP IDs of the peers, slot by slot: a part of whether settings are valid.
// Used slots and unused ones are tested apart. Over eight slots the compiler lays out all turns of both loops one after the other, a
// comparison and a jump for each pair of IDs; tests of all pairs over all slots took longer. Over sixty-four the pairs are too many: a
// table with a bit for each ID can take their place in used_good, under the same contract.
#![tactic(auto)]

ghost use Rattle.std.specs.Prelude.{◌&&◌, ◌≡◌, ◌≤◌, length, take};
ghost use Rattle.base_laws.specs.Lists.{every, distinct};
ghost use Rattle.state_peer_ids.specs.Ids.{id_good, peers_good};

use base_distinct::is_absent;
use base_words::zero_from;

// Whether a word may be a peer's MEP ID, beside our own.
fn id_good(mep: u32, id: u32) -> bool
    ensures { result ≡ id_good mep id }
{
    (1 <= id) & (id <= 8191) & (id != mep)
}

// Whether each of the first words, as many as are used, may be one, and no two are alike: none is at a slot before its own.
fn used_good(ids: &[u32], used: usize, mep: u32) -> bool
    requires { used ≤ length ids.now }
    ensures { result ≡ (every (id_good mep) (take used ids.now) && distinct (take used ids.now)) }
{
    for i in 0..used {
        let id = ids[i];
        if !id_good(mep, id) {
            return false;
        }
        if !is_absent(&ids[..i], id) {
            return false;
        }
    }
    true
}

// Whether the used slots come first, hold IDs that are no two alike and none our own, and the others hold 0.
pub fn peers_good(ids: &[u32], count: u32, mep: u32) -> bool
    ensures { result ≡ peers_good count mep ids.now }
{
    let used = count as usize;
    if ids.len() < used {
        return false;
    }
    if !used_good(ids, used, mep) {
        return false;
    }
    zero_from(ids, used)
}
