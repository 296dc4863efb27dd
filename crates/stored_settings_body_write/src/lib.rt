// The body of a stored record of settings, written from the three arrays of settings.
// Nothing is tested here.
#![tactic(auto)]

ghost use Rattle.std.specs.Prelude.{[], ◌≡◌, ◌+◌, ◌*◌, ◌≤◌, length};
ghost use Rattle.base_laws.specs.Lists.{laid};
ghost use Rattle.state_settings.specs.Settings.{settings_of, lent_settings};
ghost use Rattle.stored_settings_body.specs.Body.{ids_place, fields_before, ids_octets, settings_body};

use base_numbers::write_little;
use base_octets::copy_octets;
use state_settings::{COUNT, LEVEL, LOSSPEER, MEG, MEP, NAMES, Names, OWN, PERIOD, Set, Slots};
use stored_settings_body::{BODY, IDS};

// Writes the IDs at a place, two octets each.
fn write_ids(into: &mut [u8], at: usize, ids: &[u32])
    requires { at + 2 * length ids.now ≤ length into.old }
    ensures { into.new ≡ laid at (ids_octets ids.now) into.old }
{
    for (i, &id) in ids.iter().enumerate() {
        write_little(into, at + 2 * i, 2, id);
    }
}

// Writes the fields in front of the IDs.
fn put_fields(into: &mut [u8], set: &Set, names: &Names)
    requires { ids_place ≤ length into.old }
    ensures { into.new ≡
        laid 0 (fields_before (settings_of set.now names.now [])) into.old }
{
    let all: &[u8] = names;
    write_little(into, 0, 1, set[LEVEL]);
    write_little(into, 1, 2, set[MEP]);
    copy_octets(into, 3, &all[OWN..LOSSPEER]);
    write_little(into, 9, 1, set[PERIOD]);
    copy_octets(into, 10, &all[MEG..NAMES]);
    copy_octets(into, 58, &all[LOSSPEER..MEG]);
    write_little(into, 64, 1, set[COUNT]);
}

// The body of settings: nothing is tested, and what does not fit in a field's octets is left out.
pub fn body_of(set: &Set, names: &Names, ids: &Slots) -> [u8; BODY]
    ensures { result ≡ settings_body (lent_settings set names ids) }
{
    // a view of an array has its length, and costs nothing
    let _all: &[u8] = names;
    let mut body = [0u8; BODY];
    put_fields(&mut body, set, names);
    write_ids(&mut body, IDS, ids);
    body
}
