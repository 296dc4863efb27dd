// The body of a stored record of settings, read into the three arrays of settings.
// Nothing is tested here.
#![tactic(auto)]

ghost use Rattle.std.specs.Prelude.{◌≡◌, ◌*◌, ◌≤◌, length};
ghost use Rattle.state_settings.specs.Settings.{slots};
ghost use Rattle.stored_settings_body.specs.Body.{ids_in, body_length, settings_in};
ghost use Rattle.stored_settings_body.specs.Lying.{names_of, given};

use base_numbers::read_little;
use base_octets::copy_octets;
use state_settings::{LOSSPEER, MEG, NAMES, Names, OWN, PEERS, Set, Slots};

// Where the IDs begin in the body.
pub const IDS: usize = 65;

// The octets of the body.
pub const BODY: usize = IDS + 2 * PEERS;

// What reading a record is answered: the refusal, or 0, and the settings in their arrays, all 0 beside a refusal. A number and no
// `Result`: C is given this struct.
#[repr(C)]
#[derive(Clone, Copy)]
pub struct SettingsRead {
    pub refusal: u32,
    pub set: Set,
    pub names: Names,
    pub ids: Slots,
}

// Reads an ID for each place of `ids` from the octets' front, two octets each.
fn read_ids(ids: &mut [u32], from: &[u8])
    requires { 2 * length ids.old ≤ length from.now }
    ensures { ids.new ≡ ids_in (length ids.old) from.now }
{
    for (i, id) in ids.iter_mut().enumerate() {
        *id = read_little(from, 2 * i, 2);
    }
}

// The names of a body as they are in memory: own address, loss peer, MEG ID.
fn names_of(body: &[u8]) -> Names
    requires { body_length slots ≤ length body.now }
    ensures { result ≡ names_of (settings_in slots body.now) }
{
    let mut names = [0u8; NAMES];
    copy_octets(&mut names, OWN, &body[3..9]);
    copy_octets(&mut names, LOSSPEER, &body[58..64]);
    copy_octets(&mut names, MEG, &body[10..58]);
    names
}

// The settings that a body holds, taken as they are: nothing is tested.
pub fn settings_of(body: &[u8; BODY]) -> SettingsRead
    ensures { result ≡ given (settings_in slots body.now) }
{
    let all: &[u8] = body;
    // level, MEP ID, period code, peer count
    let set = [
        read_little(all, 0, 1),
        read_little(all, 1, 2),
        read_little(all, 9, 1),
        read_little(all, 64, 1),
    ];
    let names = names_of(all);
    let mut ids = [0u32; PEERS];
    read_ids(&mut ids, &all[IDS..]);
    SettingsRead {
        refusal: 0,
        set,
        names,
        ids,
    }
}
