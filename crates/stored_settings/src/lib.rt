// The stored record of kind 1, settings: read into the three arrays of settings, and written from them.
// The answer of a read is the struct that C is given, with the refusal's number in it, and no `Result`.
#![tactic(auto)]

ghost use Rattle.std.specs.Prelude.{◌≡◌};
ghost use Rattle.base_laws.specs.Ended.{wrote};
ghost use Rattle.state_settings.specs.Settings.{slots, lent_settings, Shaped};
ghost use Rattle.stored_record.specs.Writing.{record_told};
ghost use Rattle.stored_settings.specs.SettingsRecord.{refused_read, read_settings, write_settings, settings_written_numbers};

use base_octets::copy_octets;
use state_settings::{NAMES, Names, PEERS, SET, Set, Slots, is_valid};
use stored_record::{HEAD, RecordRefusal, is_record, write_record};
use stored_settings_body::{BODY, SettingsRead, settings_of};
use stored_settings_body_write::body_of;

// The number by which a record of settings is known.
const KIND: u16 = 1;

// Refusal 7, and zeros.
fn none() -> SettingsRead
    ensures { result ≡ refused_read }
{
    SettingsRead {
        refusal: 7,
        set: [0; SET],
        names: [0; NAMES],
        ids: [0; PEERS],
    }
}

// Reads the settings of the record at the octets' front; refusal 7 where there is none, or its settings break a rule. What is behind the
// record is not looked at.
pub fn read_settings(from: &[u8]) -> SettingsRead
    ensures { result ≡ read_settings from.now }
{
    if !is_record(from, KIND, BODY) {
        return none();
    }
    let mut body = [0u8; BODY];
    copy_octets(&mut body, 0, &from[HEAD..HEAD + BODY]);
    let read = settings_of(&body);
    let set = read.set;
    let names = read.names;
    let ids = read.ids;
    if !is_valid(&set, &names, &ids) {
        return none();
    }
    read
}

// Writes the record of settings into the front of the buffer: refusal 4 where they break a rule, then 3 where there is no room.
pub fn write_settings(
    into: &mut [u8],
    set: &Set,
    names: &Names,
    ids: &Slots,
) -> Result<usize, RecordRefusal>
    ensures into_after { (wrote result into.new ≡ write_settings (lent_settings set names ids) into.old)
        × (record_told result ≡ settings_written_numbers (lent_settings set names ids) into.old) }
    ensures shaped { Shaped slots (lent_settings set names ids) }
{
    // a view of an array has its length, and costs nothing
    let _names: &[u8] = names;
    let _ids: &[u32] = ids;
    let good = is_valid(set, names, ids);
    let body = body_of(set, names, ids);
    write_record(into, KIND, &body, good)
}
