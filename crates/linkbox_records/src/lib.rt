// The boundary to C: stored settings and loss lines read and written, answered in the paper's numbers.
// These are for firmware in C or Rust: linkbox_c exports them, and linkbox.h and linkbox_raw.h declare them. Each calls the Rattle function
// of the same call and returns its answer in numbers. Any content of the memory is accepted.
#![tactic(auto)]

ghost use Rattle.std.specs.Prelude.{◌≡◌};
ghost use Rattle.base_laws.specs.Ended.{wrote, told_by};
ghost use Rattle.state_settings.specs.Settings.{slots, lent_settings, Shaped};
ghost use Rattle.stored_record.specs.Writing.{record_told};
ghost use Rattle.stored_settings.specs.SettingsRecord.{read_settings, write_settings};
ghost use Rattle.stored_line.specs.LineCalls.{write_line, line_numbers};

use state_settings::{Names, Set, Slots};
use stored_line::{LineTold, LossLine};
use stored_record::RecordTold;
use stored_settings_body::SettingsRead;

// The settings of a stored record, or refusal 7 and zeros.
pub fn linkbox_read_settings(from: &[u8]) -> SettingsRead
    ensures { result ≡ read_settings from.now }
{
    stored_settings::read_settings(from)
}

// Writes settings as a record into the front of the buffer.
pub fn linkbox_raw_write_settings(
    into: &mut [u8],
    set: &Set,
    names: &Names,
    ids: &Slots,
) -> RecordTold
    ensures into_after { wrote result into.new ≡
        told_by record_told (write_settings (lent_settings set names ids) into.old) }
    ensures shaped { Shaped slots (lent_settings set names ids) }
{
    let answer = stored_settings::write_settings(into, set, names, ids);
    stored_record::tell(answer)
}

// The loss line of a stored record, or refusal 7 and zeros.
pub fn linkbox_read_line(from: &[u8]) -> LineTold
    ensures { result ≡ line_numbers from.now }
{
    let answer = stored_line_calls::read_line(from);
    stored_line::tell(answer)
}

// Writes a loss line as a record into the front of the buffer.
pub fn linkbox_write_line(into: &mut [u8], line: LossLine) -> RecordTold
    ensures { wrote result into.new ≡ told_by record_told (write_line line into.old) }
{
    let answer = stored_line_calls::write_line(into, line);
    stored_record::tell(answer)
}
