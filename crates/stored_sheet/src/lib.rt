// The text of a sheet: specs/ says what it is; its first line is all the code there is.
#![tactic(auto)]

ghost use Rattle.std.specs.Prelude.{◌≡◌};
ghost use Rattle.stored_sheet.specs.Sheet.{header_text};

// The first line of a sheet.
pub fn header() -> [u8; 19]
    ensures { result ≡ header_text }
{
    *b"intervals near far\n"
}
