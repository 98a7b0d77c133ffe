// The watch record: a sheet, and how many frames have been accepted for it.
ghost use Rattle.std.specs.Prelude.{◌+◌, ◌≤◌};
ghost use Rattle.sheet.specs.Sheets.{sheet_of, rule_length};

use sheet::record::Sheet;

mod feed;
mod mark;
mod rows;
mod start;

#[derive(Clone, Copy)]
pub struct Watch {
    sheet: Sheet,
    accepted: u16,
    // Never more than a take has.
    ghost within: { accepted ≤ rule_length (sheet_of sheet) + 1 },
}
