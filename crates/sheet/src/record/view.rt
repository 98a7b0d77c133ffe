// What a sheet says, read off its record.
ghost use Rattle.std.specs.Prelude.{◌≡◌, ℕ, ◌<◌, length, slice_index};
ghost use Rattle.sheet.specs.Rules.{Keeps, length_of, row_at};
ghost use Rattle.sheet.specs.Sheets.{sheet_of, smallest, rule_length};

use crate::record::Sheet;
use crate::row::Row;

impl Sheet {
    // The smallest sheet: one fact, and one row that is always met.
    pub fn new() -> Sheet
        ensures { sheet_of result ≡ smallest }
    {
        Sheet {
            facts: 1,
            count: 1,
            rows: [Row::Always; 32],
            lengths: [0; 32],
        }
    }

    // How many facts a frame has.
    pub fn facts(&self) -> u8
        ensures { result ≡ (sheet_of self.now).facts }
    {
        self.facts
    }

    // The rows, the rule last. They keep the rules, whatever was done to the record before.
    pub fn rows(&self) -> &[Row]
        ensures rows { result.now ≡ (sheet_of self.now).rows }
        ensures keeps { Keeps (sheet_of self.now) }
    {
        &self.rows[..self.count as usize]
    }

    // The length of each row.
    pub fn lengths(&self) -> &[u8]
        ensures count { length result.now ≡ length (sheet_of self.now).rows }
        ensures each { (k : ℕ) → k < length result.now → slice_index result.now k ≡ length_of (row_at (sheet_of self.now).rows) k }
    {
        &self.lengths[..self.count as usize]
    }

    // The length of the rule. A take has one frame more.
    pub fn length(&self) -> u8
        ensures { result ≡ rule_length (sheet_of self.now) }
    {
        self.lengths[self.count as usize - 1]
    }
}
