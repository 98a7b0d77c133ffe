// The sheet record. Its type carries the rules, so that nobody who is handed one tests them again.
ghost use Rattle.std.specs.Prelude.{◌≡◌, ℕ, ◌<◌, ◌≤◌, length, take, slice_index};
ghost use Rattle.sheet.specs.Rules.{RowsRight, RowsShort, RowsNamed, InnerRight, length_of, row_at};

use crate::row::Row;

mod load;
mod sides;
mod view;

#[derive(Clone, Copy)]
pub struct Sheet {
    facts: u8,
    count: u8,
    rows: [Row; 32],
    lengths: [u8; 32],
    ghost sized: { length rows ≡ 32 },
    ghost spanned: { length lengths ≡ 32 },
    ghost some_fact: { 1 ≤ facts },
    ghost few_facts: { facts ≤ 16 },
    ghost some_row: { 1 ≤ count },
    ghost few_rows: { count ≤ 32 },
    ghost right: { RowsRight facts count (row_at (take count rows)) },
    ghost short: { RowsShort count (row_at (take count rows)) },
    ghost all_named: { RowsNamed count (row_at (take count rows)) },
    ghost inner_right: { InnerRight count (row_at (take count rows)) },
    // The length of each row, by the table.
    ghost measured: { (k : ℕ) → k < count → slice_index lengths k ≡ length_of (row_at (take count rows)) k },
}
