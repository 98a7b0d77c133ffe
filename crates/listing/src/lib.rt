// A sheet in words that a designer can read.
#![tactic(auto)]

ghost use Rattle.std.specs.Prelude.{◌≡◌, ◌<◌, ◌≤◌, Some, IfOk, replicate, string_bytes};
ghost use Rattle.refusal.specs.Numbers.{number_of};
ghost use Rattle.report.specs.Texts.{notice_text};
ghost use Rattle.sheet.specs.Loading.{load_result};
ghost use Rattle.sheet.specs.Sheets.{sheet_of};
ghost use Rattle.listing.specs.Words.{task_text, row_line, sides_text, listing_text, Tells};

use report::notice;
use sheet::fault::Fault;
use sheet::record::Sheet;
use sheet::row::Row;
use std::alloc::{AllocError, Global};
use std::fmt;

// What a row asks for.
#[derive(Clone, Copy)]
struct Task(Row);

impl fmt::Display for Task {
    ghost output = { λ task. Some (task_text task.0) };

    fn fmt<W: fmt::Write>(&self, f: &mut fmt::Formatter<W>) -> fmt::Result {
        match self.0 {
            Row::Always => write!(f, "always"),
            Row::Hold { duration, fact } => write!(f, "hold {duration} of fact {fact}"),
            Row::HoldOff { duration, fact } => write!(f, "hold-off {duration} of fact {fact}"),
            Row::Both { left, right } => write!(f, "both row {left} and row {right}"),
            Row::Either { left, right } => write!(f, "either row {left} or row {right}"),
            Row::Not { row } => write!(f, "not row {row}"),
            Row::Then { left, right } => write!(f, "row {left} then row {right}"),
            Row::Within { from, to, row } => write!(f, "within {from} to {to} of row {row}"),
        }
    }
}

// The line of a row.
#[derive(Clone, Copy)]
struct Line {
    index: usize,
    row: Row,
    length: u8,
}

impl fmt::Display for Line {
    ghost output = { λ line. Some (row_line line.index line.row line.length) };

    fn fmt<W: fmt::Write>(&self, f: &mut fmt::Formatter<W>) -> fmt::Result {
        write!(
            f,
            "{}  {}, length {}\n",
            self.index,
            Task(self.row),
            self.length
        )
    }
}

fn sides(sided: bool) -> &'static str
    ensures { result.now ≡ sides_text sided }
{
    if sided { "one-sided" } else { "not one-sided" }
}

// A sheet, and whether each of its facts is reached one way only.
#[derive(Clone, Copy)]
struct InWords<'a> {
    sheet: &'a Sheet,
    sided: bool,
}

impl fmt::Display for InWords<'_> {
    ghost output = { λ words. Some (listing_text (sheet_of words.sheet.now) words.sided) };

    fn fmt<W: fmt::Write>(&self, f: &mut fmt::Formatter<W>) -> fmt::Result {
        let rows = self.sheet.rows();
        write!(
            f,
            "facts {}, rows {}, length {}, {}\n",
            self.sheet.facts(),
            rows.len(),
            self.sheet.length(),
            sides(self.sided)
        )?;
        for (index, (row, length)) in rows.iter().zip(self.sheet.lengths()).enumerate() {
            let line = Line {
                index,
                row: *row,
                length: *length,
            };
            write!(f, "{line}")?;
        }
        Ok(())
    }
}

// The whole listing of a sheet.
pub fn listing(heap: Global, sheet: &Sheet, sided: bool) -> Result<String, AllocError>
    ensures { IfOk result (λ t. string_bytes t ≡ listing_text (sheet_of sheet.now) sided) }
{
    InWords { sheet, sided }.to_string(heap)
}

// The notice of why bytes are no sheet. A row above 99 has none, and then there are 14 bytes 0.
pub fn notice_of(fault: Fault) -> [u8; 14]
    ensures told { fault.row ≤ 99 → result ≡ notice_text (number_of fault.refusal) fault.row }
    ensures none { 99 < fault.row → result ≡ replicate 14 0 }
{
    let mut place = [0; 14];
    let _ = notice(&mut place, fault.refusal.number(), fault.row);
    place
}

// What is to be told of any bytes: the listing of the sheet that they are, or the notice of why they are none.
pub fn told(heap: Global, bytes: &[u8]) -> Result<Vec<u8>, AllocError>
    ensures { IfOk result (λ v. Tells (load_result bytes.now) v.items) }
{
    let mut sheet = Sheet::new();
    match sheet.load(bytes) {
        Ok(()) => {
            let text = listing(heap, &sheet, sheet.sided())?;
            Vec::from_slice(heap, text.as_bytes())
        }
        Err(fault) => Vec::from_slice(heap, &notice_of(fault)),
    }
}
