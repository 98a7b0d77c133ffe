// Reading a sheet from bytes.
ghost use Rattle.std.specs.Prelude.{◌≡◌, true, ◌↔◌, is_ok, is_err, Err};
ghost use Rattle.sheet.specs.declared.fault.Fault.{Fault};
ghost use Rattle.sheet.specs.Bytes.{bytes_of, SheetBytes};
ghost use Rattle.sheet.specs.Conditions.{RefusedFor};
ghost use Rattle.sheet.specs.Loading.{judged, load_result};
ghost use Rattle.sheet.specs.Steps.{body_in};
ghost use Rattle.sheet.specs.Sheets.{judged_as, sheet_of, verdict_of};

use crate::body::Body;
use crate::fault::Fault;
use crate::record::Sheet;
use refusal::Refusal;

impl Body<'_> {
    // The sheet that the bytes stand for.
    fn sheet(&self) -> Result<Sheet, Fault>
        ensures { judged_as result ≡ judged (body_in self.now) }
    {
        let draft = self.draft()?;
        if let Some(row) = draft.first_unnamed() {
            return Err(Fault::new(Refusal::Unnamed, row));
        }
        if let Some(row) = draft.first_wrong_inner() {
            return Err(Fault::new(Refusal::Inner, row));
        }
        Ok(Sheet {
            facts: self.facts,
            count: self.count,
            rows: draft.rows,
            lengths: draft.lengths,
        })
    }
}

impl Sheet {
    // Makes this the sheet that the bytes are; where they are none, it stays as it was.
    pub fn load(&mut self, bytes: &[u8]) -> Result<(), Fault>
        ensures outcome { verdict_of result self.new ≡ load_result bytes.now }
        ensures unchanged { is_err result ≡ true → self.new ≡ self.old }
        ensures succeeds { is_ok result ≡ true ↔ SheetBytes bytes.now }
        ensures same_rows { is_ok result ≡ true → bytes_of (sheet_of self.new) ≡ bytes.now }
        ensures refuses { (f : Fault) → (result ≡ Err f) ↔ RefusedFor bytes.now f.refusal f.row }
    {
        let [facts, rows, rest @ ..] = bytes else {
            return Err(Fault::new(Refusal::Sizes, 0));
        };
        *self = Body::new(*facts, *rows, rest)?.sheet()?;
        Ok(())
    }
}
