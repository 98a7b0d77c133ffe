// A sheet whose rows are right each by itself, and what they are refused for together.
ghost use Rattle.std.specs.Prelude.{◌≡◌, ℕ, ◌-◌, ◌<◌, ◌≤◌, true, false, length, slice_index, slice_index_or};
ghost use Rattle.refusal.specs.declared.Refusal.TheVariants.{Unnamed, Inner};
ghost use Rattle.sheet.specs.Rows.{facts_of, named_by};
ghost use Rattle.sheet.specs.Rules.{all_under, length_of, row_at};

use crate::placed::Placed;
use crate::row::Row;

// `lengths` stands before `rows`, so that a draft is copied in parts of at most 128 bytes: a longer one would be left to `memcpy`,
// which `check` would then need from whoever links it to C.
#[derive(Drop)]
pub(crate) struct Draft {
    pub(crate) lengths: [u8; 32],
    pub(crate) count: u8,
    pub(crate) rows: [Row; 32],
    ghost sized: { length rows ≡ 32 },
    ghost spanned: { length lengths ≡ 32 },
    ghost some: { 1 ≤ count },
    ghost few: { count ≤ 32 },
    ghost names_lower: { (k : ℕ) → k < count → all_under k (named_by (row_at rows k)) ≡ true },
    ghost reads_few: { (k : ℕ) → k < count → all_under 16 (facts_of (row_at rows k)) ≡ true },
    ghost measured: { (k : ℕ) → slice_index lengths k ≡ length_of (row_at rows) k },
}

impl Draft {
    ghost use Rattle.sheet.specs.Rules.{named};
    ghost use Rattle.sheet.specs.Loading.{name_fault, inner_fault, is_inner};
    ghost use Rattle.sheet.specs.Faults.{FindsLowest};

    fn row(&self, k: u8) -> Placed
        requires { k < self.now.count }
        ensures { (result.row ≡ row_at self.now.rows k) × (result.at ≡ k) }
    {
        Placed {
            row: self.rows[k as usize],
            at: k,
        }
    }

    // Which rows some row names.
    fn named(&self) -> [bool; 32]
        ensures { (k : ℕ) → slice_index_or result k false ≡ named (row_at self.now.rows) self.now.count k }
    {
        let mut named = [false; 32];
        for k in 0..self.count {
            self.row(k).raise_named(&mut named);
        }
        named
    }

    // Which rows are inner, found from the last row down: by the time that a row is come to, every row
    // that could make it inner has been passed.
    fn inner(&self) -> [bool; 32]
        ensures { (k : ℕ) → slice_index_or result k false ≡ is_inner (row_at self.now.rows) self.now.count k }
    {
        let mut inner = [false; 32];
        for k in (0..self.count).rev() {
            self.row(k).raise_inner(&mut inner);
        }
        inner
    }

    // The lowest row but the last that no row names.
    pub(crate) fn first_unnamed(&self) -> Option<u8>
        ensures { FindsLowest (name_fault self.now.count (row_at self.now.rows)) (self.now.count - 1) Unnamed result }
    {
        let named = self.named();
        (0..self.count - 1).find(|k| !named[*k as usize])
    }

    // The lowest row that is inner and may not be.
    pub(crate) fn first_wrong_inner(&self) -> Option<u8>
        ensures { FindsLowest (inner_fault self.now.count (row_at self.now.rows)) self.now.count Inner result }
    {
        let inner = self.inner();
        (0..self.count).find(|k| inner[*k as usize] && !self.row(*k).may_be_inner(&self.lengths))
    }
}
