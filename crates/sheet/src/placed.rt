// A row at its place in a sheet. Its type carries what makes its numbers safe to go by: it names only
// lower rows, and reads only facts that a sheet can have.
ghost use Rattle.std.specs.Prelude.{◌≡◌, ℕ, ◌<◌, true, false, ◌||◌, slice_index, slice_index_or};
ghost use Rattle.sheet.specs.Rows.{facts_of, named_by, row_length, may_be_inner};
ghost use Rattle.sheet.specs.Rules.{has, all_under};
ghost use Rattle.sheet.specs.Loading.{passes};

use crate::row::Row;

// `at` stands before `row`, so that a row which was just written is read back in one piece: the other way round it is read
// across two writes, and reading a sheet takes up to twice the time.
#[derive(Clone, Copy)]
pub(crate) struct Placed {
    pub(crate) at: u8,
    pub(crate) row: Row,
    ghost among: { at < 32 },
    ghost names_lower: { all_under at (named_by row) ≡ true },
    ghost reads_few: { all_under 16 (facts_of row) ≡ true },
}

impl Placed {
    // Its length, where `lengths` has those of the lower rows.
    pub(crate) fn length(self, lengths: &[u8; 32]) -> u16
        ensures { result ≡ row_length (λ i. slice_index lengths.now i) self.row }
    {
        match self.row {
            Row::Always => 0,
            Row::Hold { duration, .. } | Row::HoldOff { duration, .. } => u16::from(duration),
            Row::Both { left, right } | Row::Either { left, right } => {
                u16::from(lengths[left as usize].max(lengths[right as usize]))
            }
            Row::Not { row } => u16::from(lengths[row as usize]),
            Row::Then { left, right } => u16::from(lengths[left as usize])
                + u16::from(lengths[right as usize])
                + 1,
            Row::Within { to, .. } => u16::from(to),
        }
    }

    // Whether it may be an inner row.
    pub(crate) fn may_be_inner(self, lengths: &[u8; 32]) -> bool
        ensures { result ≡ may_be_inner (λ i. slice_index lengths.now i) self.row }
    {
        match self.row {
            Row::Not { .. } => false,
            Row::Either { left, right } => lengths[left as usize] == lengths[right as usize],
            _ => true,
        }
    }

    // Raises the flag of each row that this one names.
    pub(crate) fn raise_named(self, flags: &mut [bool; 32])
        ensures { (k : ℕ) → slice_index_or flags.new k false ≡ (slice_index_or flags.old k false || has (named_by self.row) k) }
    {
        match self.row {
            Row::Both { left, right } | Row::Either { left, right } | Row::Then { left, right } => {
                flags[left as usize] = true;
                flags[right as usize] = true;
            }
            Row::Not { row } | Row::Within { row, .. } => flags[row as usize] = true,
            Row::Always | Row::Hold { .. } | Row::HoldOff { .. } => {}
        }
    }

    // Raises the flag of each row that this one makes inner, where its own flag says whether it is.
    pub(crate) fn raise_inner(self, flags: &mut [bool; 32])
        ensures { (k : ℕ) → slice_index_or flags.new k false ≡ (slice_index_or flags.old k false || passes self.row (slice_index_or flags.old self.at false) k) }
    {
        let inner = flags[self.at as usize];
        match self.row {
            Row::Then { left, .. } if !inner => flags[left as usize] = true,
            Row::Within { row, .. } => flags[row as usize] = true,
            _ if inner => self.raise_named(flags),
            _ => {}
        }
    }
}
