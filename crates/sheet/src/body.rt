// The bytes of a sheet, looked at from its sizes on.
ghost use Rattle.std.specs.Prelude.{◌≡◌, ◌<◌, true, false, MatchResult};
ghost use Rattle.refusal.specs.declared.Refusal.TheVariants.{Sizes};
ghost use Rattle.sheet.specs.Bytes.{body_of, sizes_right};

use crate::draft::Draft;
use crate::fault::Fault;
use crate::placed::Placed;
use crate::row::Row;
use refusal::Refusal;

// The sizes, and all that comes after them. The sizes are in their bounds, and fit what comes after.
#[derive(Drop)]
pub(crate) struct Body<'a> {
    pub(crate) facts: u8,
    pub(crate) count: u8,
    rest: &'a [u8],
    ghost right: { sizes_right (body_of facts count rest.now) ≡ true },
}

impl<'a> Body<'a> {
    ghost use Rattle.sheet.specs.Steps.{body_in, Fits, Measures, RowRead, RowsRead};
    ghost use Rattle.sheet.specs.Loading.{row_fault};

    pub(crate) fn new(facts: u8, count: u8, rest: &'a [u8]) -> Result<Body<'a>, Fault>
        ensures { MatchResult result (λ body. body_in body ≡ body_of facts count rest.now) (λ f. (sizes_right (body_of facts count rest.now) ≡ false) × (f ≡ record { refusal = Sizes; row = 0 })) }
    {
        if (1..=16).contains(&facts)
            && (1..=32).contains(&count)
            && rest.len() == 4 * count as usize
        {
            Ok(Body { facts, count, rest })
        } else {
            Err(Fault::new(Refusal::Sizes, 0))
        }
    }

    // Row k, if its kind and operands are right.
    fn row(&self, k: u8) -> Result<Placed, Refusal>
        requires { k < self.now.count }
        ensures { MatchResult result (λ placed. Fits (body_in self.now) k placed.row × (placed.at ≡ k)) (λ r. row_fault (body_in self.now) k ≡ Some r) }
    {
        let at = self.count as usize + 3 * k as usize;
        let operands = [self.rest[at], self.rest[at + 1], self.rest[at + 2]];
        let row = Row::try_from((self.rest[k as usize], operands))?;
        if <[u8; 3]>::from(row) == operands && row.in_range(self.facts, k) {
            Ok(Placed { row, at: k })
        } else {
            Err(Refusal::Operand)
        }
    }

    // Row k with its length, where `lengths` has those of the lower rows.
    fn row_and_length(&self, k: u8, lengths: &[u8; 32]) -> Result<(Row, u8), Refusal>
        requires within { k < self.now.count }
        requires measured { Measures (body_in self.now) k lengths.now }
        ensures { RowRead (body_in self.now) k result }
    {
        let placed = self.row(k)?;
        let length = u8::try_from(placed.length(lengths)).map_err(|_| Refusal::Length)?;
        Ok((placed.row, length))
    }

    // Every row with its length, or the lowest that is refused.
    pub(crate) fn draft(&self) -> Result<Draft, Fault>
        ensures { RowsRead (body_in self.now) result }
    {
        let mut rows = [Row::Always; 32];
        let mut lengths = [0; 32];
        for k in 0..self.count {
            let (row, length) = self
                .row_and_length(k, &lengths)
                .map_err(|refusal| Fault::new(refusal, k))?;
            rows[k as usize] = row;
            lengths[k as usize] = length;
        }
        Ok(Draft {
            count: self.count,
            rows,
            lengths,
        })
    }
}
