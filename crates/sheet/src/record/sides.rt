// Whether a sheet reaches some fact both plain and turned, found in one sweep from the last row down:
// by the time that a row is come to, every row that could name it has been passed.
ghost use Rattle.std.specs.Prelude.{false, Decides, slice_index_or};
ghost use Rattle.sheet.specs.Sheets.{sheet_of};
ghost use Rattle.sheet.specs.Sides.{OneSided};
ghost use Rattle.sheet.specs.SideSteps.{HandedOn, FactsReached};

use crate::placed::Placed;
use crate::record::Sheet;
use crate::row::Row;

// One of two sides: the rows reached under an even number of nots, with the facts reached plain; or
// the rows reached under an odd number, with the facts reached turned.
#[derive(Clone, Copy)]
struct Side {
    rows: [bool; 32],
    facts: [bool; 16],
}

impl Placed {
    // Raises what this row names and reads, if it is itself raised on the side `same`: on that side, or
    // on the other if it turns what it names or reads.
    fn hand_on(self, same: &mut Side, other: &mut Side)
        ensures { HandedOn self.row (slice_index_or same.old.rows self.at false) same.old other.old same.new other.new }
    {
        if !same.rows[self.at as usize] {
            return;
        }
        match self.row {
            Row::Hold { fact, .. } => same.facts[fact as usize] = true,
            Row::HoldOff { fact, .. } => other.facts[fact as usize] = true,
            Row::Not { row } => other.rows[row as usize] = true,
            _ => self.raise_named(&mut same.rows),
        }
    }
}

impl Sheet {
    // The facts that are reached plain, and those that are reached turned.
    fn facts_reached(&self) -> ([bool; 16], [bool; 16])
        ensures { FactsReached (sheet_of self.now) result.0 result.1 }
    {
        let mut plain = Side {
            rows: [false; 32],
            facts: [false; 16],
        };
        let mut turned = plain;
        plain.rows[self.count as usize - 1] = true;
        for k in (0..self.count).rev() {
            let row = Placed {
                row: self.rows[k as usize],
                at: k,
            };
            row.hand_on(&mut plain, &mut turned);
            row.hand_on(&mut turned, &mut plain);
        }
        (plain.facts, turned.facts)
    }

    // Whether no fact is reached both plain and turned, along any chain of naming from the last row.
    pub fn sided(&self) -> bool
        ensures { Decides result (OneSided (sheet_of self.now)) }
    {
        let (plain, turned) = self.facts_reached();
        !plain
            .iter()
            .zip(&turned)
            .any(|(plain, turned)| *plain && *turned)
    }
}
