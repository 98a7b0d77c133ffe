// One row of a sheet: a task of a rule, over facts or over lower rows.
ghost use Rattle.std.specs.Prelude.{◌≡◌};
ghost use Rattle.sheet.specs.Rows.{operands_of};
ghost use Rattle.sheet.specs.Rules.{in_range};
ghost use Rattle.sheet.specs.Kinds.{OfKind};

use refusal::Refusal;

#[derive(Clone, Copy, Debug, PartialEq, Eq)]
pub enum Row {
    // Nothing is asked.
    Always,
    // The fact is yes for `duration` + 1 frames.
    Hold { duration: u8, fact: u8 },
    // The fact is no for `duration` + 1 frames.
    HoldOff { duration: u8, fact: u8 },
    Both { left: u8, right: u8 },
    Either { left: u8, right: u8 },
    Not { row: u8 },
    // `left`, and from the frame after its end on `right`.
    Then { left: u8, right: u8 },
    // `row` somewhere inside the frames `from` to `to`.
    Within { from: u8, to: u8, row: u8 },
}

// The row of a kind with three operands, of which it takes those that the kind has use for.
impl TryFrom<(u8, [u8; 3])> for Row {
    type Error = Refusal;

    ghost try_from_gives = { OfKind };

    fn try_from((kind, [p, q, r]): (u8, [u8; 3])) -> Result<Row, Refusal> {
        match kind {
            0 => Ok(Row::Always),
            1 => Ok(Row::Hold {
                duration: p,
                fact: q,
            }),
            2 => Ok(Row::HoldOff {
                duration: p,
                fact: q,
            }),
            3 => Ok(Row::Both { left: p, right: q }),
            4 => Ok(Row::Either { left: p, right: q }),
            5 => Ok(Row::Not { row: p }),
            6 => Ok(Row::Then { left: p, right: q }),
            7 => Ok(Row::Within {
                from: p,
                to: q,
                row: r,
            }),
            _ => Err(Refusal::Kind),
        }
    }
}

// Its operands, 0 where its kind has no use for one.
impl From<Row> for [u8; 3] {
    ghost from_gives = { λ row operands. operands ≡ operands_of row };

    fn from(row: Row) -> [u8; 3] {
        match row {
            Row::Always => [0, 0, 0],
            Row::Hold { duration, fact } | Row::HoldOff { duration, fact } => [duration, fact, 0],
            Row::Both { left, right } | Row::Either { left, right } | Row::Then { left, right } => [
                left, right, 0,
            ],
            Row::Not { row } => [row, 0, 0],
            Row::Within { from, to, row } => [from, to, row],
        }
    }
}

impl Row {
    // Whether it may be row `at` of a sheet of so many facts.
    pub(crate) fn in_range(self, facts: u8, at: u8) -> bool
        ensures { result ≡ in_range facts at self }
    {
        match self {
            Row::Always => true,
            Row::Hold { fact, .. } | Row::HoldOff { fact, .. } => fact < facts,
            Row::Both { left, right } | Row::Either { left, right } | Row::Then { left, right } =>
                left < at && right < at,
            Row::Not { row } => row < at,
            Row::Within { from, to, row } => row < at && from <= to,
        }
    }
}
