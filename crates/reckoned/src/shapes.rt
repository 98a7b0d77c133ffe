// The shapes of sheets that the cases are made of.
use crate::dice::Dice;
use crate::draft::Shape;

// Any sheet, and some that are none: up to 33 rows, long holds, rules that are not kept.
pub(crate) fn wild(dice: &mut Dice) -> Shape {
    let rows = dice.up_to(32) + 1;
    Shape {
        facts: dice.up_to(15) + 1,
        rows: if dice.once_in(3) { rows } else { rows.min(8) },
        hold: if dice.once_in(2) { 255 } else { 12 },
        most: 255,
        depth: dice.up_to(8) + 2,
        careful: !dice.once_in(4),
    }
}

// Sheets whose takes are short enough to mark often, with many rows on some.
pub(crate) fn playable(dice: &mut Dice) -> Shape {
    let rows = dice.up_to(31) + 1;
    Shape {
        facts: if dice.once_in(3) {
            dice.up_to(15) + 1
        } else {
            dice.up_to(2) + 1
        },
        rows: if dice.once_in(3) { rows } else { rows.min(9) },
        hold: if dice.once_in(6) { 60 } else { 6 },
        most: if dice.once_in(6) { 90 } else { 30 },
        depth: dice.up_to(8) + 2,
        careful: true,
    }
}

// Sheets to be made 255 long by two rows more.
pub(crate) fn stretchable(dice: &mut Dice) -> Shape {
    Shape {
        facts: dice.up_to(15) + 1,
        rows: dice.up_to(29) + 1,
        hold: 120,
        most: 255,
        depth: dice.up_to(6) + 2,
        careful: true,
    }
}

// Sheets that are small enough to try a row on every two frames.
pub(crate) fn small(dice: &mut Dice) -> Shape {
    Shape {
        facts: dice.up_to(2) + 1,
        rows: dice.up_to(13) + 1,
        hold: 4,
        most: 12,
        depth: dice.up_to(4) + 2,
        careful: true,
    }
}
