// Changes the bytes of a sheet in ways that are likely to be refused.
use crate::dice::Dice;
use std::alloc::{AllocError, Global};

fn put(bytes: &mut Vec<u8>, at: usize, value: u8) {
    if let Some(place) = bytes.get_mut(at) {
        *place = value;
    }
}

// A change of a row: of its kind, or of an operand.
fn spoil_row(dice: &mut Dice, bytes: &mut Vec<u8>, rows: u8) {
    let row = dice.below(usize::from(rows)) & 0xff;
    let kind = 2 + row;
    let operands = 2 + usize::from(rows) + 3 * row;
    let operand = operands + (dice.below(3) & 3);
    match dice.up_to(6) {
        0 => put(bytes, kind, dice.up_to(247) + 8),
        1 | 2 => put(bytes, kind, dice.up_to(7)),
        3 => put(bytes, operand, dice.up_to(255)),
        4 | 5 => put(bytes, operand, dice.up_to(rows)),
        _ => put(bytes, operands, 255),
    }
}

// A change of the sizes, or of how many bytes there are.
fn spoil_size(dice: &mut Dice, bytes: &mut Vec<u8>, rows: u8) {
    match dice.up_to(6) {
        0 => put(bytes, 0, 0),
        1 => put(bytes, 0, dice.up_to(238) + 17),
        2 => put(bytes, 1, rows.saturating_add(1)),
        3 => put(bytes, 1, rows.saturating_sub(1)),
        4 => put(bytes, 1, dice.up_to(255)),
        5 => bytes.truncate(dice.below(bytes.len())),
        _ => {
            let _ = bytes.push(dice.up_to(255));
        }
    }
}

// The bytes with one change.
pub(crate) fn spoiled(heap: Global, dice: &mut Dice, bytes: &[u8]) -> Result<Vec<u8>, AllocError> {
    let mut out = Vec::from_slice(heap, bytes)?;
    let rows = bytes.get(1).copied().unwrap_or(0);
    match dice.up_to(9) {
        0 => spoil_size(dice, &mut out, rows),
        1 => {
            let at = dice.below(bytes.len());
            put(&mut out, at, dice.up_to(255));
        }
        _ => spoil_row(dice, &mut out, rows),
    }
    Ok(out)
}
