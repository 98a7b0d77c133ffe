// The cells of a row, of any grade, from other cells place by place, or from the windows of a source.
//
// Windows are taken in blocks of as many starts as a window is wide. Each is then the rest of its block and, but for the first, a
// beginning of the next. The rests are folded from the end down, straight into the cells, and the beginnings up: some three
// operations for a cell, however wide the window is, and no room beside the cells.
ghost use Rattle.std.specs.Prelude.{◌≡◌, ℕ, ◌+◌, ◌-◌, ◌^◌, ◌<◌, ◌≤◌, length};
ghost use Rattle.watch.specs.Windows.{over, Holds};

use crate::fold::Fold;
use crate::source::Source;
use grade::Grade;

pub(crate) fn fill<V: Grade>(value: V, cells: &mut [V])
    ensures { Holds (λ _. value) cells.new }
{
    for cell in cells.iter_mut() {
        *cell = value;
    }
}

pub(crate) fn flips<V: Grade>(row: &[V], cells: &mut [V])
    requires { length cells.old ≤ length row.now }
    ensures { (at : ℕ → V) → Holds at row.now → Holds (λ s. V.Grade.ops.flip (at s)) cells.new }
{
    for (s, cell) in cells.iter_mut().enumerate() {
        *cell = row[s].flip();
    }
}

pub(crate) fn pair<V: Grade, F: Fold<V>>(fold: F, left: &[V], right: &[V], cells: &mut [V])
    requires left { length cells.old ≤ length left.now }
    requires right { length cells.old ≤ length right.now }
    ensures { (one other : ℕ → V) → Holds one left.now → Holds other right.now → Holds (λ s. F.combine (one s) (other s)) cells.new }
{
    for (s, cell) in cells.iter_mut().enumerate() {
        *cell = fold.combine(left[s], right[s]);
    }
}

// The fold of `count` values from `start` on.
fn folded<V: Grade, F: Fold<V>, S: Source<V>>(fold: F, source: &S, start: usize, count: usize) -> V
    requires fits { start + count < 2 ^ 64 }
    requires values { (t : ℕ) → t < start + count → S.has source.now t }
    ensures { result ≡ over F.none F.combine (S.at source.now) start count }
{
    let mut all = fold.none();
    for j in (0..count).rev() {
        all = fold.combine(source.value(start + j), all);
    }
    all
}

// To each cell of a block the rest of it, which ends `width` places from its start.
fn rests<V: Grade, F: Fold<V>, S: Source<V>>(
    fold: F,
    source: &S,
    start: usize,
    width: usize,
    cells: &mut [V],
)
    requires block { length cells.old ≤ width }
    requires fits { start + width < 2 ^ 64 }
    requires values { (t : ℕ) → t < start + width → S.has source.now t }
    ensures { Holds (λ j. over F.none F.combine (S.at source.now) (start + j) (width - j)) cells.new }
{
    let count = cells.len();
    let mut rest = folded(fold, source, start + count, width - count);
    for j in (0..count).rev() {
        rest = fold.combine(source.value(start + j), rest);
        cells[j] = rest;
    }
}

// Each cell is folded with a beginning of what comes next: one value for the first cell, and a value more for each later one.
fn beginnings<V: Grade, F: Fold<V>, S: Source<V>>(fold: F, source: &S, next: usize, cells: &mut [V])
    requires fits { next + length cells.old < 2 ^ 64 }
    requires values { (t : ℕ) → t < next + length cells.old → S.has source.now t }
    ensures { (rest : ℕ → V) → Holds rest cells.old → Holds (λ j. F.combine (rest j) (over F.none F.combine (S.at source.now) next (j + 1))) cells.new }
{
    let mut beginning = fold.none();
    for (j, cell) in cells.iter_mut().enumerate() {
        beginning = fold.combine(beginning, source.value(next + j));
        *cell = fold.combine(*cell, beginning);
    }
}

// The windows of a block.
fn block<V: Grade, F: Fold<V>, S: Source<V>>(
    fold: F,
    source: &S,
    start: usize,
    width: usize,
    cells: &mut [V],
)
    requires some { 1 ≤ length cells.old }
    requires block { length cells.old ≤ width }
    requires fits { start + width + length cells.old ≤ 2 ^ 64 }
    requires values { (t : ℕ) → t + 1 < start + length cells.old + width → S.has source.now t }
    ensures { Holds (λ j. over F.none F.combine (S.at source.now) (start + j) width) cells.new }
{
    rests(fold, source, start, width, cells);
    beginnings(fold, source, start + width, &mut cells[1..]);
}

// To each cell the fold of the `width` values from its place on.
pub(crate) fn slide<V: Grade, F: Fold<V>, S: Source<V>>(
    fold: F,
    source: &S,
    width: usize,
    cells: &mut [V],
)
    requires some { 1 ≤ width }
    requires fits { length cells.old + width < 2 ^ 64 }
    requires values { (t : ℕ) → t + 1 < length cells.old + width → S.has source.now t }
    ensures { Holds (λ s. over F.none F.combine (S.at source.now) s width) cells.new }
{
    let count = cells.len();
    for start in (0..count).step_by(width) {
        let end = count.min(start + width);
        block(fold, source, start, width, &mut cells[start..end]);
    }
}
