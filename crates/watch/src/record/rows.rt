// The cells of one row, from the facts or from the cells of the rows that it names.
ghost use Rattle.std.specs.Prelude.{◌≡◌, ℕ, ◌+◌, ◌-◌, ◌<◌, ◌≤◌, length};
ghost use Rattle.grade.specs.Spans.{spans};
ghost use Rattle.formula.specs.Formula.{within};
ghost use Rattle.formula.specs.Grades.{grade};
ghost use Rattle.formula.specs.Known.{known};
ghost use Rattle.sheet.specs.Rules.{row_at};
ghost use Rattle.rule.specs.Meaning.{formula_at};
ghost use Rattle.watch.specs.Feeding.{progress_of, take_length};
ghost use Rattle.watch.specs.Marking.{log_trace, seen, row_span};
ghost use Rattle.watch.specs.Windows.{Holds};
ghost use Rattle.watch.specs.Cells.{long, Ready};

use crate::fold::{Join, Meet};
use crate::record::Watch;
use crate::source::{Cells, Fact, Flipped};
use crate::window::{fill, flips, pair, slide};
use grade::{Grade, Span};
use sheet::row::Row;

// What row `at` is reckoned from: a watch, its log, and the cells of the rows below.
#[derive(Drop)]
struct Basis<'a, G: Grade> {
    watch: &'a Watch,
    log: &'a [G],
    at: usize,
    cells: &'a [Span<G>],
    ghost ready: { Ready G.Grade.ops (progress_of watch.now) log.now at cells.now },
}

impl<'a, G: Grade> Basis<'a, G> {
    fn fact(&self, fact: u8) -> Fact<'a, G>
        requires { fact < (progress_of self.now.watch.now).sheet.facts }
        ensures { (t : ℕ) → known G.Grade.ops result.accepted (log_trace G.Grade.ops result.facts result.log.now) t result.fact ≡ seen G.Grade.ops (progress_of self.now.watch.now) self.now.log.now t fact }
    {
        Fact {
            log: self.log,
            facts: self.watch.sheet.facts() as usize,
            accepted: self.watch.accepted as usize,
            fact: fact as usize,
        }
    }

    // The length of a lower row.
    fn length(&self, row: u8) -> u8
        requires { row < self.now.at }
        ensures { result ≡ long (progress_of self.now.watch.now) row }
    {
        self.watch.sheet.lengths()[row as usize]
    }

    // The cells of a lower row.
    fn row(&self, row: u8) -> &'a [Span<G>]
        requires { row < self.now.at }
        ensures size { length result.now ≡ take_length (progress_of self.now.watch.now).sheet - long (progress_of self.now.watch.now) row }
        ensures grades { Holds (row_span G.Grade.ops (progress_of self.now.watch.now) self.now.log.now row) result.now }
    {
        let frames = self.watch.frames();
        let first = row as usize * frames;
        let count = frames.saturating_sub(self.length(row) as usize);
        &self.cells[first..first + count]
    }

    // The cells of a lower row, from a start on.
    fn row_from(&self, row: u8, start: usize) -> &'a [Span<G>]
        requires row { row < self.now.at }
        requires start { start + long (progress_of self.now.watch.now) row ≤ take_length (progress_of self.now.watch.now).sheet }
        ensures size { length result.now ≡ take_length (progress_of self.now.watch.now).sheet - long (progress_of self.now.watch.now) row - start }
        ensures grades { Holds (λ s. row_span G.Grade.ops (progress_of self.now.watch.now) self.now.log.now row (s + start)) result.now }
    {
        &self.row(row)[start..]
    }

    // The cells of a row that asks for a lower one somewhere inside the frames `from` to `to`.
    fn write_within(&self, from: u8, to: u8, row: u8, cells: &mut [Span<G>])
        requires row { row < self.now.at }
        requires size { length cells.old + to ≡ take_length (progress_of self.now.watch.now).sheet }
        ensures { Holds (grade (spans G.Grade.ops) (seen G.Grade.ops (progress_of self.now.watch.now) self.now.log.now) (within from to (formula_at (progress_of self.now.watch.now).sheet row))) cells.new }
    {
        let width = (to as usize + 1).saturating_sub(from as usize + self.length(row) as usize);
        if width == 0 {
            fill(Span::bottom(), cells);
        } else {
            let lower = Cells {
                cells: self.row_from(row, from as usize),
            };
            slide(Join, &lower, width, cells);
        }
    }

    // Writes the cells of row `at`, which is `row`.
    fn write(&self, row: Row, cells: &mut [Span<G>])
        requires row { row ≡ row_at (progress_of self.now.watch.now).sheet.rows self.now.at }
        requires size { length cells.old + long (progress_of self.now.watch.now) self.now.at ≡ take_length (progress_of self.now.watch.now).sheet }
        ensures { Holds (row_span G.Grade.ops (progress_of self.now.watch.now) self.now.log.now self.now.at) cells.new }
    {
        match row {
            Row::Always => fill(Span::top(), cells),
            Row::Hold { duration, fact } => {
                slide(Meet, &self.fact(fact), duration as usize + 1, cells);
            }
            Row::HoldOff { duration, fact } => {
                let off = Flipped {
                    source: self.fact(fact),
                };
                slide(Meet, &off, duration as usize + 1, cells);
            }
            Row::Both { left, right } => pair(Meet, self.row(left), self.row(right), cells),
            Row::Either { left, right } => pair(Join, self.row(left), self.row(right), cells),
            Row::Not { row } => flips(self.row(row), cells),
            Row::Then { left, right } => {
                let start = self.length(left) as usize + 1;
                pair(Meet, self.row(left), self.row_from(right, start), cells);
            }
            Row::Within { from, to, row } => self.write_within(from, to, row, cells),
        }
    }
}

// Writes the cells of row `at`, which is `row`, from those of the rows below it. The basis is made here and not where the chart is
// split, since nothing would be known there of a chart that a struct had borrowed.
pub(super) fn write_row<G: Grade>(
    watch: &Watch,
    log: &[G],
    at: usize,
    below: &[Span<G>],
    row: Row,
    cells: &mut [Span<G>],
)
    requires ready { Ready G.Grade.ops (progress_of watch.now) log.now at below.now }
    requires row { row ≡ row_at (progress_of watch.now).sheet.rows at }
    requires size { length cells.old + long (progress_of watch.now) at ≡ take_length (progress_of watch.now).sheet }
    ensures { Holds (row_span G.Grade.ops (progress_of watch.now) log.now at) cells.new }
{
    let basis = Basis {
        watch,
        log,
        at,
        cells: below,
    };
    basis.write(row, cells);
}
