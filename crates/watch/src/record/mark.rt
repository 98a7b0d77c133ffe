// Marking: what the rule can still come to, and with it every row at every start.
ghost use Rattle.std.specs.Prelude.{◌≡◌, ◌*◌, ◌≤◌, length};
ghost use Rattle.sheet.specs.Rules.{row_at};
ghost use Rattle.watch.specs.Feeding.{progress_of, take_length};
ghost use Rattle.watch.specs.Marking.{Marked};
ghost use Rattle.watch.specs.Cells.{Ready, RowCharted};

use crate::outcome::Mark;
use crate::record::Watch;
use crate::record::rows::write_row;
use grade::{Grade, Span};
use refusal::Refusal;
use sheet::row::Row;

impl Watch {
    // Writes the cells of row `at`, which is `row`. A row that is longer than the rule has none.
    fn mark_row<G: Grade>(&self, log: &[G], chart: &mut [Span<G>], at: usize, row: Row)
        requires ready { Ready G.Grade.ops (progress_of self.now) log.now at chart.old }
        requires row { row ≡ row_at (progress_of self.now).sheet.rows at }
        requires room { length (progress_of self.now).sheet.rows * take_length (progress_of self.now).sheet ≤ length chart.old }
        ensures { RowCharted G.Grade.ops (progress_of self.now) log.now at chart.old chart.new }
    {
        let frames = self.frames();
        let length = self.sheet.lengths()[at] as usize;
        if length < frames {
            let (below, rest) = chart.split_at_mut(at * frames);
            write_row(self, log, at, below, row, &mut rest[..frames - length]);
        }
    }

    // The worst and the best that the rule can still come to: an accepted frame counts with its grades in the log, any other one
    // as if it could be anything. The chart then holds the same for every row at every start from which it ends within the take.
    pub fn mark<G: Grade>(&self, log: &[G], chart: &mut [Span<G>]) -> Result<Mark<G>, Refusal>
        ensures { Marked G.Grade.ops (progress_of self.now) log.now chart.old chart.new result }
    {
        let frames = self.frames();
        let rows = self.sheet.rows();
        if log.len() < self.sheet.facts() as usize * frames {
            return Err(Refusal::ShortLog);
        }
        if chart.len() < rows.len() * frames {
            return Err(Refusal::ShortChart);
        }
        for (at, row) in rows.iter().enumerate() {
            self.mark_row(log, chart, at, *row);
        }
        let (_, rule) = chart.split_at((rows.len() - 1) * frames);
        let span = rule[0];
        Ok(Mark {
            span,
            settled: span.is_exact(),
        })
    }
}
