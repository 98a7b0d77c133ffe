// Marks with a promise that reaches further than the one call.
ghost use Rattle.grade.specs.YesNo.{yes_no};
ghost use Rattle.watch.specs.Feeding.{progress_of};
ghost use Rattle.watch.specs.Marking.{Marked};
ghost use Rattle.watch.specs.Life.{marked, Lived};
ghost use Rattle.watch.specs.Verdict.{Settles};
ghost use Rattle.watch.specs.Played.{PlayedLife};

use crate::outcome::Mark;
use crate::record::Watch;
use grade::{Span, Translation};
use refusal::Refusal;

// A mark, with what is promised of the whole life that led to it, for a translation of its grade.
pub fn judge<T: Translation>(
    watch: &Watch,
    log: &[T::From],
    chart: &mut [Span<T::From>],
) -> Result<Mark<T::From>, Refusal>
    ensures mark { Marked T.From.Grade.ops (progress_of watch.now) log.now chart.old chart.new result }
    ensures whole_life { (t : T) → Lived T.From.Grade.ops T.To.Grade.ops (T.map t) (progress_of watch.now) log.now (marked chart.old result) }
{
    watch.mark(log, chart)
}

// The mark of a take of yes and no, which on a complete take is its verdict.
pub fn settle(watch: &Watch, log: &[bool], cells: &mut [Span<bool>]) -> Result<Mark<bool>, Refusal>
    ensures mark { Marked yes_no (progress_of watch.now) log.now cells.old cells.new result }
    ensures published { Settles (progress_of watch.now) log.now result }
{
    watch.mark(log, cells)
}

// A life that was played: that there is one, and what is promised of it.
pub fn played_life()
    ensures { PlayedLife }
{}
