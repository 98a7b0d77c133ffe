// Spans of any grade as grades, end by end, and what is asked of one.
ghost use Rattle.std.specs.Prelude.{◌≡◌, Decides};
ghost use Rattle.grade.specs.Spans.{spans, exact, unknown, encloses, lies_within};
ghost use Rattle.grade.specs.SpanLaws.{spans_lawful};

use super::Span;
use crate::Grade;

impl<G: Grade> Grade for Span<G> {
    ghost ops = { spans G.Grade.ops };

    ghost lawful = { spans_lawful G.Grade.lawful };

    fn top() -> Span<G> {
        Span::exact(G::top())
    }

    fn bottom() -> Span<G> {
        Span::exact(G::bottom())
    }

    fn below(self, other: Span<G>) -> bool {
        self.low.below(other.low) & self.high.below(other.high)
    }

    fn meet(self, other: Span<G>) -> Span<G> {
        Span {
            low: self.low.meet(other.low),
            high: self.high.meet(other.high),
        }
    }

    fn join(self, other: Span<G>) -> Span<G> {
        Span {
            low: self.low.join(other.low),
            high: self.high.join(other.high),
        }
    }

    // The flip turns the order round, so the ends trade places.
    fn flip(self) -> Span<G> {
        Span {
            low: self.high.flip(),
            high: self.low.flip(),
        }
    }
}

impl<G: Grade> Span<G> {
    pub fn exact(grade: G) -> Span<G>
        ensures { result ≡ exact grade }
    {
        Span {
            low: grade,
            high: grade,
        }
    }

    pub fn unknown() -> Span<G>
        ensures { result ≡ unknown G.Grade.ops }
    {
        Span {
            low: G::bottom(),
            high: G::top(),
        }
    }

    pub fn is_exact(self) -> bool
        ensures { Decides result (self.low ≡ self.high) }
    {
        self.low.below(self.high) & self.high.below(self.low)
    }

    pub fn encloses(self, grade: G) -> bool
        ensures { result ≡ encloses G.Grade.ops self grade }
    {
        self.low.below(grade) & grade.below(self.high)
    }

    pub fn within(self, other: Span<G>) -> bool
        ensures { result ≡ lies_within G.Grade.ops self other }
    {
        other.encloses(self.low) & other.encloses(self.high)
    }
}
