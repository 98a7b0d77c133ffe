// What windows are taken of: values that stand side by side.
ghost use Rattle.std.specs.Prelude.{◌≡◌, ℕ, ◌*◌, ◌<◌, ◌≤◌, length, slice_index_or};
ghost use Rattle.formula.specs.Known.{known};
ghost use Rattle.watch.specs.Marking.{log_trace};

use grade::{Grade, Span};

pub(crate) trait Source<V> {
    // The values, and where there is one.
    ghost at: { Self → ℕ → V };

    ghost has: { Self → ℕ → Type 0 };

    fn value(&self, t: usize) -> V
        requires { has self.now t }
        ensures { result ≡ at self.now t };
}

// What is known of a fact, frame by frame, from a log with so many facts in a frame.
#[derive(Drop)]
pub(crate) struct Fact<'a, G> {
    pub log: &'a [G],
    pub facts: usize,
    pub accepted: usize,
    pub fact: usize,
    ghost is_one: { fact < facts },
    ghost logged: { accepted * facts ≤ length log.now },
}

impl<'a, G: Grade> Source<Span<G>> for Fact<'a, G> {
    ghost at = { λ f t. known G.Grade.ops f.accepted (log_trace G.Grade.ops f.facts f.log.now) t f.fact };

    ghost has = { λ f t. Unit {0} };

    fn value(&self, t: usize) -> Span<G> {
        if t < self.accepted {
            Span::exact(self.log[t * self.facts + self.fact])
        } else {
            Span::unknown()
        }
    }
}

#[derive(Drop)]
pub(crate) struct Flipped<S> {
    pub source: S,
}

impl<V: Grade, S: Source<V>> Source<V> for Flipped<S> {
    ghost at = { λ f t. V.Grade.ops.flip (S.at f.source t) };

    ghost has = { λ f t. S.has f.source t };

    fn value(&self, t: usize) -> V {
        self.source.value(t).flip()
    }
}

#[derive(Drop)]
pub(crate) struct Cells<'a, V> {
    pub cells: &'a [V],
}

impl<'a, V: Grade> Source<V> for Cells<'a, V> {
    ghost at = { λ c t. slice_index_or c.cells.now t V.Grade.ops.bottom };

    ghost has = { λ c t. t < length c.cells.now };

    fn value(&self, t: usize) -> V {
        self.cells[t]
    }
}
