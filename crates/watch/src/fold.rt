// The two ways to make one grade of many.
ghost use Rattle.std.specs.Prelude.{◌≡◌};
ghost use Rattle.watch.specs.Windows.{Folding};
ghost use Rattle.watch.specs.Lattices.{meet_folds, join_folds};

use grade::Grade;

pub(crate) trait Fold<V>: Copy {
    ghost none: { V };

    ghost combine: { V → V → V };

    // The fold of no value.
    fn none(self) -> V
        ensures { result ≡ none };

    fn combine(self, one: V, other: V) -> V
        ensures { result ≡ combine one other };

    ghost folds: { Folding none combine };
}

#[derive(Clone, Copy)]
pub(crate) struct Meet;

#[derive(Clone, Copy)]
pub(crate) struct Join;

impl<V: Grade> Fold<V> for Meet {
    ghost none = { V.Grade.ops.top };

    ghost combine = { V.Grade.ops.meet };

    ghost folds = { meet_folds V.Grade.lawful };

    fn none(self) -> V {
        V::top()
    }

    fn combine(self, one: V, other: V) -> V {
        one.meet(other)
    }
}

impl<V: Grade> Fold<V> for Join {
    ghost none = { V.Grade.ops.bottom };

    ghost combine = { V.Grade.ops.join };

    ghost folds = { join_folds V.Grade.lawful };

    fn none(self) -> V {
        V::bottom()
    }

    fn combine(self, one: V, other: V) -> V {
        one.join(other)
    }
}
