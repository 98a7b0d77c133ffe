// Grades: the values that facts, rows and rules are graded in, as lattices with a flip.
#![tactic(auto)]

ghost use Rattle.std.specs.Prelude.{◌≡◌};
ghost use Rattle.grade.specs.Lattice.{Lattice, Lawful};

pub mod margin;
pub mod neighbours;
pub mod span;
pub mod strip;
#[cfg(test)]
mod tests;
pub mod translation;
pub mod voices;
pub mod yes_no;

pub use margin::Margin;
pub use span::Span;
pub use strip::carry;
pub use translation::Translation;
pub use translation::ends::Ends;
pub use translation::sign::Sign;
pub use translation::voice::Voice;
pub use voices::Voices;

// An answer depends on the operands alone: each is an equality with a member of `ops`.
pub trait Grade: Copy {
    ghost ops: { Lattice Self };

    fn top() -> Self
        ensures { result ≡ ops.top };

    fn bottom() -> Self
        ensures { result ≡ ops.bottom };

    fn below(self, other: Self) -> bool
        ensures { result ≡ ops.le self other };

    fn meet(self, other: Self) -> Self
        ensures { result ≡ ops.meet self other };

    fn join(self, other: Self) -> Self
        ensures { result ≡ ops.join self other };

    fn flip(self) -> Self
        ensures { result ≡ ops.flip self };

    ghost lawful: { Lawful ops };
}
