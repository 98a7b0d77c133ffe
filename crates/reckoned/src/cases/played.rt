// The plain values of a scale beside the product's grades.
use crate::dice::{Dice, Drawn};
use crate::second::scale::{Pair, Scale};
use grade::{Grade, Margin, Span, Voices};
use refusal::Refusal;
use std::alloc::{AllocError, Global};
use watch::outcome::Mark;

pub trait Played: Scale + Drawn {
    type Of: Grade;

    fn graded(self) -> Self::Of;

    fn read(grade: Self::Of) -> Self;
}

impl Played for bool {
    type Of = bool;

    fn graded(self) -> bool {
        self
    }

    fn read(grade: bool) -> bool {
        grade
    }
}

impl Drawn for bool {
    fn drawn(dice: &mut Dice) -> bool {
        dice.once_in(2)
    }
}

impl Played for u16 {
    type Of = Voices;

    fn graded(self) -> Voices {
        Voices::new(self)
    }

    fn read(grade: Voices) -> u16 {
        grade.bits()
    }
}

impl Drawn for u16 {
    // Often with most bits set, or with few, so that long holds are not all 0.
    fn drawn(dice: &mut Dice) -> u16 {
        let word = dice.word();
        match dice.up_to(7) {
            0 => word,
            1 => 0xffff,
            2 => 0,
            3 => word & dice.word() & dice.word(),
            _ => word | dice.word() | dice.word(),
        }
    }
}

impl Played for i32 {
    type Of = Margin;

    fn graded(self) -> Margin {
        Margin::new(self)
    }

    fn read(grade: Margin) -> i32 {
        grade.value()
    }
}

impl Drawn for i32 {
    fn drawn(dice: &mut Dice) -> i32 {
        let [a, b, c, d, _, _, _, _] = dice.roll().to_be_bytes();
        match dice.up_to(9) {
            0 => i32::MIN,
            1 => i32::MAX,
            2 => -1,
            3 => 0,
            4 | 5 | 6 => i32::from_be_bytes([a, b, c, d]),
            _ => i32::from(a) - 128,
        }
    }
}

impl<T: Drawn> Drawn for Pair<T> {
    fn drawn(dice: &mut Dice) -> Pair<T> {
        let low = T::drawn(dice);
        let high = T::drawn(dice);
        Pair { low, high }
    }
}

// The ends of a span, as plain values.
pub(crate) fn read_span<P: Played>(span: Span<P::Of>) -> Pair<P> {
    Pair {
        low: P::read(span.low),
        high: P::read(span.high),
    }
}

pub(crate) fn read_mark<P: Played>(mark: Result<Mark<P::Of>, Refusal>) -> Result<Pair<P>, Refusal> {
    mark.map(|mark| read_span::<P>(mark.span))
}

pub(crate) fn graded_all<P: Played>(heap: Global, values: &[P]) -> Result<Vec<P::Of>, AllocError> {
    values.iter().map(|value| value.graded()).collect(heap)
}
