// A translation of spans: their two ends, each by the translation of the grades.
ghost use Rattle.grade.specs.Translations.{by_ends};
ghost use Rattle.grade.specs.SpanLaws.{ends_carry};

use super::Translation;
use crate::Grade;
use crate::span::Span;

#[derive(Clone, Copy)]
pub struct Ends<T> {
    pub each: T,
}

impl<T: Translation> Translation for Ends<T> {
    type From = Span<T::From>;

    type To = Span<T::To>;

    ghost map = { λ e. by_ends (T.Translation.map e.each) };

    ghost carries = { λ e. ends_carry (T.Translation.carries e.each) };

    fn translate(&self, grade: Span<T::From>) -> Span<T::To> {
        Span {
            low: self.each.translate(grade.low),
            high: self.each.translate(grade.high),
        }
    }
}
