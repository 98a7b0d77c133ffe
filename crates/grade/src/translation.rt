// Translations: maps from one grade into another that carry every operation.
ghost use Rattle.std.specs.Prelude.{◌≡◌};
ghost use Rattle.grade.specs.Translations.{Carries};

use crate::Grade;

pub mod ends;
pub mod sign;
pub mod voice;

pub trait Translation {
    type From: Grade;

    type To: Grade;

    ghost map: { Self → Self.From → Self.To };

    fn translate(&self, grade: Self::From) -> Self::To
        ensures { result ≡ map self.now grade };

    ghost carries: { (t : Self) → Carries Self.From.Grade.ops Self.To.Grade.ops (map t) };
}
