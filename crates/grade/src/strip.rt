// Carrying a strip of grades through a translation into another strip.
ghost use Rattle.std.specs.Prelude.{◌≡◌, length};
ghost use Rattle.grade.specs.Strips.{Carried, carried_answer, carried};

use crate::translation::Translation;
use refusal::Refusal;

pub fn carry<T: Translation>(t: &T, from: &[T::From], to: &mut [T::To]) -> Result<(), Refusal>
    ensures whole { Carried (T.map t.now) from.now to.old to.new result }
    ensures answer { result ≡ carried_answer (length from.now) (length to.old) }
    ensures strip { to.new ≡ carried (T.map t.now) from.now to.old }
{
    if from.len() != to.len() {
        return Err(Refusal::UnequalStrips);
    }
    for (i, place) in to.iter_mut().enumerate() {
        *place = t.translate(from[i]);
    }
    Ok(())
}
