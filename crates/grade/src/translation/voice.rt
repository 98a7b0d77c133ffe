// A voice: one bit of the sixteen as a yes or a no.
ghost use Rattle.std.specs.Prelude.{◌≡◌, ◌%◌, ◌<◌};
ghost use Rattle.grade.specs.Voices.{heard};
ghost use Rattle.grade.specs.HeardLaws.{heard_carries};

use super::Translation;
use crate::voices::Voices;

#[derive(Clone, Copy, Debug, PartialEq, Eq)]
pub struct Voice {
    bit: u8,
    ghost fits: { bit < 16 },
}

impl Voice {
    // Any number names a voice: they are counted round and round.
    pub fn new(number: u8) -> Voice
        ensures { result.bit ≡ number % 16 }
    {
        Voice { bit: number % 16 }
    }
}

impl Translation for Voice {
    type From = Voices;

    type To = bool;

    ghost map = { λ v. heard v.bit };

    ghost carries = { λ v. heard_carries v.bit v.fits };

    fn translate(&self, grade: Voices) -> bool {
        (grade.bits() >> self.bit) % 2 == 1
    }
}
