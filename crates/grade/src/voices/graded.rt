// Voices as grades: one word is below another where each bit that it sets is set in the other.
ghost use Rattle.std.specs.Prelude.{◌≡◌};
ghost use Rattle.grade.specs.Voices.{word, voices, OrderByVoices};
ghost use Rattle.grade.specs.VoicesLaws.{voices_lawful};

use super::Voices;
use crate::Grade;

impl Voices {
    pub fn new(bits: u16) -> Voices
        ensures whole { result ≡ word bits }
        ensures bits { result.bits ≡ bits }
    {
        Voices { bits }
    }

    pub fn bits(self) -> u16
        ensures { result ≡ self.bits }
    {
        self.bits
    }

    // What `below` asks, in words of single voices.
    #[tactic(auto, using(crate::specs::VoicesLaws::order_by_voices))]
    pub fn order_by_voices()
        ensures { OrderByVoices }
    {}
}

impl Grade for Voices {
    ghost ops = { voices };

    ghost lawful = { voices_lawful };

    fn top() -> Voices {
        Voices::new(u16::MAX)
    }

    fn bottom() -> Voices {
        Voices::new(0)
    }

    fn below(self, other: Voices) -> bool {
        self.bits & other.bits == self.bits
    }

    fn meet(self, other: Voices) -> Voices {
        Voices::new(self.bits & other.bits)
    }

    fn join(self, other: Voices) -> Voices {
        Voices::new(self.bits | other.bits)
    }

    fn flip(self) -> Voices {
        Voices::new(!self.bits)
    }
}
