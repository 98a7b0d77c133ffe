// Margins as grades, in the usual order.
ghost use Rattle.std.specs.Prelude.{◌≡◌};
ghost use Rattle.grade.specs.Margins.{margin, margins};
ghost use Rattle.grade.specs.MarginLaws.{margins_lawful};

use super::Margin;
use crate::Grade;

impl Margin {
    pub fn new(value: i32) -> Margin
        ensures whole { result ≡ margin value }
        ensures value { result.value ≡ value }
    {
        Margin { value }
    }

    pub fn value(self) -> i32
        ensures { result ≡ self.value }
    {
        self.value
    }
}

impl Grade for Margin {
    ghost ops = { margins };

    ghost lawful = { margins_lawful };

    fn top() -> Margin {
        Margin::new(i32::MAX)
    }

    fn bottom() -> Margin {
        Margin::new(i32::MIN)
    }

    fn below(self, other: Margin) -> bool {
        self <= other
    }

    fn meet(self, other: Margin) -> Margin {
        self.min(other)
    }

    fn join(self, other: Margin) -> Margin {
        self.max(other)
    }

    // Not the sign's turn: -1 - m trades 0 for -1, and every margin has a partner.
    fn flip(self) -> Margin {
        Margin::new(-1 - self.value)
    }
}
