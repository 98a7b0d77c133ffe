// The plain grades: no, and above it yes.
ghost use Rattle.grade.specs.YesNo.{yes_no};
ghost use Rattle.grade.specs.YesNoLaws.{yes_no_lawful};

use crate::Grade;

impl Grade for bool {
    ghost ops = { yes_no };

    ghost lawful = { yes_no_lawful };

    fn top() -> bool {
        true
    }

    fn bottom() -> bool {
        false
    }

    fn below(self, other: bool) -> bool {
        self <= other
    }

    fn meet(self, other: bool) -> bool {
        self & other
    }

    fn join(self, other: bool) -> bool {
        self | other
    }

    fn flip(self) -> bool {
        !self
    }
}
