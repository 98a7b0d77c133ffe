// The sign: a margin from 0 upward is a yes.
ghost use Rattle.grade.specs.Margins.{met};
ghost use Rattle.std.proofs.Common.{rules};

use super::Translation;
use crate::margin::Margin;

#[derive(Clone, Copy)]
pub struct Sign;

impl Translation for Sign {
    type From = Margin;

    type To = bool;

    ghost map = { λ _. met };

    ghost carries = { Prim.search rules };

    fn translate(&self, grade: Margin) -> bool {
        0 <= grade.value()
    }
}
