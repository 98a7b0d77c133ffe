// Every way in which a call says no, and the number by which it is known outside.
#![tactic(auto)]

ghost use Rattle.std.specs.Prelude.{◌≡◌};
ghost use Rattle.refusal.specs.Numbers.{number_of};
ghost use Rattle.refusal.specs.declared.Refusal.{Refusal};

#[derive(Clone, Copy, Debug, PartialEq, Eq)]
pub enum Refusal {
    Sizes = 1,
    Kind = 2,
    Operand = 3,
    Length = 4,
    Unnamed = 5,
    Inner = 6,
    ShortLog = 7,
    BrokenStrip = 8,
    TakeComplete = 9,
    ShortChart = 10,
    UnequalStrips = 11,
    Place = 12,
}

impl Refusal {
    pub fn number(self) -> u8
        ensures value { result ≡ number_of self }
        ensures own { (other : Refusal) → number_of other ≡ result → other ≡ self }
    {
        self as u8
    }
}
