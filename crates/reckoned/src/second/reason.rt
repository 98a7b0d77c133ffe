// Why bytes are no sheet, and why a call is refused, by the numbers of the table.
#[derive(Clone, Copy, Debug, PartialEq, Eq)]
pub enum Reason {
    Sizes = 1,
    Kind,
    Operand,
    Length,
    Unnamed,
    Inner,
    ShortLog,
    BrokenStrip,
    TakeComplete,
    ShortChart,
    UnequalStrips,
    Place,
}

impl From<Reason> for u8 {
    fn from(reason: Reason) -> u8 {
        reason as u8
    }
}

// The rule that bytes break, and at which row.
#[derive(Clone, Copy, Debug, PartialEq, Eq)]
pub struct Flaw {
    pub reason: Reason,
    pub row: u8,
}

impl From<Flaw> for u32 {
    fn from(flaw: Flaw) -> u32 {
        256 * u32::from(u8::from(flaw.reason)) + u32::from(flaw.row)
    }
}
