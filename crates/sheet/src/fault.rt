// Why bytes are no sheet: the refusal and the row that it names.
ghost use Rattle.std.specs.Prelude.{◌≡◌};

use refusal::Refusal;

#[derive(Clone, Copy, Debug, PartialEq, Eq)]
pub struct Fault {
    pub refusal: Refusal,
    pub row: u8,
}

impl Fault {
    pub(crate) fn new(refusal: Refusal, row: u8) -> Fault
        ensures { result ≡ record { refusal = refusal; row = row } }
    {
        Fault { refusal, row }
    }
}
