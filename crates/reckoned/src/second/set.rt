// Small sets of rows or of facts, each below 32.
#[derive(Clone, Copy)]
pub struct Set {
    bits: u32,
}

impl Set {
    pub(crate) fn empty() -> Set {
        Set { bits: 0 }
    }

    pub(crate) fn is_empty(self) -> bool {
        self.bits == 0
    }

    pub(crate) fn has(self, member: u8) -> bool {
        member < 32 && (self.bits >> member) & 1 == 1
    }

    pub(crate) fn with(self, member: u8) -> Set {
        if member < 32 {
            Set {
                bits: self.bits | (1u32 << member),
            }
        } else {
            self
        }
    }

    pub(crate) fn joined(self, other: Set) -> Set {
        Set {
            bits: self.bits | other.bits,
        }
    }

    pub(crate) fn common(self, other: Set) -> Set {
        Set {
            bits: self.bits & other.bits,
        }
    }
}
