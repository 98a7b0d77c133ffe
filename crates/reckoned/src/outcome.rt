// What a call of the product or of the second reckoning comes to, as the two are compared, and shown in hexadecimal.
use crate::second::reason::{Flaw, Reason};
use crate::second::scale::{Pair, Scale};
use crate::second::task::Task;
use refusal::Refusal;
use sheet::fault::Fault;
use std::fmt;

#[derive(Clone, Copy, Debug, PartialEq, Eq)]
pub enum Outcome {
    Done,
    // A count, a byte or a grade.
    Number(i64),
    Span(i64, i64),
    // What a row asks for, and its length.
    Row(Task, i64),
    Refused(u8),
    RefusedAtRow(u8, u8),
}

impl fmt::Display for Outcome {
    fn fmt<W: fmt::Write>(&self, f: &mut fmt::Formatter<W>) -> fmt::Result {
        match self {
            Outcome::Done => write!(f, "done"),
            Outcome::Number(number) => write!(f, "{number:x}"),
            Outcome::Span(low, high) => write!(f, "{low:x} to {high:x}"),
            Outcome::Row(task, length) => {
                let [kind, p, q, r]: [u8; 4] = (*task).into();
                write!(f, "{kind:x} {p:x} {q:x} {r:x} of length {length:x}")
            }
            Outcome::Refused(number) => write!(f, "refused {number:x}"),
            Outcome::RefusedAtRow(number, row) => write!(f, "refused {number:x} at row {row:x}"),
        }
    }
}

impl From<()> for Outcome {
    fn from(_done: ()) -> Outcome {
        Outcome::Done
    }
}

impl From<bool> for Outcome {
    fn from(yes: bool) -> Outcome {
        Outcome::Number(i64::from(yes))
    }
}

impl From<u8> for Outcome {
    fn from(number: u8) -> Outcome {
        Outcome::Number(i64::from(number))
    }
}

impl From<u16> for Outcome {
    fn from(number: u16) -> Outcome {
        Outcome::Number(i64::from(number))
    }
}

impl From<u32> for Outcome {
    fn from(number: u32) -> Outcome {
        Outcome::Number(i64::from(number))
    }
}

impl From<usize> for Outcome {
    fn from(number: usize) -> Outcome {
        Outcome::Number(i64::try_from(number).unwrap_or(i64::MAX))
    }
}

impl<T: Scale> From<Pair<T>> for Outcome {
    fn from(pair: Pair<T>) -> Outcome {
        Outcome::Span(pair.low.into(), pair.high.into())
    }
}

// A refusal is known by its number.
impl From<Refusal> for Outcome {
    fn from(refusal: Refusal) -> Outcome {
        Outcome::Refused(refusal.number())
    }
}

impl From<Reason> for Outcome {
    fn from(reason: Reason) -> Outcome {
        Outcome::Refused(u8::from(reason))
    }
}

impl From<Fault> for Outcome {
    fn from(fault: Fault) -> Outcome {
        Outcome::RefusedAtRow(fault.refusal.number(), fault.row)
    }
}

impl From<Flaw> for Outcome {
    fn from(flaw: Flaw) -> Outcome {
        Outcome::RefusedAtRow(u8::from(flaw.reason), flaw.row)
    }
}

impl<T: Into<Outcome>, E: Into<Outcome>> From<Result<T, E>> for Outcome {
    fn from(answer: Result<T, E>) -> Outcome {
        match answer {
            Ok(value) => value.into(),
            Err(error) => error.into(),
        }
    }
}
