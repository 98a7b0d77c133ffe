// What a case comes to where the product and the second reckoning differ.
use crate::outcome::Outcome;
use std::alloc::{AllocError, AllocFailed};
use std::fmt;

#[derive(Clone, Copy, Debug)]
pub enum What {
    Check,
    Load,
    Facts,
    Frames,
    Rows,
    Lengths,
    Row,
    OneSided,
    Chains,
    Feed,
    Accepted,
    Log,
    Mark,
    Settled,
    Cell,
    Carry,
    Carried,
    Translated,
    SecondWatch,
    Meaning,
    Written,
    Text,
}

// What differs, and at which row, cell, grade or letter.
#[derive(Clone, Copy)]
pub struct Finding {
    what: What,
    at: usize,
    product: Outcome,
    reckoned: Outcome,
}

impl fmt::Display for Finding {
    fn fmt<W: fmt::Write>(&self, f: &mut fmt::Formatter<W>) -> fmt::Result {
        let Finding {
            what,
            at,
            product,
            reckoned,
        } = self;
        write!(
            f,
            "{what:?} {at:x}: the product {product}, the reckoning {reckoned}"
        )
    }
}

#[derive(Clone, Copy)]
pub enum Stop {
    Memory,
    Found(Finding),
}

impl From<AllocError> for Stop {
    fn from(_e: AllocError) -> Stop {
        Stop::Memory
    }
}

impl<T: Drop> From<AllocFailed<T>> for Stop {
    fn from(_e: AllocFailed<T>) -> Stop {
        Stop::Memory
    }
}

// Nothing where the two are the same.
pub(crate) fn same<A: Into<Outcome>, B: Into<Outcome>>(
    what: What,
    at: usize,
    product: A,
    reckoned: B,
) -> Result<(), Stop> {
    let finding = Finding {
        what,
        at,
        product: product.into(),
        reckoned: reckoned.into(),
    };
    if finding.product == finding.reckoned {
        Ok(())
    } else {
        Err(Stop::Found(finding))
    }
}
