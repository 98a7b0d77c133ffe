// What all cases share: the heap, the dice, the record that every sheet is loaded into, the reading of what it holds, and the tally.
use crate::dice::Dice;
use crate::draft::{Draft, Shape};
use crate::second::reading::Reading;
use crate::tally::{Tally, count};
use anyhow::anyhow;
use sheet::record::Sheet;
use std::alloc::{AllocError, Global};

#[derive(Drop)]
pub struct Bench {
    pub heap: Global,
    pub dice: Dice,
    pub sheet: Sheet,
    pub reading: Reading,
    pub tally: Tally,
}

// The reading of the sheet that a new record holds.
fn smallest(heap: Global) -> anyhow::Result<Reading> {
    match Reading::of(heap, &[1, 1, 0, 0, 0, 0])? {
        Ok(reading) => Ok(reading),
        Err(_) => Err(anyhow!("the smallest sheet is not read")),
    }
}

impl Bench {
    pub(crate) fn new(heap: Global, seed: u64) -> anyhow::Result<Bench> {
        Ok(Bench {
            heap,
            dice: Dice::new(seed),
            sheet: Sheet::new(),
            reading: smallest(heap)?,
            tally: Tally::new(),
        })
    }

    // The record begins anew, so that the next sheets are judged by themselves.
    pub(crate) fn reset(&mut self) -> anyhow::Result<()> {
        self.sheet = Sheet::new();
        self.reading = smallest(self.heap)?;
        Ok(())
    }

    pub(crate) fn grown(&mut self, shape: Shape) -> Result<Vec<u8>, AllocError> {
        Draft::grown(self.heap, &mut self.dice, shape)?.bytes(self.heap)
    }

    pub(crate) fn count_take(&mut self) {
        count(&mut self.tally.takes);
        if self.reading.frames() == 256 {
            count(&mut self.tally.longest);
        }
    }
}
