// Complete takes of yes and no, by the published meaning.
use crate::bench::Bench;
use crate::cases::played::read_mark;
use crate::cases::stage::Stage;
use crate::finding::{Stop, What, same};
use crate::second::meaning::meets;
use crate::second::scale::Pair;
use crate::tally::count;
use grade::Span;
use refusal::Refusal;
use std::alloc::AllocError;
use watch::judge::settle;
use watch::record::Watch;

impl Bench {
    // A take in which each fact is mostly yes, mostly no, or mixed.
    pub(crate) fn mixed_take(&mut self) -> Result<Vec<bool>, AllocError> {
        let share = self.dice.up_to(6);
        let dice = &mut self.dice;
        (0..self.reading.grades(2))
            .map(|_| dice.up_to(6) <= share)
            .collect(self.heap)
    }

    // What a watch that is fed the whole take settles on.
    fn settled(&self, take: &[bool]) -> Result<Result<Pair<bool>, Refusal>, AllocError> {
        let mut log = vec![in self.heap; false; take.len()]?;
        let mut chart = vec![in self.heap; Span::<bool>::unknown(); self.reading.cells()]?;
        let mut watch = Watch::start(&self.sheet);
        if let Err(refusal) = watch.feed(log.as_mut_slice(), take) {
            return Ok(Err(refusal));
        }
        Ok(read_mark::<bool>(settle(&watch, log.as_slice(), chart.as_mut_slice())))
    }

    fn same_meaning(&mut self, take: &[bool]) -> Result<(), Stop> {
        let settled = self.settled(take)?;
        let met = meets(self.heap, &self.reading, take)?;
        count(if met {
            &mut self.tally.met
        } else {
            &mut self.tally.unmet
        });
        let reckoned = Pair {
            low: met,
            high: met,
        };
        same(What::Meaning, 0, settled, reckoned)
    }

    // One take, step by step, with the published meaning at its end.
    pub(crate) fn same_answers(&mut self, take: &[bool]) -> Result<(), Stop> {
        let mut stage = Stage::new(self, take)?;
        stage.play(self, 2)?;
        stage.complete(self)?;
        self.same_meaning(take)
    }
}
