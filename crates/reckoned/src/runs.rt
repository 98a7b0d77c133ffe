// Runs so many cases of each sort, and shows those in which the product and the second reckoning differ.
use crate::bench::Bench;
use crate::cases::carried::Carried;
use crate::draft::Draft;
use crate::finding::Stop;
use crate::second::scale::Scale;
use crate::shapes::{playable, small, stretchable, wild};
use crate::show::Case;
use crate::spoil::spoiled;
use crate::tally::count;
use anyhow::anyhow;

#[derive(Drop)]
pub struct Runs {
    rt: HostRuntime,
    pub bench: Bench,
}

impl Runs {
    pub(crate) fn new(rt: HostRuntime, seed: u64) -> anyhow::Result<Runs> {
        let bench = Bench::new(rt.alloc(), seed)?;
        Ok(Runs { rt, bench })
    }

    // Counts a case that differs, and shows the first few of them.
    fn noted<T: Scale>(
        &mut self,
        sheet: &[u8],
        take: &[T],
        outcome: Result<(), Stop>,
    ) -> anyhow::Result<()> {
        match outcome {
            Ok(()) => Ok(()),
            Err(Stop::Memory) => Err(anyhow!("no memory")),
            Err(Stop::Found(finding)) => {
                count(&mut self.bench.tally.differences);
                if self.bench.tally.differences > 20 {
                    return Ok(());
                }
                let case = Case {
                    sheet,
                    take,
                    finding,
                };
                println!(self.rt; "{case}")?;
                Ok(())
            }
        }
    }

    fn load(&mut self, bytes: &[u8]) -> anyhow::Result<()> {
        let outcome = self.bench.load(bytes);
        if outcome.is_err() {
            self.bench.reset()?;
        }
        self.noted::<bool>(bytes, &[], outcome)
    }

    pub(crate) fn sheets(&mut self, times: u32) -> anyhow::Result<()> {
        for _ in 0..times {
            let shape = wild(&mut self.bench.dice);
            let bytes = self.bench.grown(shape)?;
            self.load(bytes.as_slice())?;
            let heap = self.bench.heap;
            let worse = spoiled(heap, &mut self.bench.dice, bytes.as_slice())?;
            self.load(worse.as_slice())?;
            let worst = spoiled(heap, &mut self.bench.dice, worse.as_slice())?;
            self.load(worst.as_slice())?;
        }
        Ok(())
    }

    fn take<P: Carried>(&mut self, bytes: &[u8], steps: u8) -> anyhow::Result<()> {
        self.load(bytes)?;
        let size = self.bench.reading.grades(2);
        let take = self.bench.dice.draw::<P>(self.bench.heap, size)?;
        self.bench.count_take();
        let outcome = self.bench.same_take(take.as_slice(), steps);
        self.noted(bytes, take.as_slice(), outcome)
    }

    // A take of words and one of margins.
    fn takes(&mut self, bytes: &[u8], steps: u8) -> anyhow::Result<()> {
        self.take::<u16>(bytes, steps)?;
        self.take::<i32>(bytes, steps)
    }

    pub(crate) fn short_takes(&mut self, times: u32) -> anyhow::Result<()> {
        for _ in 0..times {
            let shape = playable(&mut self.bench.dice);
            let bytes = self.bench.grown(shape)?;
            self.takes(bytes.as_slice(), 4)?;
        }
        Ok(())
    }

    // Takes of 256 frames.
    pub(crate) fn long_takes(&mut self, times: u32) -> anyhow::Result<()> {
        let heap = self.bench.heap;
        for _ in 0..times {
            let dice = &mut self.bench.dice;
            let shape = stretchable(dice);
            let mut draft = Draft::grown(heap, dice, shape)?;
            draft.stretch(dice)?;
            let bytes = draft.bytes(heap)?;
            self.takes(bytes.as_slice(), 1)?;
        }
        Ok(())
    }

    fn answers_of(&mut self, bytes: &[u8], times: u32) -> anyhow::Result<()> {
        self.load(bytes)?;
        for _ in 0..times {
            let take = self.bench.mixed_take()?;
            self.bench.count_take();
            let outcome = self.bench.same_answers(take.as_slice());
            self.noted(bytes, take.as_slice(), outcome)?;
        }
        Ok(())
    }

    // Takes of yes and no, with the published meaning at the end of each.
    pub(crate) fn answers(&mut self, times: u32) -> anyhow::Result<()> {
        for _ in 0..times {
            let shape = small(&mut self.bench.dice);
            let bytes = self.bench.grown(shape)?;
            self.answers_of(bytes.as_slice(), 4)?;
        }
        Ok(())
    }

    pub(crate) fn texts(&mut self, times: u32) -> anyhow::Result<()> {
        for _ in 0..times {
            let outcome = self.bench.same_line();
            self.noted::<bool>(&[], &[], outcome)?;
            let outcome = self.bench.same_notice();
            self.noted::<bool>(&[], &[], outcome)?;
        }
        Ok(())
    }
}
