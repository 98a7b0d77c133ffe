// Frames carried into yes and no: a second watch, fed with them in other strips, marks the translated mark.
use crate::bench::Bench;
use crate::cases::played::{Played, read_mark};
use crate::cases::stage::Stage;
use crate::dice::Dice;
use crate::finding::{Stop, What, same};
use crate::second::ends::Spans;
use crate::second::reason::Reason;
use crate::second::scale::Pair;
use crate::tally::count;
use grade::{Sign, Span, Translation, Voice, carry};
use refusal::Refusal;
use std::alloc::AllocError;
use watch::judge::judge;
use watch::record::Watch;

// A scale that is carried into yes and no, in ways that have numbers: by the product's translations, and by hand.
pub trait Carried: Played {
    type By: Translation<From = Self::Of, To = bool> + Drop;

    fn translation(number: u8) -> Self::By;

    fn yes(self, number: u8) -> bool;

    // The ways to try in one case: the first, and how many.
    fn tried(dice: &mut Dice) -> (u8, u8);

    // How long a strip is that so many grades do not fit.
    fn unequal(size: usize) -> usize;
}

// Any number names a voice, modulo 16.
impl Carried for u16 {
    type By = Voice;

    fn translation(number: u8) -> Voice {
        Voice::new(number)
    }

    fn yes(self, number: u8) -> bool {
        (0..number % 16).fold(self, |rest, _| rest / 2) % 2 == 1
    }

    fn tried(dice: &mut Dice) -> (u8, u8) {
        let first = dice.up_to(255);
        let voices = if dice.once_in(8) { 16 } else { 1 };
        (first, voices)
    }

    fn unequal(size: usize) -> usize {
        size.saturating_add(1)
    }
}

impl Carried for i32 {
    type By = Sign;

    fn translation(_number: u8) -> Sign {
        Sign
    }

    fn yes(self, _number: u8) -> bool {
        self > -1
    }

    fn tried(_dice: &mut Dice) -> (u8, u8) {
        (0, 1)
    }

    fn unequal(size: usize) -> usize {
        size.saturating_sub(1)
    }
}

impl Bench {
    // A strip that was carried, or refused, beside what it should be: by hand where the lengths are the same, else all yes as before.
    fn same_strip(
        &mut self,
        product: Result<(), Refusal>,
        to: &[bool],
        by_hand: &[bool],
    ) -> Result<(), Stop> {
        let fits = to.len() == by_hand.len();
        let reckoned = if fits {
            Ok(())
        } else {
            self.tally.count_refusal(Reason::UnequalStrips);
            Err(Reason::UnequalStrips)
        };
        same(What::Carry, 0, product, reckoned)?;
        let written = if fits { by_hand } else { &[] };
        for (at, yes) in to.iter().enumerate() {
            let expected = written.get(at).copied().unwrap_or(true);
            same(What::Carried, at, *yes, expected)?;
        }
        Ok(())
    }

    // Carries into a strip of so many yes, which it gives.
    fn same_carry<T: Translation<To = bool>>(
        &mut self,
        by: &T,
        from: &[T::From],
        by_hand: &[bool],
        size: usize,
    ) -> Result<Vec<bool>, Stop> {
        let mut to = vec![in self.heap; true; size]?;
        let product = carry(by, from, to.as_mut_slice());
        self.same_strip(product, to.as_slice(), by_hand)?;
        Ok(to)
    }

    // The mark of a watch of the same sheet that is fed with the strip in parts of a few frames.
    fn second_mark(&mut self, strip: &[bool]) -> Result<Result<Pair<bool>, Refusal>, AllocError> {
        let mut watch = Watch::start(&self.sheet);
        let mut log = vec![in self.heap; true; self.reading.grades(0)]?;
        let mut chart = vec![in self.heap; Span::<bool>::unknown(); self.reading.cells()]?;
        let part = usize::from(self.reading.facts) * usize::from(self.dice.up_to(4) + 1);
        for frames in strip.chunks(part.max(1)) {
            let _ = watch.feed(log.as_mut_slice(), frames);
        }
        Ok(read_mark::<bool>(watch.mark(log.as_slice(), chart.as_mut_slice())))
    }

    // One way to carry the frames that were fed: what the mark is translated to, what the second watch marks, and what is reckoned are all the same.
    fn same_translation<P: Carried>(&mut self, stage: &Stage<P>, number: u8) -> Result<(), Stop> {
        let fed = stage.ledger.fed();
        let by = P::translation(number);
        let from = stage.log.as_slice().get(0..fed).unwrap_or(&[]);
        let plain = stage.ledger.log.as_slice().get(0..fed).unwrap_or(&[]);
        let by_hand = plain
            .iter()
            .map(|grade| grade.yes(number))
            .collect::<Vec<bool>>(self.heap)?;
        let to = self.same_carry(&by, from, by_hand.as_slice(), fed)?;
        self.same_carry(&by, from, by_hand.as_slice(), P::unequal(fed))?;
        let mut chart = vec![in self.heap; Span::<P::Of>::unknown(); stage.ledger.chart_size()]?;
        let mark = judge::<P::By>(&stage.watch, stage.log.as_slice(), chart.as_mut_slice());
        count(&mut self.tally.carried);
        let translated = read_mark::<P>(mark).map(|pair| Pair {
            low: pair.low.yes(number),
            high: pair.high.yes(number),
        });
        let reckoned = Spans::of(self.heap, &self.reading, to.as_slice())?.rule();
        same(What::Translated, 0, translated, reckoned)?;
        let second = self.second_mark(to.as_slice())?;
        same(What::SecondWatch, 0, second, reckoned)
    }

    // One take: some steps, one or more ways to carry what was fed, and the rest.
    pub(crate) fn same_take<P: Carried>(&mut self, take: &[P], steps: u8) -> Result<(), Stop> {
        let mut stage = Stage::new(self, take)?;
        stage.play(self, steps)?;
        let (first, ways) = P::tried(&mut self.dice);
        for way in 0..ways {
            self.same_translation(&stage, first.wrapping_add(way))?;
        }
        stage.complete(self)
    }
}
