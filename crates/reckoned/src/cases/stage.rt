// A watch with its log and its chart, played call by call beside the ledger of the second reckoning.
use crate::bench::Bench;
use crate::cases::played::{Played, graded_all, read_mark, read_span};
use crate::dice::Dice;
use crate::finding::{Stop, What, same};
use crate::outcome::Outcome;
use crate::second::ledger::Ledger;
use crate::second::reason::Reason;
use crate::second::scale::Pair;
use crate::tally::count;
use grade::Span;
use refusal::Refusal;
use std::alloc::AllocError;
use watch::outcome::Mark;
use watch::record::Watch;

// A take, with two frames more than the rule asks for, and what is made of it.
#[derive(Drop)]
pub struct Stage<'a, P: Played> {
    take: &'a [P],
    pub watch: Watch,
    pub log: Vec<P::Of>,
    chart: Vec<Span<P::Of>>,
    pub ledger: Ledger<P>,
}

impl<'a, P: Played> Stage<'a, P> {
    // The log and the chart hold anything at first, and may be longer than needed.
    pub(crate) fn new(bench: &mut Bench, take: &'a [P]) -> Result<Stage<'a, P>, AllocError> {
        let spare = usize::from(bench.dice.up_to(3));
        let grades = bench.reading.grades(0).saturating_add(spare);
        let cells = bench.reading.cells().saturating_add(spare);
        let plain = bench.dice.draw::<P>(bench.heap, grades)?;
        let log = graded_all(bench.heap, plain.as_slice())?;
        let pairs = bench.dice.draw::<Pair<P>>(bench.heap, cells)?;
        let chart = pairs
            .iter()
            .map(|pair| Span {
                low: pair.low.graded(),
                high: pair.high.graded(),
            })
            .collect(bench.heap)?;
        Ok(Stage {
            take,
            watch: Watch::start(&bench.sheet),
            log,
            chart,
            ledger: Ledger::new(&bench.reading, plain, pairs),
        })
    }

    fn same_log(&self) -> Result<(), Stop> {
        same(
            What::Accepted,
            0,
            self.watch.accepted(),
            self.ledger.accepted,
        )?;
        for (at, (grade, plain)) in self.log.iter().zip(self.ledger.log.iter()).enumerate() {
            let product = Outcome::Number(P::read(*grade).into());
            same(What::Log, at, product, Outcome::Number((*plain).into()))?;
        }
        Ok(())
    }

    fn same_chart(&self) -> Result<(), Stop> {
        let cells = self.chart.iter().zip(self.ledger.chart.iter());
        for (at, (span, pair)) in cells.enumerate() {
            same(What::Cell, at, read_span::<P>(*span), *pair)?;
        }
        Ok(())
    }

    // Feeds a strip, with so much of the log lent.
    fn feed(&mut self, bench: &mut Bench, lent: usize, strip: &[P]) -> Result<(), Stop> {
        let grades = graded_all(bench.heap, strip)?;
        let lent = lent.min(self.log.len());
        let product = self.watch.feed(&mut self.log[0..lent], grades.as_slice());
        let reckoned = self.ledger.feed(lent, strip);
        if let Err(reason) = reckoned {
            bench.tally.count_refusal(reason);
        }
        count(&mut bench.tally.feeds);
        same(What::Feed, 0, product, reckoned)?;
        self.same_log()
    }

    // Marks, with so much of the log and of the chart lent.
    fn mark(&mut self, bench: &mut Bench, log: usize, chart: usize) -> Result<(), Stop> {
        let log = log.min(self.log.len());
        let chart = chart.min(self.chart.len());
        let product = self
            .watch
            .mark(&self.log[0..log], &mut self.chart[0..chart]);
        let reckoned = self.ledger.mark(bench.heap, &bench.reading, log, chart)?;
        bench.same_mark::<P>(product, reckoned)?;
        self.same_log()?;
        self.same_chart()
    }

    // The grades of the take from the next frame on.
    fn rest(&self) -> &'a [P] {
        self.take.get(self.ledger.fed()..).unwrap_or(&[])
    }

    // A strip of the take, from the next frame on: mostly some whole frames, now and then more than is missing, or broken.
    fn next_strip(&self, bench: &mut Bench) -> &'a [P] {
        let missing = bench.reading.frames().saturating_sub(self.ledger.accepted);
        let frames = bench.dice.below(usize::from(missing) + 2) & 0xffff;
        let broken = usize::from(bench.dice.once_in(8));
        let rest = self.rest();
        rest.get(0..frames * usize::from(bench.reading.facts) + broken)
            .unwrap_or(rest)
    }

    // So many feeds, each with a mark after it.
    pub(crate) fn play(&mut self, bench: &mut Bench, steps: u8) -> Result<(), Stop> {
        for _ in 0..steps {
            let strip = self.next_strip(bench);
            let log = lent(&mut bench.dice, self.ledger.log_size());
            self.feed(bench, log, strip)?;
            let log = lent(&mut bench.dice, self.ledger.log_size());
            let chart = lent(&mut bench.dice, self.ledger.chart_size());
            self.mark(bench, log, chart)?;
        }
        Ok(())
    }

    // Feeds all that is left, and more; then once more with nothing, and with a frame.
    pub(crate) fn complete(&mut self, bench: &mut Bench) -> Result<(), Stop> {
        let rest = self.rest();
        self.feed(bench, usize::MAX, rest)?;
        self.feed(bench, usize::MAX, &[])?;
        let facts = usize::from(bench.reading.facts);
        let frame = self.take.get(0..facts).unwrap_or(&[]);
        self.feed(bench, usize::MAX, frame)?;
        self.mark(bench, usize::MAX, usize::MAX)
    }
}

impl Bench {
    fn same_mark<P: Played>(
        &mut self,
        product: Result<Mark<P::Of>, Refusal>,
        reckoned: Result<Pair<P>, Reason>,
    ) -> Result<(), Stop> {
        match (product, reckoned) {
            (Ok(Mark { span, settled }), Ok(Pair { low, high })) => {
                count(&mut self.tally.marks);
                if settled {
                    count(&mut self.tally.settled);
                }
                same(What::Mark, 0, read_span::<P>(span), Pair { low, high })?;
                same(What::Settled, 0, settled, low == high)
            }
            (product, reckoned) => {
                if let Err(reason) = &reckoned {
                    self.tally.count_refusal(*reason);
                }
                same(What::Mark, 0, read_mark::<P>(product), reckoned)
            }
        }
    }
}

// How much to lend of a place of that size: now and then one too little, else all.
fn lent(dice: &mut Dice, size: usize) -> usize {
    if dice.once_in(12) {
        size.saturating_sub(1)
    } else {
        usize::MAX
    }
}
