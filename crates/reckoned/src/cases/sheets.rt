// Bytes as a sheet: the answer, the record, and whether it is one-sided.
use crate::bench::Bench;
use crate::finding::{Stop, What, same};
use crate::outcome::Outcome;
use crate::second::reading::Reading;
use crate::second::sides::{by_chains, by_facts};
use crate::second::task::Task;
use crate::tally::count;
use sheet::check::check;
use sheet::row::Row;

impl From<Row> for Task {
    fn from(row: Row) -> Task {
        match row {
            Row::Always => Task::Always,
            Row::Hold { duration, fact } => Task::Hold { duration, fact },
            Row::HoldOff { duration, fact } => Task::HoldOff { duration, fact },
            Row::Both { left, right } => Task::Both { left, right },
            Row::Either { left, right } => Task::Either { left, right },
            Row::Not { row } => Task::Not { row },
            Row::Then { left, right } => Task::Then { left, right },
            Row::Within { from, to, row } => Task::Within { from, to, row },
        }
    }
}

impl Bench {
    // Whether the record is that of the reading.
    fn same_record(&self) -> Result<(), Stop> {
        let Bench { sheet, reading, .. } = self;
        let rows = reading.lines.len();
        let frames = u16::from(sheet.length()) + 1;
        same(What::Facts, 0, sheet.facts(), reading.facts)?;
        same(What::Frames, 0, frames, reading.frames())?;
        same(What::Rows, 0, sheet.rows().len(), rows)?;
        same(What::Lengths, 0, sheet.lengths().len(), rows)?;
        let products = sheet.rows().iter().zip(sheet.lengths().iter());
        for (at, ((row, length), line)) in products.zip(reading.lines.iter()).enumerate() {
            let product = Outcome::Row(Task::from(*row), i64::from(*length));
            let reckoned = Outcome::Row(line.task(), i64::from(line.length));
            same(What::Row, at, product, reckoned)?;
        }
        Ok(())
    }

    fn same_sides(&mut self) -> Result<(), Stop> {
        let sided = self.sheet.sided();
        if sided {
            count(&mut self.tally.one_sided);
        }
        same(
            What::OneSided,
            0,
            sided,
            by_facts(self.heap, &self.reading)?,
        )?;
        if let Some(chained) = by_chains(self.heap, &self.reading)? {
            count(&mut self.tally.chained);
            same(What::Chains, 0, sided, chained)?;
        }
        Ok(())
    }

    // Loads the bytes over the sheet that is there, and keeps their reading where they are a sheet.
    pub(crate) fn load(&mut self, bytes: &[u8]) -> Result<(), Stop> {
        count(&mut self.tally.sheets);
        let loaded = self.sheet.load(bytes);
        match Reading::of(self.heap, bytes)? {
            Ok(reading) => {
                same(What::Check, 0, check(bytes), 0u32)?;
                same(What::Load, 0, loaded, ())?;
                count(&mut self.tally.good);
                self.tally.count_kinds(&reading);
                self.reading = reading;
                self.same_record()?;
                self.same_sides()
            }
            Err(flaw) => {
                same(What::Check, 0, check(bytes), u32::from(flaw))?;
                same(What::Load, 0, loaded, flaw)?;
                self.tally.count_refusal(flaw.reason);
                self.same_record()
            }
        }
    }
}
