// How many cases of each sort there were.
use crate::second::reading::Reading;
use crate::second::reason::Reason;
use std::fmt;

#[derive(Drop)]
pub struct Tally {
    pub sheets: u64,
    pub good: u64,
    // Rows of good sheets, by their kind.
    kinds: [u64; 8],
    // By the number of the refusal.
    refused: [u64; 13],
    pub one_sided: u64,
    // Sheets of which each chain of naming was followed.
    pub chained: u64,
    // Takes of 256 frames.
    pub longest: u64,
    pub takes: u64,
    pub feeds: u64,
    pub marks: u64,
    pub settled: u64,
    pub met: u64,
    pub unmet: u64,
    pub carried: u64,
    pub texts: u64,
    pub differences: u64,
}

pub(crate) fn count(number: &mut u64) {
    *number = number.saturating_add(1);
}

// How many there were by each number, from the first that there is.
fn fmt_counts<W: fmt::Write>(
    f: &mut fmt::Formatter<W>,
    counts: &[u64],
    first: usize,
) -> fmt::Result {
    for (number, times) in counts.iter().enumerate().skip(first) {
        write!(f, " {number}:{times}")?;
    }
    Ok(())
}

impl Tally {
    pub(crate) fn new() -> Tally {
        Tally {
            sheets: 0,
            good: 0,
            kinds: [0; 8],
            refused: [0; 13],
            one_sided: 0,
            chained: 0,
            longest: 0,
            takes: 0,
            feeds: 0,
            marks: 0,
            settled: 0,
            met: 0,
            unmet: 0,
            carried: 0,
            texts: 0,
            differences: 0,
        }
    }

    pub(crate) fn count_refusal(&mut self, reason: Reason) {
        if let Some(place) = self.refused.get_mut(usize::from(u8::from(reason))) {
            count(place);
        }
    }

    pub(crate) fn count_kinds(&mut self, reading: &Reading) {
        for line in reading.lines.iter() {
            if let Some(place) = self.kinds.get_mut(usize::from(line.task().kind())) {
                count(place);
            }
        }
    }

    fn fmt_sheets<W: fmt::Write>(&self, f: &mut fmt::Formatter<W>) -> fmt::Result {
        let Tally {
            sheets,
            good,
            one_sided,
            chained,
            ..
        } = self;
        write!(f, "sheets {sheets}, good {good}, with rows")?;
        fmt_counts(f, &self.kinds, 0)?;
        write!(f, ", one-sided {one_sided}, by chains {chained}, refused")?;
        fmt_counts(f, &self.refused, 1)
    }

    fn fmt_takes<W: fmt::Write>(&self, f: &mut fmt::Formatter<W>) -> fmt::Result {
        let Tally {
            takes,
            longest,
            feeds,
            marks,
            settled,
            ..
        } = self;
        write!(
            f,
            ", takes {takes}, of 256 frames {longest}, feeds {feeds}, marks {marks}, settled {settled}"
        )
    }
}

impl fmt::Display for Tally {
    fn fmt<W: fmt::Write>(&self, f: &mut fmt::Formatter<W>) -> fmt::Result {
        self.fmt_sheets(f)?;
        self.fmt_takes(f)?;
        let Tally {
            met,
            unmet,
            carried,
            texts,
            differences,
            ..
        } = self;
        write!(
            f,
            ", met {met}, not met {unmet}, carried {carried}, texts {texts}, differences {differences}"
        )
    }
}
