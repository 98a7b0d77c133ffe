// The published meaning of yes and no, on the frames s to e, by trying every frame that it speaks of.
use crate::second::reading::Reading;
use crate::second::task::Task;
use std::alloc::{AllocError, Global};

// Whether each row is met on the frames from each s to each e of a take, in the order of the rows.
#[derive(Drop)]
struct Meaning<'a> {
    sheet: &'a Reading,
    take: &'a [bool],
    frames: u16,
    met: Vec<bool>,
}

// Whether a take meets the rule.
pub(crate) fn meets(heap: Global, sheet: &Reading, take: &[bool]) -> Result<bool, AllocError> {
    let mut meaning = Meaning {
        sheet,
        take,
        frames: sheet.frames(),
        met: Vec::new(heap),
    };
    for row in 0..=sheet.last_row() {
        meaning.add_row(sheet.task(row))?;
    }
    Ok(meaning.is_met(sheet.last_row(), 0, meaning.frames.saturating_sub(1)))
}

impl Meaning<'_> {
    fn is_met(&self, row: u8, s: u16, e: u16) -> bool {
        let line = usize::from(row) * usize::from(self.frames) + usize::from(s);
        let place = line * usize::from(self.frames) + usize::from(e);
        self.met.get(place).copied().unwrap_or(false)
    }

    fn add_row(&mut self, task: Task) -> Result<(), AllocError> {
        for s in 0..self.frames {
            self.add_start(task, s)?;
        }
        Ok(())
    }

    fn add_start(&mut self, task: Task, s: u16) -> Result<(), AllocError> {
        for e in 0..self.frames {
            let met = s <= e && self.asks(task, s, e);
            self.met.push(met)?;
        }
        Ok(())
    }

    fn asks(&self, task: Task, s: u16, e: u16) -> bool {
        match task {
            Task::Always => true,
            Task::Hold { duration, fact } => {
                let last = s.saturating_add(u16::from(duration));
                last <= e && self.is_held(fact, true, s, last)
            }
            Task::HoldOff { duration, fact } => {
                let last = s.saturating_add(u16::from(duration));
                last <= e && self.is_held(fact, false, s, last)
            }
            Task::Both { left, right } => self.is_met(left, s, e) && self.is_met(right, s, e),
            Task::Either { left, right } => self.is_met(left, s, e) || self.is_met(right, s, e),
            Task::Not { row } => !self.is_met(row, s, e),
            Task::Then { left, right } => self
                .first_end(left, s, e)
                .is_some_and(|t| self.is_met(right, t.saturating_add(1), e)),
            Task::Within { from, to, row } => {
                let first = s.saturating_add(u16::from(from));
                let last = s.saturating_add(u16::from(to));
                last <= e && (first..=last).any(|t| self.is_met(row, t, last))
            }
        }
    }

    // The first frame before e that the row is met up to, from s on.
    fn first_end(&self, row: u8, s: u16, e: u16) -> Option<u16> {
        (s..e).find(|t| self.is_met(row, s, *t))
    }

    fn is_held(&self, fact: u8, on: bool, s: u16, last: u16) -> bool {
        let facts = usize::from(self.sheet.facts);
        (s..=last).all(|t| {
            let place = usize::from(t) * facts + usize::from(fact);
            self.take.get(place) == Some(&on)
        })
    }
}
