// Both ends of every row's span, each on its own: the nots are pushed down to the facts, and each window is gone through start by start.
use crate::second::reading::Reading;
use crate::second::scale::{Pair, Scale};
use crate::second::task::Task;
use std::alloc::{AllocError, Global};

// Under an odd number of nots, what asks for all asks for some, and the other way round.
#[derive(Clone, Copy)]
enum Ask {
    All,
    Some,
}

impl Ask {
    fn of(turned: bool) -> Ask {
        if turned { Ask::Some } else { Ask::All }
    }

    fn of_none<T: Scale>(self) -> T {
        match self {
            Ask::All => T::greatest(),
            Ask::Some => T::least(),
        }
    }

    fn both<T: Scale>(self, one: T, other: T) -> T {
        match self {
            Ask::All => one.lower(other),
            Ask::Some => one.higher(other),
        }
    }
}

// Where a start stands, in so many lines of so many frames.
fn place(line: u16, frames: u16, start: u16) -> usize {
    usize::from(line) * usize::from(frames) + usize::from(start)
}

// One end of each row at each start, plain and turned, in the order of the rows.
#[derive(Drop)]
struct Ends<'a, T> {
    sheet: &'a Reading,
    // The grades that were fed, and what stands for all that were not: the least for the low end, the greatest for the high one.
    fed: &'a [T],
    unfed: T,
    frames: u16,
    cells: Vec<T>,
}

impl<'a, T: Scale> Ends<'a, T> {
    fn of(
        heap: Global,
        sheet: &'a Reading,
        fed: &'a [T],
        unfed: T,
    ) -> Result<Ends<'a, T>, AllocError> {
        let mut ends = Ends {
            sheet,
            fed,
            unfed,
            frames: sheet.frames(),
            cells: Vec::new(heap),
        };
        for row in 0..=sheet.last_row() {
            ends.add_row(row, false)?;
            ends.add_row(row, true)?;
        }
        Ok(ends)
    }

    fn end(&self, row: u8, turned: bool, start: u16) -> T {
        let line = 2 * u16::from(row) + u16::from(turned);
        self.cells
            .get(place(line, self.frames, start))
            .copied()
            .unwrap_or(T::least())
    }

    // A start from which the row does not end within the take has a value that nobody asks for.
    fn add_row(&mut self, row: u8, turned: bool) -> Result<(), AllocError> {
        let task = self.sheet.task(row);
        let length = self.sheet.length(row);
        for start in 0..self.frames {
            let value = if start.saturating_add(length) < self.frames {
                self.value(task, turned, start)
            } else {
                T::least()
            };
            self.cells.push(value)?;
        }
        Ok(())
    }

    fn value(&self, task: Task, turned: bool, start: u16) -> T {
        let all = Ask::of(turned);
        let some = Ask::of(!turned);
        match task {
            Task::Always => all.of_none(),
            Task::Hold { duration, fact } => self.held(all, duration, fact, turned, start),
            Task::HoldOff { duration, fact } => self.held(all, duration, fact, !turned, start),
            Task::Both { left, right } => {
                all.both(
                    self.end(left, turned, start),
                    self.end(right, turned, start),
                )
            }
            Task::Either { left, right } => {
                some.both(
                    self.end(left, turned, start),
                    self.end(right, turned, start),
                )
            }
            Task::Not { row } => self.end(row, !turned, start),
            Task::Then { left, right } => {
                let next = start
                    .saturating_add(self.sheet.length(left))
                    .saturating_add(1);
                all.both(self.end(left, turned, start), self.end(right, turned, next))
            }
            Task::Within { from, to, row } => {
                let first = start.saturating_add(u16::from(from));
                let last = start.saturating_add(u16::from(to));
                self.window(some, row, turned, first, last)
            }
        }
    }

    // A fact in each frame of a hold, turned or not.
    fn held(&self, ask: Ask, duration: u8, fact: u8, turned: bool, start: u16) -> T {
        let last = start.saturating_add(u16::from(duration));
        (start..=last).fold(ask.of_none(), |all, frame| {
            ask.both(all, self.fact(frame, fact, turned))
        })
    }

    // What was not fed counts the same either way.
    fn fact(&self, frame: u16, fact: u8, turned: bool) -> T {
        let at = place(frame, u16::from(self.sheet.facts), u16::from(fact));
        match self.fed.get(at) {
            Some(grade) if turned => grade.turned(),
            Some(grade) => *grade,
            None => self.unfed,
        }
    }

    // Every start of the row from which it ends within the window.
    fn window(&self, ask: Ask, row: u8, turned: bool, first: u16, last: u16) -> T {
        let length = self.sheet.length(row);
        (first..=last)
            .filter(|start| start.saturating_add(length) <= last)
            .fold(ask.of_none(), |all, start| {
                ask.both(all, self.end(row, turned, start))
            })
    }
}

// The span of each row at each start.
#[derive(Drop)]
pub struct Spans<'a, T> {
    low: Ends<'a, T>,
    high: Ends<'a, T>,
}

impl<'a, T: Scale> Spans<'a, T> {
    pub(crate) fn of(
        heap: Global,
        sheet: &'a Reading,
        fed: &'a [T],
    ) -> Result<Spans<'a, T>, AllocError> {
        Ok(Spans {
            low: Ends::of(heap, sheet, fed, T::least())?,
            high: Ends::of(heap, sheet, fed, T::greatest())?,
        })
    }

    fn span(&self, row: u8, start: u16) -> Pair<T> {
        Pair {
            low: self.low.end(row, false, start),
            high: self.high.end(row, false, start),
        }
    }

    // The span of the rule.
    pub(crate) fn rule(&self) -> Pair<T> {
        self.span(self.low.sheet.last_row(), 0)
    }

    // Writes a row's spans over its line of a chart, from each start from which it ends within the take.
    pub(crate) fn write_row(&self, row: u8, line: &mut [Pair<T>]) {
        let sheet = self.low.sheet;
        let starts = 0..sheet.frames().saturating_sub(sheet.length(row));
        for (cell, start) in line.iter_mut().zip(starts) {
            *cell = self.span(row, start);
        }
    }
}
