// What bytes come to as a sheet: for each rule the lowest row that breaks it, and from these the answer.
use crate::second::reason::{Flaw, Reason};
use crate::second::set::Set;
use crate::second::task::Task;
use std::alloc::{AllocError, Global};

// A row as it was read.
#[derive(Clone, Copy)]
pub struct Line {
    // Its task, or why its bytes are none.
    read: Result<Task, Reason>,
    pub length: u16,
    // Itself and all rows that are named below it, at any depth.
    below: Set,
}

impl Line {
    // Bytes that are no task ask for nothing.
    pub(crate) fn task(self) -> Task {
        self.read.unwrap_or(Task::Always)
    }
}

#[derive(Drop)]
pub struct Reading {
    pub facts: u8,
    pub lines: Vec<Line>,
}

// The number of facts, the kinds and the operands; nothing where the sizes are wrong.
fn parts(bytes: &[u8]) -> Option<(u8, &[u8], &[u8])> {
    let [facts, count, rest @ ..] = bytes else {
        return None;
    };
    let sizes_right = matches!(*facts, 1..=16) && matches!(*count, 1..=32);
    if !sizes_right || rest.len() != 4 * usize::from(*count) {
        return None;
    }
    let (kinds, operands) = rest.split_at_checked(usize::from(*count))?;
    Some((*facts, kinds, operands))
}

impl Reading {
    // The sheet that the bytes are, or the rule that they break.
    pub(crate) fn of(heap: Global, bytes: &[u8]) -> Result<Result<Reading, Flaw>, AllocError> {
        let Some((facts, kinds, operands)) = parts(bytes) else {
            return Ok(Err(Flaw {
                reason: Reason::Sizes,
                row: 0,
            }));
        };
        let mut reading = Reading {
            facts,
            lines: Vec::new(heap),
        };
        for (kind, triple) in kinds.iter().zip(operands.chunks(3)) {
            if let [p, q, r] = triple {
                reading.add(Task::try_from([*kind, *p, *q, *r]))?;
            }
        }
        Ok(match reading.flaw() {
            Some(flaw) => Err(flaw),
            None => Ok(reading),
        })
    }

    fn add(&mut self, read: Result<Task, Reason>) -> Result<(), AllocError> {
        let task = read.unwrap_or(Task::Always);
        let line = Line {
            read,
            length: self.length_of(task),
            below: self.below_of(task),
        };
        self.lines.push(line)?;
        Ok(())
    }

    fn line(&self, row: u8) -> Option<Line> {
        self.lines.get(usize::from(row)).copied()
    }

    pub(crate) fn task(&self, row: u8) -> Task {
        self.line(row).map_or(Task::Always, |line| line.task())
    }

    pub(crate) fn length(&self, row: u8) -> u16 {
        self.line(row).map_or(0, |line| line.length)
    }

    pub(crate) fn last_row(&self) -> u8 {
        u8::try_from(self.lines.len())
            .unwrap_or(0)
            .saturating_sub(1)
    }

    // How many frames a take has.
    pub(crate) fn frames(&self) -> u16 {
        self.length(self.last_row()).saturating_add(1)
    }

    // How many grades there are in the frames of a take and so many frames more.
    pub(crate) fn grades(&self, more: u16) -> usize {
        usize::from(self.facts) * usize::from(self.frames().saturating_add(more))
    }

    // How many cells there are in a chart.
    pub(crate) fn cells(&self) -> usize {
        usize::from(self.last_row().saturating_add(1)) * usize::from(self.frames())
    }

    fn length_of(&self, task: Task) -> u16 {
        match task {
            Task::Always => 0,
            Task::Hold { duration, .. } | Task::HoldOff { duration, .. } => u16::from(duration),
            Task::Both { left, right } | Task::Either { left, right } => {
                self.length(left).max(self.length(right))
            }
            Task::Not { row } => self.length(row),
            Task::Then { left, right } => self
                .length(left)
                .saturating_add(self.length(right))
                .saturating_add(1),
            Task::Within { to, .. } => u16::from(to),
        }
    }

    fn all_below(&self, row: u8) -> Set {
        self.line(row).map_or(Set::empty(), |line| line.below)
    }

    // The next row, with all that is below the rows that it names.
    fn below_of(&self, task: Task) -> Set {
        let at = u8::try_from(self.lines.len()).unwrap_or(u8::MAX);
        task.named()
            .into_iter()
            .flatten()
            .fold(Set::empty().with(at), |all, row| {
                all.joined(self.all_below(row))
            })
    }

    // The inner rows: all that is below the row of a within, or the left side of a then.
    fn inner(&self) -> Set {
        self.lines
            .iter()
            .fold(Set::empty(), |inner, line| match line.task() {
                Task::Then { left: row, .. } | Task::Within { row, .. } => {
                    inner.joined(self.all_below(row))
                }
                _ => inner,
            })
    }

    fn is_named(&self, row: u8) -> bool {
        self.lines
            .iter()
            .any(|line| line.task().named().contains(&Some(row)))
    }

    fn misread(&self, row: u8, reason: Reason) -> bool {
        self.line(row)
            .is_some_and(|line| line.read.err() == Some(reason))
    }

    fn wrong_inside(&self, row: u8) -> bool {
        match self.task(row) {
            Task::Not { .. } => true,
            Task::Either { left, right } => self.length(left) != self.length(right),
            _ => false,
        }
    }

    // The lowest row that breaks a rule.
    fn lowest<F: Fn(&u8) -> bool>(&self, reason: Reason, breaks: F) -> Option<Flaw>
        requires { (state : F) (x : _) → F.pre state x }
    {
        let row = (0..=self.last_row()).find(breaks)?;
        Some(Flaw { reason, row })
    }

    // Of the rules that a row breaks by itself, the one that is broken at the lowest row, and at that row the first of them.
    fn row_flaw(&self) -> Option<Flaw> {
        let flaws = [
            self.lowest(Reason::Kind, |row| self.misread(*row, Reason::Kind)),
            self.lowest(Reason::Operand, |row| {
                self.misread(*row, Reason::Operand) || !self.task(*row).fits(self.facts, *row)
            }),
            self.lowest(Reason::Length, |row| self.length(*row) > 255),
        ];
        flaws.into_iter().flatten().min_by_key(|flaw| flaw.row)
    }

    // The rule that is broken, by the order in which the rules are tested.
    fn flaw(&self) -> Option<Flaw> {
        let inner = self.inner();
        self.row_flaw()
            .or(self.lowest(Reason::Unnamed, |row| {
                *row != self.last_row() && !self.is_named(*row)
            }))
            .or(self.lowest(Reason::Inner, |row| {
                inner.has(*row) && self.wrong_inside(*row)
            }))
    }
}
