// What a watch, its log and its chart come to by the pages, call by call.
use crate::second::ends::Spans;
use crate::second::reading::Reading;
use crate::second::reason::Reason;
use crate::second::scale::{Pair, Scale};
use std::alloc::{AllocError, Global};

#[derive(Drop)]
pub struct Ledger<T> {
    facts: u8,
    frames: u16,
    cells: usize,
    pub accepted: u16,
    pub log: Vec<T>,
    pub chart: Vec<Pair<T>>,
}

impl<T: Scale> Ledger<T> {
    pub(crate) fn new(sheet: &Reading, log: Vec<T>, chart: Vec<Pair<T>>) -> Ledger<T> {
        Ledger {
            facts: sheet.facts,
            frames: sheet.frames(),
            cells: sheet.cells(),
            accepted: 0,
            log,
            chart,
        }
    }

    // How many grades a log has to hold, and how many spans a chart.
    pub(crate) fn log_size(&self) -> usize {
        usize::from(self.facts) * usize::from(self.frames)
    }

    pub(crate) fn chart_size(&self) -> usize {
        self.cells
    }

    // How many grades were fed.
    pub(crate) fn fed(&self) -> usize {
        usize::from(self.accepted) * usize::from(self.facts)
    }

    // The frames that are accepted of a strip, where so much of the log is lent.
    pub(crate) fn feed(&mut self, lent: usize, strip: &[T]) -> Result<u16, Reason> {
        let width = usize::from(self.facts).max(1);
        if lent < self.log_size() {
            return Err(Reason::ShortLog);
        }
        if strip.len() % width != 0 {
            return Err(Reason::BrokenStrip);
        }
        if self.accepted >= self.frames && !strip.is_empty() {
            return Err(Reason::TakeComplete);
        }
        let before = self.accepted;
        let missing = usize::from(self.frames.saturating_sub(before));
        for frame in strip.chunks(width).take(missing) {
            self.accept(frame);
        }
        Ok(self.accepted.saturating_sub(before))
    }

    fn accept(&mut self, frame: &[T]) {
        let first = self.fed();
        for (there, grade) in self.log.iter_mut().skip(first).zip(frame) {
            *there = *grade;
        }
        self.accepted = self.accepted.saturating_add(1);
    }

    // Writes the cells of every row that has some, and gives the rule's span, where so much of the log and of the chart is lent.
    pub(crate) fn mark(
        &mut self,
        heap: Global,
        sheet: &Reading,
        log: usize,
        chart: usize,
    ) -> Result<Result<Pair<T>, Reason>, AllocError> {
        if log < self.log_size() {
            return Ok(Err(Reason::ShortLog));
        }
        if chart < self.chart_size() {
            return Ok(Err(Reason::ShortChart));
        }
        let count = self.fed();
        let fed = self.log.as_slice().get(0..count).unwrap_or(&[]);
        let spans = Spans::of(heap, sheet, fed)?;
        let width = usize::from(self.frames).max(1);
        let lines = self.chart.as_mut_slice().chunks_mut(width);
        for (line, row) in lines.zip(0..=sheet.last_row()) {
            spans.write_row(row, line);
        }
        Ok(Ok(spans.rule()))
    }
}
