// Whether a sheet is one-sided, in two ways: by the facts that each row reaches, and by following each chain of naming.
use crate::second::reading::Reading;
use crate::second::set::Set;
use crate::second::task::Task;
use std::alloc::{AllocError, Global};

// The facts that are reached.
#[derive(Clone, Copy)]
struct Reached {
    plain: Set,
    turned: Set,
}

impl Reached {
    fn none() -> Reached {
        Reached {
            plain: Set::empty(),
            turned: Set::empty(),
        }
    }

    fn with(self, fact: u8, turned: bool) -> Reached {
        if turned {
            Reached {
                turned: self.turned.with(fact),
                ..self
            }
        } else {
            Reached {
                plain: self.plain.with(fact),
                ..self
            }
        }
    }

    fn joined(self, other: Reached) -> Reached {
        Reached {
            plain: self.plain.joined(other.plain),
            turned: self.turned.joined(other.turned),
        }
    }

    fn over(self) -> Reached {
        Reached {
            plain: self.turned,
            turned: self.plain,
        }
    }

    fn one_sided(self) -> bool {
        self.plain.common(self.turned).is_empty()
    }
}

// What a row reaches, from what the lower rows reach.
fn reached_by(task: Task, lower: &[Reached]) -> Reached {
    let below = task
        .named()
        .into_iter()
        .flatten()
        .filter_map(|row| lower.get(usize::from(row)))
        .fold(Reached::none(), |all, one| all.joined(*one));
    match task {
        Task::Hold { fact, .. } => Reached::none().with(fact, false),
        Task::HoldOff { fact, .. } => Reached::none().with(fact, true),
        Task::Not { .. } => below.over(),
        _ => below,
    }
}

pub(crate) fn by_facts(heap: Global, reading: &Reading) -> Result<bool, AllocError> {
    let mut reached = Vec::new(heap);
    let mut last = Reached::none();
    for line in reading.lines.iter() {
        last = reached_by(line.task(), reached.as_slice());
        reached.push(last)?;
    }
    Ok(last.one_sided())
}

// The end of a chain of naming, and whether there is an odd number of nots on it.
#[derive(Clone, Copy)]
struct Chain {
    row: u8,
    odd: bool,
}

// The same by each chain on its own. Shared rows can make too many of them: then there is no answer.
pub(crate) fn by_chains(heap: Global, reading: &Reading) -> Result<Option<bool>, AllocError> {
    let mut reached = Reached::none();
    let mut chains = Vec::new(heap);
    chains.push(Chain {
        row: reading.last_row(),
        odd: false,
    })?;
    for _ in 0..2000 {
        let Some(Chain { row, odd }) = chains.pop() else {
            return Ok(Some(reached.one_sided()));
        };
        let task = reading.task(row);
        match task {
            Task::Hold { fact, .. } => reached = reached.with(fact, odd),
            Task::HoldOff { fact, .. } => reached = reached.with(fact, !odd),
            _ => {}
        }
        let odd = odd != matches!(task, Task::Not { .. });
        let named = task.named().into_iter().flatten();
        chains.extend(named.map(|row| Chain { row, odd }))?;
    }
    Ok(None)
}
