// What a row asks for, and the four bytes that it is written in: the number of its kind and the operands p, q and r.
use crate::second::reason::Reason;

#[derive(Clone, Copy, Debug, PartialEq, Eq)]
pub enum Task {
    Always,
    Hold { duration: u8, fact: u8 },
    HoldOff { duration: u8, fact: u8 },
    Both { left: u8, right: u8 },
    Either { left: u8, right: u8 },
    Not { row: u8 },
    Then { left: u8, right: u8 },
    Within { from: u8, to: u8, row: u8 },
}

impl TryFrom<[u8; 4]> for Task {
    type Error = Reason;

    fn try_from(bytes: [u8; 4]) -> Result<Task, Reason> {
        match bytes {
            [0, 0, 0, 0] => Ok(Task::Always),
            [1, duration, fact, 0] => Ok(Task::Hold { duration, fact }),
            [2, duration, fact, 0] => Ok(Task::HoldOff { duration, fact }),
            [3, left, right, 0] => Ok(Task::Both { left, right }),
            [4, left, right, 0] => Ok(Task::Either { left, right }),
            [5, row, 0, 0] => Ok(Task::Not { row }),
            [6, left, right, 0] => Ok(Task::Then { left, right }),
            [7, from, to, row] => Ok(Task::Within { from, to, row }),
            [0..=6, ..] => Err(Reason::Operand),
            _ => Err(Reason::Kind),
        }
    }
}

impl From<Task> for [u8; 4] {
    fn from(task: Task) -> [u8; 4] {
        match task {
            Task::Always => [0, 0, 0, 0],
            Task::Hold { duration, fact } => [1, duration, fact, 0],
            Task::HoldOff { duration, fact } => [2, duration, fact, 0],
            Task::Both { left, right } => [3, left, right, 0],
            Task::Either { left, right } => [4, left, right, 0],
            Task::Not { row } => [5, row, 0, 0],
            Task::Then { left, right } => [6, left, right, 0],
            Task::Within { from, to, row } => [7, from, to, row],
        }
    }
}

impl Task {
    // The number of its kind.
    pub(crate) fn kind(self) -> u8 {
        let [kind, ..]: [u8; 4] = self.into();
        kind
    }

    // The rows that it names.
    pub(crate) fn named(self) -> [Option<u8>; 2] {
        match self {
            Task::Always | Task::Hold { .. } | Task::HoldOff { .. } => [None, None],
            Task::Both { left, right }
            | Task::Either { left, right }
            | Task::Then { left, right } => { [Some(left), Some(right)] }
            Task::Not { row } | Task::Within { row, .. } => [Some(row), None],
        }
    }

    // Whether it may be row `at` of a sheet of so many facts.
    pub(crate) fn fits(self, facts: u8, at: u8) -> bool {
        let names_lower = self.named().into_iter().flatten().all(|row| row < at);
        match self {
            Task::Hold { fact, .. } | Task::HoldOff { fact, .. } => fact < facts,
            Task::Within { from, to, .. } => names_lower && from <= to,
            _ => names_lower,
        }
    }
}
