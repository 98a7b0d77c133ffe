// Grows sheets, row by row, so that each row but the last is named.
use crate::dice::Dice;
use crate::second::task::Task;
use std::alloc::{AllocError, Global};

// What sheets to grow.
#[derive(Clone, Copy)]
pub struct Shape {
    pub facts: u8,
    pub rows: u8,
    // The longest hold.
    pub hold: u8,
    // The longest row.
    pub most: u8,
    // How seldom a new row is a hold: the more, the deeper.
    pub depth: u8,
    // Whether every rule is kept; else a then may be too long, and an inner row wrong.
    pub careful: bool,
}

#[derive(Clone, Copy)]
struct Sketch {
    task: Task,
    length: u16,
    // Whether it may be an inner row, with all that is below it.
    fit: bool,
}

const NOTHING: Sketch = Sketch {
    task: Task::Always,
    length: 0,
    fit: true,
};

#[derive(Drop)]
pub struct Draft {
    shape: Shape,
    rows: Vec<Sketch>,
    // The rows that no row names yet.
    free: Vec<u8>,
}

impl Draft {
    pub(crate) fn grown(heap: Global, dice: &mut Dice, shape: Shape) -> Result<Draft, AllocError> {
        let mut draft = Draft {
            shape,
            rows: Vec::new(heap),
            free: Vec::new(heap),
        };
        for left in (1..=shape.rows).rev() {
            let row = draft.next_row(dice, usize::from(left));
            draft.add(row)?;
        }
        Ok(draft)
    }

    fn sketch(&self, row: u8) -> Sketch {
        self.rows.get(usize::from(row)).copied().unwrap_or(NOTHING)
    }

    fn add(&mut self, row: Sketch) -> Result<(), AllocError> {
        let at = u8::try_from(self.rows.len()).unwrap_or(u8::MAX);
        self.rows.push(row)?;
        self.free.push(at)?;
        Ok(())
    }

    // A row that no row names, to be named by the next one.
    fn take_free(&mut self, dice: &mut Dice) -> u8 {
        let at = dice.below(self.free.len());
        if at < self.free.len() {
            self.free.swap_remove(at)
        } else {
            0
        }
    }

    fn any_row(&self, dice: &mut Dice) -> u8 {
        u8::try_from(dice.below(self.rows.len())).unwrap_or(0)
    }

    // The next row, with so many still to come, it included: there have to be enough to name all that are free.
    fn next_row(&mut self, dice: &mut Dice, left: usize) -> Sketch {
        let free = self.free.len();
        if free == 0 || (free < left && dice.once_in(self.shape.depth)) {
            return self.leaf(dice);
        }
        let row = self.take_free(dice);
        let joins = free > left || (free > 1 && dice.once_in(2));
        let other = if joins {
            self.take_free(dice)
        } else {
            self.any_row(dice)
        };
        match dice.up_to(8) {
            0 | 1 => self.both(row, other),
            2 | 3 => self.either(row, other),
            4 | 5 => self.then(row, other),
            6 if !joins => self.turned(row),
            7 | 8 if !joins => self.window(dice, row),
            _ => self.then(other, row),
        }
    }

    fn leaf(&self, dice: &mut Dice) -> Sketch {
        let long = dice.up_to(self.shape.hold);
        let duration = if dice.once_in(2) { long } else { long.min(2) };
        let fact = dice.up_to(self.shape.facts.saturating_sub(1));
        match dice.up_to(6) {
            0 => NOTHING,
            1 | 2 | 3 => held(Task::Hold { duration, fact }, duration),
            _ => held(Task::HoldOff { duration, fact }, duration),
        }
    }

    fn both(&self, left: u8, right: u8) -> Sketch {
        let first = self.sketch(left);
        let second = self.sketch(right);
        Sketch {
            task: Task::Both { left, right },
            length: first.length.max(second.length),
            fit: first.fit && second.fit,
        }
    }

    fn either(&self, left: u8, right: u8) -> Sketch {
        let both = self.both(left, right);
        Sketch {
            task: Task::Either { left, right },
            fit: both.fit && self.sketch(left).length == self.sketch(right).length,
            ..both
        }
    }

    // One that would be refused becomes a both.
    fn then(&self, left: u8, right: u8) -> Sketch {
        let first = self.sketch(left);
        let second = self.sketch(right);
        let length = first.length.saturating_add(second.length).saturating_add(1);
        let refused = length > u16::from(self.shape.most) || !first.fit;
        if self.shape.careful && refused {
            return self.both(left, right);
        }
        Sketch {
            task: Task::Then { left, right },
            length,
            fit: first.fit && second.fit,
        }
    }

    fn turned(&self, row: u8) -> Sketch {
        Sketch {
            task: Task::Not { row },
            length: self.sketch(row).length,
            fit: false,
        }
    }

    // A window that its row mostly fits in. One that would be refused becomes a not.
    fn window(&self, dice: &mut Dice, row: u8) -> Sketch {
        let part = self.sketch(row);
        if self.shape.careful && !part.fit {
            return self.turned(row);
        }
        let half = self.shape.hold / 2;
        let from = dice.up_to(half);
        let room = if dice.once_in(5) { 0 } else { part.length };
        let end = u16::from(from)
            .saturating_add(room)
            .saturating_add(u16::from(dice.up_to(half)));
        let to = u8::try_from(end)
            .unwrap_or(u8::MAX)
            .min(self.shape.most)
            .max(from);
        Sketch {
            task: Task::Within { from, to, row },
            length: u16::from(to),
            fit: part.fit,
        }
    }

    // Two rows more, which make the rule exactly 255 long.
    pub(crate) fn stretch(&mut self, dice: &mut Dice) -> Result<(), AllocError> {
        let top = self.take_free(dice);
        let rule = self.sketch(top);
        let follows = rule.fit && rule.length < 255 && dice.once_in(2);
        let rest = 254u16.saturating_sub(rule.length);
        let duration = if follows {
            u8::try_from(rest).unwrap_or(0)
        } else {
            255
        };
        self.add(held(Task::Hold { duration, fact: 0 }, duration))?;
        let added = self.take_free(dice);
        let last = if follows {
            self.then(top, added)
        } else if dice.once_in(2) {
            self.both(top, added)
        } else {
            self.either(top, added)
        };
        self.add(last)
    }

    // The sizes, the kinds, and the operands.
    pub(crate) fn bytes(&self, heap: Global) -> Result<Vec<u8>, AllocError> {
        let rows = u8::try_from(self.rows.len()).unwrap_or(u8::MAX);
        let mut bytes = vec![in heap; self.shape.facts, rows]?;
        bytes.extend(self.rows.iter().map(|row| row.task.kind()))?;
        for row in self.rows.iter() {
            let [_, p, q, r]: [u8; 4] = row.task.into();
            bytes.extend_from_slice(&[p, q, r])?;
        }
        Ok(bytes)
    }
}

fn held(task: Task, duration: u8) -> Sketch {
    Sketch {
        task,
        length: u16::from(duration),
        fit: true,
    }
}
