// Numbers that look random, and are the same on every run.
ghost use Rattle.std.specs.Prelude.{◌≤◌};

use std::alloc::{AllocError, Global};

// A value that the dice can draw.
pub trait Drawn: Drop {
    fn drawn(dice: &mut Dice) -> Self;
}

#[derive(Drop)]
pub struct Dice {
    state: u64,
}

impl Dice {
    pub(crate) fn new(seed: u64) -> Dice {
        Dice { state: seed }
    }

    pub(crate) fn roll(&mut self) -> u64 {
        self.state = self.state.wrapping_add(0x9e37_79b9_7f4a_7c15);
        let mut x = self.state;
        x = (x ^ (x >> 30)).wrapping_mul(0xbf58_476d_1ce4_e5b9);
        x = (x ^ (x >> 27)).wrapping_mul(0x94d0_49bb_1331_11eb);
        x ^ (x >> 31)
    }

    // A number below `count`; 0 where there is none.
    pub(crate) fn below(&mut self, count: usize) -> usize {
        if count == 0 {
            0
        } else {
            (self.roll() % count as u64) as usize
        }
    }

    // A number from 0 to `most`.
    pub(crate) fn up_to(&mut self, most: u8) -> u8
        ensures { result ≤ most }
    {
        (self.roll() % (u64::from(most) + 1)) as u8
    }

    // Yes, once in so many times.
    pub(crate) fn once_in(&mut self, times: u8) -> bool {
        self.up_to(times.saturating_sub(1)) == 0
    }

    pub(crate) fn word(&mut self) -> u16 {
        (self.roll() & 0xffff) as u16
    }

    // So many values.
    pub(crate) fn draw<D: Drawn>(
        &mut self,
        heap: Global,
        count: usize,
    ) -> Result<Vec<D>, AllocError> {
        (0..count).map(|_| D::drawn(self)).collect(heap)
    }
}
