// The three scales that facts are graded on, as plain words, plain numbers, and yes and no. Each grade is a number of its own.
pub trait Scale: Copy + PartialEq + Into<i64> {
    fn least() -> Self;

    fn greatest() -> Self;

    fn lower(self, other: Self) -> Self;

    fn higher(self, other: Self) -> Self;

    fn turned(self) -> Self;
}

// The two ends of a span.
#[derive(Clone, Copy, Debug, PartialEq, Eq)]
pub struct Pair<T> {
    pub low: T,
    pub high: T,
}

impl Scale for bool {
    fn least() -> bool {
        false
    }

    fn greatest() -> bool {
        true
    }

    fn lower(self, other: bool) -> bool {
        if self { other } else { false }
    }

    fn higher(self, other: bool) -> bool {
        if self { true } else { other }
    }

    fn turned(self) -> bool {
        !self
    }
}

impl Scale for u16 {
    fn least() -> u16 {
        0
    }

    fn greatest() -> u16 {
        0xffff
    }

    fn lower(self, other: u16) -> u16 {
        self & other
    }

    fn higher(self, other: u16) -> u16 {
        self | other
    }

    fn turned(self) -> u16 {
        self ^ 0xffff
    }
}

impl Scale for i32 {
    fn least() -> i32 {
        i32::MIN
    }

    fn greatest() -> i32 {
        i32::MAX
    }

    fn lower(self, other: i32) -> i32 {
        self.min(other)
    }

    fn higher(self, other: i32) -> i32 {
        self.max(other)
    }

    // The flip is -1 - m.
    fn turned(self) -> i32 {
        (-1i32).wrapping_sub(self)
    }
}
