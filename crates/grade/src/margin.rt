// A margin: by how much a fact is met, from 0 upward, or missed.
ghost use Rattle.std.specs.Prelude.{◌^◌, ◌<◌};
ghost use Rattle.std.specs.Int.Signed.{mag};

pub mod graded;

#[derive(Clone, Copy, Debug, PartialEq, Eq, PartialOrd, Ord)]
pub struct Margin {
    value: i32,
    // From -2147483648 to 2147483647: `mag` is n both of n and of -1 - n.
    ghost fits: { mag value < 2 ^ 31 },
}
