// Voices: sixteen answers at once, a bit for each.
ghost use Rattle.std.specs.Prelude.{◌^◌, ◌<◌};

pub mod graded;

#[derive(Clone, Copy, Debug, PartialEq, Eq)]
pub struct Voices {
    bits: u16,
    ghost fits: { bits < 2 ^ 16 },
}
