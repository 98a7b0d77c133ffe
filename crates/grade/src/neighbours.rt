// Neighbours that are wrong: why the flip of a margin is -1 - m, and why its sign is cut at 0.
ghost use Rattle.grade.specs.Neighbours.{NoFlipBySign, NoCutAtOne};

pub fn no_flip_by_sign()
    ensures { NoFlipBySign }
{}

pub fn no_cut_at_one()
    ensures { NoCutAtOne }
{}
