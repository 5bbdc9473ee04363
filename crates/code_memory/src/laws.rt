ghost use Rattle.code_memory.specs.Laws.{LowestBaseIsInFirstGap, PlacementsLieApart, DepositsAreMapped};

/// The lowest free base is the one in the first gap that the shape fits into, and where it fits into
/// none no base is free: a law, which does nothing.
pub fn lowest_base_is_in_first_gap()
    ensures { LowestBaseIsInFirstGap }
{}

/// The ranges of two units meet nowhere: a law, which does nothing.
pub fn placements_lie_apart()
    ensures { PlacementsLieApart }
{}

/// A range is mapped from its deposit on, with the bytes deposited: a law, which does nothing.
pub fn deposits_are_mapped()
    ensures { DepositsAreMapped }
{}
