//! A law about what the book of open entries tells.
ghost use Rattle.mf_share.specs.Laws.{WeightTellsEntries};

/// What the open entries of a core weigh together tells of each task whether it has one, and whether its call is done.
pub fn weight_tells_entries()
    ensures { WeightTellsEntries }
{}
