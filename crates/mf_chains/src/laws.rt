//! Laws of chains.
ghost use Rattle.mf_chains.specs.Laws.{ChainsTellSources, KeptChainsAreChains};

/// Over a legal history an element is among a live party's sources exactly where some chain leads to the party with it.
pub fn chains_tell_sources()
    ensures { ChainsTellSources }
{}

/// The chain of each row of the table is one.
pub fn kept_chains_are_chains()
    ensures { KeptChainsAreChains }
{}
