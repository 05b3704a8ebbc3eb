//! Each script that is read is well formed.
ghost use Rattle.mf_script.specs.Formed.{ScriptsAreWellFormed};

/// Where bytes are a script, and no more than one may have, it is well formed.
pub fn scripts_are_well_formed()
    ensures { ScriptsAreWellFormed }
{}
