//! Laws of scripts and their spelling.
ghost use Rattle.mf_spelled.specs.Laws.{CanonicalTextsAreRead, CanonicalTextsSpell, FaultsAreFirst, ReadScriptsAreSpellable, ScriptsAreTheirTexts};

/// Bytes are read as a script where they spell it and it is well formed, and only there.
pub fn scripts_are_their_texts()
    ensures { ScriptsAreTheirTexts }
{}

/// The first fault of a text is in the line that the reader names.
pub fn faults_are_first()
    ensures { FaultsAreFirst }
{}

/// The canonical text of a well-formed script that can be spelled is a text of it, and is read back as that script where it
/// is no longer than a script may be.
pub fn canonical_texts_are_read()
    ensures spell { CanonicalTextsSpell }
    ensures read { CanonicalTextsAreRead }
{}

/// Each script that is read can be spelled, so its canonical text is read back where it is no longer than a script may be.
pub fn read_scripts_are_spellable()
    ensures { ReadScriptsAreSpellable }
{}
