//! Laws of legal histories about what their texts tell.
ghost use Rattle.mf_reading.specs.Laws.{LegalHistoriesAreRead, RepliesFit, SourcesAreNoLine, WholeTextTellsHistory};

/// Over a legal history of a well-formed script each reply fits the fields of its line: its numbers, bytes, names, labels and rules.
pub fn replies_fit()
    ensures { RepliesFit }
{}

/// A legal history of a well-formed script is one that can be read, so `read_history` gives it back from its text.
pub fn legal_histories_are_read()
    ensures { LegalHistoriesAreRead }
{}

/// The text of the sources begins otherwise than a history's lines do, so a whole text falls apart into the two in one way.
pub fn sources_are_no_line()
    ensures { SourcesAreNoLine }
{}

/// Two different legal histories of one script have different whole texts: those that a run writes, with the sources.
pub fn whole_text_tells_history()
    ensures { WholeTextTellsHistory }
{}
