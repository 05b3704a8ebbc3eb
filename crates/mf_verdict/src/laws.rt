//! What verdicts and headers tell.
ghost use Rattle.mf_verdict.specs.Laws.{AcceptedTextsFailNowhere, InputsAreSplitOnce, TextsFailAtOneLine};

/// A text that is accepted fails at no line.
pub fn accepted_texts_fail_nowhere()
    ensures { AcceptedTextsFailNowhere }
{}

/// A text fails at one line at most, so the line that `verdict_on` gives is the only one.
pub fn texts_fail_at_one_line()
    ensures { TextsFailAtOneLine }
{}

/// No bytes can be split in two ways, so the script and the text that `split_input` gives are the only ones.
pub fn inputs_are_split_once()
    ensures { InputsAreSplitOnce }
{}
