//! Laws of step runs.
ghost use Rattle.mf_steps.specs.Laws.{StepRunsAreLegal, StepRunsEndOneWay, StepTextsTellHistories};

/// The history of a step run is legal for its script, whatever steps the script has.
pub fn step_runs_are_legal()
    ensures { StepRunsAreLegal }
{}

/// The steps of a script are all taken, with one text and one history, or one of them is the first that is refused: never
/// both.
pub fn step_runs_end_one_way()
    ensures { StepRunsEndOneWay }
{}

/// The lines of a step run are those of its history, with lines `stale` and `waits` between them.
pub fn step_texts_tell_histories()
    ensures { StepTextsTellHistories }
{}
