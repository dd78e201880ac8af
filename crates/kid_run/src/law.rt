//! Laws of input files and of runs, each the contract of a function that does nothing.
ghost use Rattle.kid_run.specs.InputSpelling.{ReadInputsAreSpelled, SpelledInputsAreRead};
ghost use Rattle.kid_run.specs.Laws.{WholeRunsStay};

/// Inputs that are read are those that the file spells.
pub fn inputs_are_spelled()
    ensures { ReadInputsAreSpelled }
{}

/// Inputs that a file spells are read.
pub fn spelled_inputs_are_read()
    ensures { SpelledInputsAreRead }
{}

/// A run that came to its end is the same with more fuel.
pub fn whole_runs_stay()
    ensures { WholeRunsStay }
{}
