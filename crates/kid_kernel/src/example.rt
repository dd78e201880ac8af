//! Examples of what the definitions say, each the contract of a function that does nothing.
ghost use Rattle.kid_kernel.specs.TheoryExamples.{LawExamples, GoodExamples};

/// Which laws may stand in a small theory, by their sorts and their names.
pub fn laws_by_example()
    ensures { LawExamples }
{}

/// Inputs of a small theory that are not good, each for one reason.
pub fn good_inputs_by_example()
    ensures { GoodExamples }
{}
