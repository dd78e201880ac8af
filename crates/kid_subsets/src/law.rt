//! What holds of the pieces.
ghost use Rattle.kid_subsets.specs.Examples.{SubsetsExamples};
ghost use Rattle.kid_subsets.specs.SubsetsCuts.{SubsetsCutsLoseNothing};
ghost use Rattle.kid_subsets.specs.SubsetsPieces.{SubsetsAreLawful};

/// The pieces of the search of subsets make a lawful space, whose start every value of the goal satisfies.
pub fn subsets_are_lawful()
    ensures { SubsetsAreLawful }
{}

/// A cut of subsets keeps descriptors good and the rank no higher, stands for no more, and loses no value of which its fact is true.
pub fn subsets_cuts_lose_nothing()
    ensures { SubsetsCutsLoseNothing }
{}

/// Small searches, as they are computed from the definitions.
pub fn searches_by_example()
    ensures { SubsetsExamples }
{}
