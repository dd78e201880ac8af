//! What holds of the pieces.
ghost use Rattle.kid_seqs.specs.Examples.{SeqsExamples};
ghost use Rattle.kid_seqs.specs.SeqsPieces.{SeqsAreLawful};

/// The pieces of the search of sequences make a lawful space, whose start every value of the goal satisfies.
pub fn sequences_are_lawful()
    ensures { SeqsAreLawful }
{}

/// Small searches, as they are computed from the definitions.
pub fn searches_by_example()
    ensures { SeqsExamples }
{}
