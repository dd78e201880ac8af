//! What holds of the pieces.
ghost use Rattle.kid_maps.specs.Examples.{MapsExamples};
ghost use Rattle.kid_maps.specs.MapsPieces.{MapsAreLawful};

/// The pieces of the search of maps make a lawful space, whose start every value of the goal satisfies.
pub fn maps_are_lawful()
    ensures { MapsAreLawful }
{}

/// Small searches, as they are computed from the definitions.
pub fn searches_by_example()
    ensures { MapsExamples }
{}
