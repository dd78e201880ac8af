//! What holds of every search.
ghost use Rattle.kid_search.specs.PlanLaws.{MatchedIsLawful, PlansFindAll, PlansFindFirst, DesignsAnswer};
ghost use Rattle.kid_search.specs.RangeCuts.{RangeCutsLoseNothing};
ghost use Rattle.kid_search.specs.RangePieces.{RangeIsLawful};
ghost use Rattle.kid_search.specs.SearchExamples.{SearchExamples};
ghost use Rattle.kid_search.specs.SearchLaws.{SearchesFindAll, SearchesFindFirst};

/// A search through a lawful space, with cuts and filters that lose no feasible value, finds all answers of the problem, each once
/// and in ascending order.
pub fn searches_find_all()
    ensures { SearchesFindAll }
{}

/// As far as values are wanted, it finds as many of the first answers.
pub fn searches_find_first()
    ensures { SearchesFindFirst }
{}

/// The search of a lawful plan finds all answers, each once and in ascending order.
pub fn plans_find_all()
    ensures { PlansFindAll }
{}

/// As far as values are wanted, the search of a lawful plan finds as many of the first answers.
pub fn plans_find_first()
    ensures { PlansFindFirst }
{}

/// At each good input of a theory the search of a plan that is lawful there is the answer.
pub fn designs_answer()
    ensures { DesignsAnswer }
{}

/// A plan of lawful pieces, without cuts and filters, is lawful where its goal holds.
pub fn matched_plans_are_lawful()
    ensures { MatchedIsLawful }
{}

/// The pieces of the search of an interval make a lawful space, whose start every value in the interval satisfies.
pub fn ranges_are_lawful()
    ensures { RangeIsLawful }
{}

/// A cut of an interval keeps descriptors good and the rank no higher, stands for no more, and loses no value of which its fact is true.
pub fn range_cuts_lose_nothing()
    ensures { RangeCutsLoseNothing }
{}

/// What small searches find, and how many visits they take.
pub fn searches_by_example()
    ensures { SearchExamples }
{}
