//! Laws of what trees spell, each the contract of a function that does nothing.
ghost use Rattle.kid_codec.specs.ReadSpellings.{SpelledSortsAreRead, SpelledTermsAreRead};
ghost use Rattle.kid_codec.specs.SpelledExamples.{SpelledExamples};
ghost use Rattle.kid_codec.specs.SpelledValue.{SortedAreSpelled, SpellsOnce, SpellsCanonical};

/// A tree that spells a sort is read as that sort. What `sort_from` read, the tree spells, say its clauses.
pub fn spelled_sorts_are_read()
    ensures { SpelledSortsAreRead }
{}

/// A tree that spells a term is read as that term. What `term_of` read, the tree spells, say its clauses.
pub fn spelled_terms_are_read()
    ensures { SpelledTermsAreRead }
{}

/// A tree spells one value at most.
pub fn values_are_spelled_once()
    ensures { SpellsOnce }
{}

/// In a value that a tree spells the sets ascend, at any depth, and the maps by their keys.
pub fn spelled_values_are_canonical()
    ensures { SpellsCanonical }
{}

/// Each value of a sort that has a spelling has one, so that it can be printed.
pub fn sorted_values_are_spelled()
    ensures { SortedAreSpelled }
{}

/// `(set 2 1 2)` spells the set of 1 and 2, and `(map (1 2) (1 2))` spells no value.
pub fn spelled_values_by_example()
    ensures { SpelledExamples }
{}
