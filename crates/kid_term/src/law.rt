//! Laws of terms, each the contract of a function that does nothing.
ghost use Rattle.kid_term.specs.Laws.{SortsAreKept, QuotesAreTheirValues, ExchangesKeepValues, AnswersAreDetermined, OneNameIsReplaced, ClosedTermsAreConstant};

/// A sorted term has a value of its sort wherever the names have values of theirs, and every
/// integer in its evaluation stays within plus or minus 2^62.
pub fn sorts_are_kept()
    ensures { SortsAreKept }
{}

/// The term of a value has that value, no free name, and no operator on words or rows.
pub fn quotes_are_their_values()
    ensures { QuotesAreTheirValues }
{}

/// A sorted term keeps its value where a subterm is exchanged for one that has the same value
/// wherever it counts, and that leaves the whole sorted.
pub fn exchanges_keep_values()
    ensures { ExchangesKeepValues }
{}

/// A problem has at most one answer at an input, and so has at most one list of all answers.
pub fn answers_are_determined()
    ensures { AnswersAreDetermined }
{}

/// Terms in the places of several names at once, where there is one name, are the one term in
/// its place.
pub fn one_name_is_replaced()
    ensures { OneNameIsReplaced }
{}

/// A term is closed exactly where no name stands free in it, and it then has the same value in
/// each environment.
pub fn closed_terms_are_constant()
    ensures { ClosedTermsAreConstant }
{}
