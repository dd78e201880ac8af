//! Lists of so many terms.
ghost use Rattle.std.specs.Prelude.{◌≡◌, ◌≢◌, ◌∷◌, [], MatchOption, length};

use kid_term::Term;

/// The term of a list of one.
pub fn single(terms: &[Term]) -> Option<&Term>
    ensures { MatchOption result (length terms.now ≢ 1) (λ t. terms.now ≡ t.now ∷ []) }
{
    let [first] = terms else {
        return None;
    };
    Some(first)
}

/// The terms of a list of two.
pub fn couple(terms: &[Term]) -> Option<(&Term, &Term)>
    ensures { MatchOption result (length terms.now ≢ 2) (λ p. terms.now ≡ p.0.now ∷ p.1.now ∷ []) }
{
    let [first, second] = terms else {
        return None;
    };
    Some((first, second))
}

/// The terms of a list of three.
pub fn triple(terms: &[Term]) -> Option<(&Term, &Term, &Term)>
    ensures { MatchOption result (length terms.now ≢ 3) (λ p. terms.now ≡ p.0.now ∷ p.1.now ∷ p.2.now ∷ []) }
{
    let [first, second, third] = terms else {
        return None;
    };
    Some((first, second, third))
}
