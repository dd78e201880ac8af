//! Terms among others, and facts by their numbers.
ghost use Rattle.std.specs.Prelude.{◌≡◌, map, option_map};
ghost use Rattle.kid_term.specs.TermView.{plain_term};
ghost use Rattle.kid_scope.specs.Same as same;
ghost use Rattle.kid_scope.specs.Holds as holds;
ghost use Rattle.kid_scope.specs.Using as using;

use kid_term::Term;

/// Whether two terms are one, names of binders included. Takes no memory.
pub fn same_term(a: &Term, b: &Term) -> bool
    ensures { result ≡ same.same_term (plain_term a.now) (plain_term b.now) }
{
    kid_term::same(a, b)
}

/// Whether the term is one of these. Takes no memory.
pub fn stands_in(term: &Term, terms: &[Term]) -> bool
    ensures { result ≡ holds.stands_in (plain_term term.now) (map plain_term terms.now) }
{
    for other in terms {
        if same_term(term, other) {
            return true;
        }
    }
    false
}

#[tactic(auto, using(crate::proofs::Facts::nth_there, crate::proofs::Facts::nth_beyond))]
fn nth(facts: &[Term], i: usize) -> Option<&Term>
    ensures { option_map (λ t. plain_term t.now) result ≡ using.nth (map plain_term facts.now) i }
{
    if i < facts.len() {
        Some(&facts[i])
    } else {
        None
    }
}

/// The fact of a number, counted from 1, or none where there is no such fact. Takes no memory.
pub fn fact_at(facts: &[Term], k: u32) -> Option<&Term>
    ensures { option_map (λ t. plain_term t.now) result ≡ using.fact_at (map plain_term facts.now) k }
{
    if k == 0 {
        return None;
    }
    nth(facts, k as usize - 1)
}
