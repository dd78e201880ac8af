//! Lists of so many trees.
ghost use Rattle.std.specs.Prelude.{◌≡◌, ◌≢◌, ◌∷◌, [], MatchOption, length};

use kid_sexp::Tree;

/// The tree of a list of one.
#[tactic(auto, using(crate::proofs::Lengths::items))]
pub fn single(trees: &[Tree]) -> Option<&Tree>
    ensures { MatchOption result (length trees.now ≢ 1) (λ t. trees.now ≡ t.now ∷ []) }
{
    let [first] = trees else {
        return None;
    };
    Some(first)
}

/// The trees of a list of two.
#[tactic(auto, using(crate::proofs::Lengths::items))]
pub fn couple(trees: &[Tree]) -> Option<(&Tree, &Tree)>
    ensures { MatchOption result (length trees.now ≢ 2) (λ p. trees.now ≡ p.0.now ∷ p.1.now ∷ []) }
{
    let [first, second] = trees else {
        return None;
    };
    Some((first, second))
}

/// The trees of a list of three.
#[tactic(auto, using(crate::proofs::Lengths::items))]
pub fn triple(trees: &[Tree]) -> Option<(&Tree, &Tree, &Tree)>
    ensures { MatchOption result (length trees.now ≢ 3) (λ p. trees.now ≡ p.0.now ∷ p.1.now ∷ p.2.now ∷ []) }
{
    let [first, second, third] = trees else {
        return None;
    };
    Some((first, second, third))
}
