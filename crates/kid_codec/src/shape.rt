//! Forms, and lists of so many trees. No call takes memory.
ghost use Rattle.std.specs.Prelude.{◌≡◌, option_map};
ghost use Rattle.kid_sexp.specs.Tree.{plain, plains};
ghost use Rattle.kid_codec.specs.Shape.{is_atom, form, single, couple, quadruple};

use kid_sexp::Tree;

/// Whether the tree is this word.
pub fn is_atom(word: &[u8], tree: &Tree) -> bool
    ensures { result ≡ is_atom word.now (plain tree.now) }
{
    match tree {
        Tree::Atom(text) => text.is(word),
        Tree::List(_) => false,
    }
}

/// What stands behind the word in a form that begins with it, and None where the tree is no such form.
pub fn form<'a>(word: &[u8], tree: &'a Tree) -> Option<&'a [Tree]>
    ensures { option_map (λ ts. plains ts.now) result ≡ form word.now (plain tree.now) }
{
    match tree {
        Tree::Atom(_) => None,
        Tree::List(forest) => {
            let (head, rest) = forest.as_slice().split_first()?;
            if is_atom(word, head) {
                Some(rest)
            } else {
                None
            }
        }
    }
}

/// The tree of a list of one, and None where there are more or fewer.
#[tactic(auto, using(crate::proofs::Shapes::shapes))]
pub fn single(trees: &[Tree]) -> Option<&Tree>
    ensures { option_map (λ t. plain t.now) result ≡ single (plains trees.now) }
{
    match trees {
        [tree] => Some(tree),
        _ => None,
    }
}

/// The trees of a list of two, and None where there are more or fewer.
#[tactic(auto, using(crate::proofs::Shapes::shapes))]
pub fn couple(trees: &[Tree]) -> Option<(&Tree, &Tree)>
    ensures { option_map (λ p. (plain p.0.now, plain p.1.now)) result ≡ couple (plains trees.now) }
{
    match trees {
        [first, second] => Some((first, second)),
        _ => None,
    }
}

/// The trees of a list of four, and None where there are more or fewer.
#[tactic(auto, using(crate::proofs::Shapes::shapes))]
pub fn quadruple(trees: &[Tree]) -> Option<(&Tree, &Tree, &Tree, &Tree)>
    ensures { option_map (λ q. (plain q.0.now, plain q.1.now, plain q.2.now, plain q.3.now)) result ≡ quadruple (plains trees.now) }
{
    match trees {
        [first, second, third, fourth] => Some((first, second, third, fourth)),
        _ => None,
    }
}
