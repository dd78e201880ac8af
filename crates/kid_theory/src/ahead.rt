//! Calls of a definition by itself, and of those that stand later. No call takes memory.
ghost use Rattle.std.specs.Prelude.{◌≡◌, map};
ghost use Rattle.kid_sexp.specs.Tree.{plain, plains};
ghost use Rattle.kid_term.specs.PlainTerm.{term_row};
ghost use Rattle.kid_term.specs.TermView.{plain_head, plain_term};
ghost use Rattle.kid_codec.specs.Shape.{form as form_of};
ghost use Rattle.std.specs.Prelude.{codes};
ghost use Rattle.kid_theory.specs.Ahead.{starts_with, is_defined_in, is_ahead, head_ahead, calls_ahead, any_calls_ahead};

use kid_codec::shape::form;
use kid_sexp::Tree;
use kid_term::substitute::is_same;
use kid_term::{Head, Term};
use kid_value::Text;

/// A definition of this name, before these forms.
#[derive(Clone, Copy)]
pub struct Place<'a> {
    pub name: &'a Text,
    pub later: &'a [Tree],
}

/// Whether the form begins as the definition of this name does.
fn defines(name: &Text, tree: &Tree) -> bool
    ensures { result ≡ starts_with name.now (form_of (codes "def") (plain tree.now)) }
{
    match form(b"def", tree) {
        Some([Tree::Atom(word), ..]) => is_same(name, word),
        _ => false,
    }
}

fn is_defined_in(forms: &[Tree], name: &Text) -> bool
    ensures { result ≡ is_defined_in (plains forms.now) name.now }
{
    for tree in forms {
        if defines(name, tree) {
            return true;
        }
    }
    false
}

fn head_ahead(place: &Place, head: &Head) -> bool
    ensures { result ≡ head_ahead place.now.name.now (plains place.now.later.now) (plain_head head.now) }
{
    match head {
        Head::Call(name) => is_same(name, place.name) || is_defined_in(place.later, name),
        Head::Op(_) | Head::Cast(_) => false,
    }
}

/// Whether the body calls its own definition or one that stands later.
#[cycle(calls_ahead)]
pub fn calls_ahead(place: &Place, term: &Term) -> bool
    ensures { result ≡ calls_ahead place.now.name.now (plains place.now.later.now) (plain_term term.now) }
{
    match term {
        Term::Var(_) | Term::Lit(_) => false,
        Term::App(head, args) => head_ahead(place, head) || any_calls_ahead(place, args.items()),
        Term::Bind(_, _, set, body) => {
            calls_ahead(place, set.get()) || calls_ahead(place, body.get())
        }
    }
}

#[cycle(calls_ahead)]
fn any_calls_ahead(place: &Place, terms: &[Term]) -> bool
    ensures { result ≡ any_calls_ahead place.now.name.now (plains place.now.later.now) (term_row (map plain_term terms.now)) }
{
    for term in terms {
        if calls_ahead(place, term) {
            return true;
        }
    }
    false
}
