//! Terms without free names.
ghost use Rattle.std.specs.Prelude.{◌≡◌, map};
ghost use Rattle.kid_value.specs.NameSet.{is_among};
ghost use Rattle.kid_term.specs.TermView.{plain_term};
ghost use Rattle.kid_term.specs.PlainTerm.{term_row};
ghost use Rattle.kid_term.specs.Closed as spec;
ghost use Rattle.kid_term.specs.BoundView.{names_of};

use crate::Term;
use crate::substitute::is_same;
use kid_value::Text;

/// The names of the binders above a place.
#[derive(Clone, Copy)]
pub enum Bound<'a> {
    Nothing,
    More(&'a Text, &'a Bound<'a>),
}

impl Term {
    /// Whether no name stands free in the term. Takes no memory.
    pub fn is_closed(&self) -> bool
        ensures { result ≡ spec.is_closed (plain_term self.now) }
    {
        is_over(&Bound::Nothing, self)
    }
}

/// Whether the name is one of a binder above.
fn is_bound<'a>(x: &Text, bound: &'a Bound<'a>) -> bool
    ensures { result ≡ is_among x.now (names_of bound.now) }
{
    match *bound {
        Bound::Nothing => false,
        Bound::More(y, rest) => is_same(x, y) || is_bound(x, rest),
    }
}

/// Whether each free name of the term is among the names.
#[cycle(is_over)]
fn is_over<'a>(bound: &'a Bound<'a>, term: &'a Term) -> bool
    ensures { result ≡ spec.is_over (names_of bound.now) (plain_term term.now) }
{
    match term {
        Term::Var(x) => is_bound(x, bound),
        Term::Lit(_) => true,
        Term::App(_, args) => all_over(bound, &args.items),
        Term::Bind(_, y, set, body) => {
            let inside = Bound::More(y, bound);
            is_over(bound, &set.inner) && is_over(&inside, &body.inner)
        }
    }
}

#[cycle(is_over)]
fn all_over<'a>(bound: &'a Bound<'a>, terms: &'a [Term]) -> bool
    ensures { result ≡ spec.all_over (names_of bound.now) (term_row (map plain_term terms.now)) }
{
    for t in terms {
        if !is_over(bound, t) {
            return false;
        }
    }
    true
}
