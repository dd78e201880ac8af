//! Whether sorts and terms hold named values.
ghost use Rattle.std.specs.Prelude.{◌≡◌, map};
ghost use Rattle.kid_term.specs.PlainTerm.{term_row};
ghost use Rattle.kid_term.specs.TermView.{plain_term, plain_head};
ghost use Rattle.kid_value.specs.SortView.{plain_sort};
ghost use Rattle.kid_codec.specs.NamedValues.{sort_has_tags, head_has_tags, term_has_tags, terms_have_tags};

use kid_term::{Head, Literal, Term};
use kid_value::Sort;

/// Whether the sort holds an enum, at any depth.
pub fn sort_has_tags(sort: &Sort) -> bool
    ensures { result ≡ sort_has_tags (plain_sort sort.now) }
{
    match sort {
        Sort::Never | Sort::Bool | Sort::Int { .. } => false,
        Sort::Pair(a, b) => sort_has_tags(a) || sort_has_tags(b),
        Sort::Set(a) => sort_has_tags(a),
        Sort::Seq { item, .. } => sort_has_tags(item),
        Sort::Map(a, b) => sort_has_tags(a) || sort_has_tags(b),
        Sort::Enum(_) => true,
    }
}

fn head_has_tags(head: &Head) -> bool
    ensures { result ≡ head_has_tags (plain_head head.now) }
{
    match head {
        Head::Op(_) | Head::Call(_) => false,
        Head::Cast(sort) => sort_has_tags(sort),
    }
}

/// Whether the term holds a tag, or casts to a sort that holds an enum, at any depth.
#[cycle(tagged)]
pub fn term_has_tags(term: &Term) -> bool
    ensures { result ≡ term_has_tags (plain_term term.now) }
{
    match term {
        Term::Lit(Literal::Tag(_)) => true,
        Term::Var(_) | Term::Lit(_) => false,
        Term::App(head, terms) => head_has_tags(head) || terms_have_tags(terms.items()),
        Term::Bind(_, _, set, body) => term_has_tags(set.get()) || term_has_tags(body.get()),
    }
}

#[cycle(tagged)]
fn terms_have_tags(terms: &[Term]) -> bool
    ensures { result ≡ terms_have_tags (term_row (map plain_term terms.now)) }
{
    for term in terms {
        if term_has_tags(term) {
            return true;
        }
    }
    false
}
