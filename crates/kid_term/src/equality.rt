//! Whether two terms are equal.
ghost use Rattle.std.specs.Prelude.{◌≡◌, ◌↔◌, IsTrue, map};
ghost use Rattle.kid_value.specs.SortView.{plain_sort};
ghost use Rattle.kid_term.specs.TermView.{plain_term, plain_head};

use crate::{Binder, Head, Literal, Op, Term};
use kid_value::{Sort, Text};

fn same_op(o: Op, p: Op) -> bool
    ensures { IsTrue result ↔ (o ≡ p) }
{
    o == p
}

fn same_binder(b: Binder, c: Binder) -> bool
    ensures { IsTrue result ↔ (b ≡ c) }
{
    b == c
}

fn same_names(a: &[Text], b: &[Text]) -> bool
    ensures { IsTrue result ↔ (a.now ≡ b.now) }
{
    if a.len() != b.len() {
        return false;
    }
    for (i, name) in a.iter().enumerate() {
        if !name.same(&b[i]) {
            return false;
        }
    }
    true
}

fn same_sort(a: &Sort, b: &Sort) -> bool
    ensures { IsTrue result ↔ (plain_sort a.now ≡ plain_sort b.now) }
{
    match (a, b) {
        (Sort::Never, Sort::Never) => true,
        (Sort::Bool, Sort::Bool) => true,
        (Sort::Int { lo, hi }, Sort::Int { lo: low, hi: high }) => *lo == *low && *hi == *high,
        (Sort::Pair(a, b), Sort::Pair(c, d)) => same_sort(a, c) && same_sort(b, d),
        (Sort::Set(a), Sort::Set(c)) => same_sort(a, c),
        (Sort::Seq { item: a, bound: n }, Sort::Seq { item: c, bound: m }) => same_sort(a, c)
            && *n == *m,
        (Sort::Map(a, b), Sort::Map(c, d)) => same_sort(a, c) && same_sort(b, d),
        (Sort::Enum(m), Sort::Enum(n)) => same_names(m.items(), n.items()),
        _ => false,
    }
}

fn same_head(a: &Head, b: &Head) -> bool
    ensures { IsTrue result ↔ (plain_head a.now ≡ plain_head b.now) }
{
    match (a, b) {
        (Head::Op(o), Head::Op(p)) => same_op(*o, *p),
        (Head::Call(f), Head::Call(g)) => f.same(g),
        (Head::Cast(s), Head::Cast(t)) => same_sort(s, t),
        _ => false,
    }
}

/// Whether the terms are equal, names of binders included. Takes no memory.
#[cycle(equal)]
pub fn same(a: &Term, b: &Term) -> bool
    ensures { IsTrue result ↔ (plain_term a.now ≡ plain_term b.now) }
{
    match (a, b) {
        (Term::Var(x), Term::Var(y)) => x.same(y),
        (Term::Lit(Literal::Int(m)), Term::Lit(Literal::Int(n))) => *m == *n,
        (Term::Lit(Literal::Bool(p)), Term::Lit(Literal::Bool(q))) => *p == *q,
        (Term::Lit(Literal::Tag(m)), Term::Lit(Literal::Tag(n))) => m.same(n),
        (Term::App(g, ts), Term::App(h, us)) => same_head(g, h) && all_same(&ts.items, &us.items),
        (Term::Bind(b, x, s, t), Term::Bind(c, y, u, v)) => same_binder(*b, *c)
            && x.same(y)
            && same(&s.inner, &u.inner)
            && same(&t.inner, &v.inner),
        _ => false,
    }
}

#[cycle(equal)]
fn all_same(a: &[Term], b: &[Term]) -> bool
    ensures { IsTrue result ↔ (map plain_term a.now ≡ map plain_term b.now) }
{
    match (a.split_first(), b.split_first()) {
        (None, None) => true,
        (Some((t, ts)), Some((u, us))) => same(t, u) && all_same(ts, us),
        _ => false,
    }
}
