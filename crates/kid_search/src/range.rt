//! The search of an interval of numbers by halves.
ghost use Rattle.std.specs.Prelude.{◌≡◌, ◌≢◌, ◌∷◌, [], IfOk, MatchOption, true, pos, ◌+ℤ◌, ◌-ℤ◌, map, length};
ghost use Rattle.kid_value.specs.NameView.{plain_name};
ghost use Rattle.kid_value.specs.PlainSort.{ints};
ghost use Rattle.kid_value.specs.SortLimits.{is_allowed};
ghost use Rattle.kid_value.specs.SortView.{plain_sort};
ghost use Rattle.kid_term.specs.PlainTerm.{truth};
ghost use Rattle.kid_term.specs.TermView.{plain_term};
ghost use Rattle.kid_search.specs.PiecesView.{plain_pieces, PiecesGiven};
ghost use Rattle.kid_search.specs.RangeAnswer as spec;
ghost use Rattle.kid_search.specs.RangePieces as made;

use crate::assembling::{Guards, Outline, assembled};
use crate::building::{
    named, on_name_term, on_names, on_term_name, on_term_number, on_two, row_of_two,
};
use crate::judging::judged;
use crate::pieces::{Pieces, TermLists};
use crate::theory::SearchTheory;
use kid_term::{Head, Literal, LogicOp, NumberOp, Op, Term, Terms, Why};
use kid_value::{Memory, Names, Sort, Text, subsort};
use std::alloc::Global;

/// Numbers from one term to another.
#[derive(Clone, Copy, Debug)]
pub struct Range;

impl SearchTheory for Range {
    ghost use Rattle.kid_search.specs.RangeAnswer.{range_answer};

    ghost answers = { λ range. range_answer };

    fn pieces(
        &self,
        alloc: Global,
        output: &Sort,
        z: &Text,
        names: &Names,
        terms: &Terms,
    ) -> Result<Pieces, Why> {
        match output {
            Sort::Int { lo, hi } => of_two(alloc, lo, hi, z, names.items(), terms.items()),
            _ => Err(Why::Outside),
        }
    }

    fn keep_laws(&self) {}
}

/// The terms of a list of two.
fn couple(terms: &[Term]) -> Option<(&Term, &Term)>
    ensures { MatchOption result (length terms.now ≢ 2) (λ p. terms.now ≡ p.0.now ∷ p.1.now ∷ []) }
{
    let [first, second] = terms else {
        return None;
    };
    Some((first, second))
}

/// The names of a list of two.
fn couple_of_names(names: &[(Text, Sort)]) -> Option<(&(Text, Sort), &(Text, Sort))>
    ensures { MatchOption result (length names.now ≢ 2) (λ p. names.now ≡ p.0.now ∷ p.1.now ∷ []) }
{
    let [first, second] = names else {
        return None;
    };
    Some((first, second))
}

/// The pieces of an interval, for two names and two terms.
fn of_two(
    alloc: Global,
    lo: &i64,
    hi: &i64,
    z: &Text,
    names: &[(Text, Sort)],
    terms: &[Term],
) -> Result<Pieces, Why>
    requires { is_allowed (ints lo.now hi.now) ≡ true }
    ensures { PiecesGiven result (spec.range_of_two lo.now hi.now z.now (map plain_name names.now) (map plain_term terms.now)) }
{
    match couple_of_names(names) {
        None => Err(Why::Outside),
        Some((low, high)) => with_names(alloc, lo, hi, z, low, high, terms),
    }
}

fn with_names(
    alloc: Global,
    lo: &i64,
    hi: &i64,
    z: &Text,
    low: &(Text, Sort),
    high: &(Text, Sort),
    terms: &[Term],
) -> Result<Pieces, Why>
    requires { is_allowed (ints lo.now hi.now) ≡ true }
    ensures { PiecesGiven result (spec.range_of_two lo.now hi.now z.now (plain_name low.now ∷ plain_name high.now ∷ []) (map plain_term terms.now)) }
{
    match couple(terms) {
        None => Err(Why::Outside),
        Some((a, b)) => between(alloc, lo, hi, z, low, high, a, b),
    }
}

/// Whether both terms have values of the output's sort.
fn are_within(lo: &i64, hi: &i64, low: &Sort, high: &Sort) -> bool
    ensures { result ≡ spec.are_within lo.now hi.now (plain_sort low.now) (plain_sort high.now) }
{
    let output = Sort::Int { lo: *lo, hi: *hi };
    subsort(low, &output) && subsort(high, &output)
}

/// Whether both components have allowed sorts.
#[tactic(auto, using(crate::proofs::EndLemmas::ends))]
fn has_ends(lo: &i64, hi: &i64) -> bool
    requires { is_allowed (ints lo.now hi.now) ≡ true }
    ensures { result ≡ spec.has_ends lo.now hi.now }
{
    -4611686018427387904 < *lo && *hi < 4611686018427387904
}

/// Whether the sum of both components has an allowed sort.
#[tactic(auto, using(crate::proofs::EndLemmas::middle))]
fn has_middle(lo: &i64, hi: &i64) -> bool
    requires { spec.has_ends lo.now hi.now ≡ true }
    ensures { result ≡ spec.has_middle lo.now hi.now }
{
    -2305843009213693952 < *lo && *hi < 2305843009213693952
}

fn between(
    alloc: Global,
    lo: &i64,
    hi: &i64,
    z: &Text,
    low: &(Text, Sort),
    high: &(Text, Sort),
    a: &Term,
    b: &Term,
) -> Result<Pieces, Why>
    requires { is_allowed (ints lo.now hi.now) ≡ true }
    ensures { PiecesGiven result (spec.range_between lo.now hi.now z.now (plain_name low.now) (plain_name high.now) (plain_term a.now) (plain_term b.now)) }
{
    if !(are_within(lo, hi, &low.1, &high.1) && has_ends(lo, hi)) {
        return Err(Why::IllSorted);
    }
    match range_pieces(alloc, lo, hi, &low.0, &high.0, z, a, b) {
        Err(_) => Err(Why::Memory),
        Ok(pieces) => judged(pieces, has_middle(lo, hi)),
    }
}

/// The pieces, whose components have allowed sorts.
fn range_pieces(
    alloc: Global,
    lo: &i64,
    hi: &i64,
    l: &Text,
    h: &Text,
    z: &Text,
    a: &Term,
    b: &Term,
) -> Result<Pieces, Memory>
    requires { spec.has_ends lo.now hi.now ≡ true }
    ensures { IfOk result (λ p. plain_pieces p ≡ made.range_pieces lo.now hi.now l.now h.now z.now (plain_term a.now) (plain_term b.now)) }
{
    let outline = outlined(alloc, lo, hi, l, h, z, a, b)?;
    let guards = guarded_leaf(alloc, lo, hi, l, h)?;
    let kids = both_kids(alloc, l, h)?;
    let measure = measure_term(alloc, l, h)?;
    Ok(assembled(outline, guards, None, kids, measure))
}

fn outlined(
    alloc: Global,
    lo: &i64,
    hi: &i64,
    l: &Text,
    h: &Text,
    z: &Text,
    a: &Term,
    b: &Term,
) -> Result<Outline, Memory>
    requires { spec.has_ends lo.now hi.now ≡ true }
    ensures components { IfOk result (λ o. o.components ≡ made.range_components lo.now hi.now l.now h.now) }
    ensures start { IfOk result (λ o. o.start ≡ plain_term a.now ∷ plain_term b.now ∷ []) }
    ensures inv { IfOk result (λ o. plain_term o.inv ≡ truth true) }
    ensures sat { IfOk result (λ o. o.sat ≡ made.range_sat l.now h.now z.now) }
    ensures goal { IfOk result (λ o. plain_term o.goal ≡ made.range_goal_term z.now (plain_term a.now) (plain_term b.now)) }
{
    let components = two_components(alloc, lo, hi, l, h)?;
    let start = both_terms(alloc, a, b)?;
    let sat = conditions(alloc, l, h, z)?;
    let goal = goal_term(alloc, z, a, b)?;
    Ok(Outline {
        components,
        start,
        inv: Term::Lit(Literal::Bool(true)),
        sat,
        goal,
    })
}

fn guarded_leaf(alloc: Global, lo: &i64, hi: &i64, l: &Text, h: &Text) -> Result<Guards, Memory>
    ensures leaf_guard { IfOk result (λ g. plain_term g.leaf_guard ≡ made.range_leaf_guard l.now h.now) }
    ensures leaf { IfOk result (λ g. plain_term g.leaf ≡ made.range_leaf_term lo.now hi.now l.now) }
    ensures kid_guard { IfOk result (λ g. plain_term g.kid_guard ≡ made.range_kid_guard l.now h.now) }
{
    let leaf_guard = on_names(alloc, Op::Logic(LogicOp::Eq), l, h)?;
    let leaf = leaf_term(alloc, lo, hi, l)?;
    let kid_guard = on_names(alloc, Op::Number(NumberOp::Lt), l, h)?;
    Ok(Guards {
        leaf_guard,
        leaf,
        kid_guard,
    })
}

/// The sort of the least number, which may rise to one above the interval.
fn low_sort(lo: &i64, hi: &i64) -> Sort
    requires { spec.has_ends lo.now hi.now ≡ true }
    ensures { plain_sort result ≡ ints lo.now (hi.now +ℤ pos 1) }
{
    Sort::Int {
        lo: *lo,
        hi: *hi + 1,
    }
}

/// The sort of the greatest number, which may fall to one below it.
fn high_sort(lo: &i64, hi: &i64) -> Sort
    requires { spec.has_ends lo.now hi.now ≡ true }
    ensures { plain_sort result ≡ ints (lo.now -ℤ pos 1) hi.now }
{
    Sort::Int {
        lo: *lo - 1,
        hi: *hi,
    }
}

fn two_components(alloc: Global, lo: &i64, hi: &i64, l: &Text, h: &Text) -> Result<Names, Memory>
    requires { spec.has_ends lo.now hi.now ≡ true }
    ensures { IfOk result (λ ns. ns ≡ made.range_components lo.now hi.now l.now h.now) }
{
    let mut names = Names::new(alloc);
    names.push(l.copy(alloc)?, low_sort(lo, hi))?;
    names.push(h.copy(alloc)?, high_sort(lo, hi))?;
    Ok(names)
}

fn both_terms(alloc: Global, a: &Term, b: &Term) -> Result<Terms, Memory>
    ensures { IfOk result (λ ts. ts ≡ plain_term a.now ∷ plain_term b.now ∷ []) }
{
    let first = a.copy(alloc)?;
    let second = b.copy(alloc)?;
    row_of_two(alloc, first, second)
}

fn conditions(alloc: Global, l: &Text, h: &Text, z: &Text) -> Result<Terms, Memory>
    ensures { IfOk result (λ ts. ts ≡ made.range_sat l.now h.now z.now) }
{
    let above = on_names(alloc, Op::Number(NumberOp::Le), l, z)?;
    let below = on_names(alloc, Op::Number(NumberOp::Le), z, h)?;
    row_of_two(alloc, above, below)
}

fn goal_term(alloc: Global, z: &Text, a: &Term, b: &Term) -> Result<Term, Memory>
    ensures { IfOk result (λ t. plain_term t ≡ made.range_goal_term z.now (plain_term a.now) (plain_term b.now)) }
{
    let above = on_term_name(alloc, Op::Number(NumberOp::Le), a, z)?;
    let below = on_name_term(alloc, Op::Number(NumberOp::Le), z, b)?;
    on_two(alloc, Op::Logic(LogicOp::And), above, below)
}

fn leaf_term(alloc: Global, lo: &i64, hi: &i64, l: &Text) -> Result<Term, Memory>
    ensures { IfOk result (λ t. plain_term t ≡ made.range_leaf_term lo.now hi.now l.now) }
{
    let mut terms = Terms::new(alloc);
    terms.push(named(alloc, l)?)?;
    let output = Sort::Int { lo: *lo, hi: *hi };
    Ok(Term::App(Head::Cast(output), terms))
}

fn middle(alloc: Global, l: &Text, h: &Text) -> Result<Term, Memory>
    ensures { IfOk result (λ t. plain_term t ≡ made.middle l.now h.now) }
{
    let sum = on_names(alloc, Op::Number(NumberOp::Add), l, h)?;
    on_term_number(alloc, Op::Number(NumberOp::Div), sum, &2)
}

fn after_middle(alloc: Global, l: &Text, h: &Text) -> Result<Term, Memory>
    ensures { IfOk result (λ t. plain_term t ≡ made.after_middle l.now h.now) }
{
    let half = middle(alloc, l, h)?;
    on_term_number(alloc, Op::Number(NumberOp::Add), half, &1)
}

fn low_kid(alloc: Global, l: &Text, h: &Text) -> Result<Terms, Memory>
    ensures { IfOk result (λ ts. ts ≡ made.low_kid l.now h.now) }
{
    let least = named(alloc, l)?;
    let greatest = middle(alloc, l, h)?;
    row_of_two(alloc, least, greatest)
}

fn high_kid(alloc: Global, l: &Text, h: &Text) -> Result<Terms, Memory>
    ensures { IfOk result (λ ts. ts ≡ made.high_kid l.now h.now) }
{
    let least = after_middle(alloc, l, h)?;
    let greatest = named(alloc, h)?;
    row_of_two(alloc, least, greatest)
}

fn both_kids(alloc: Global, l: &Text, h: &Text) -> Result<TermLists, Memory>
    ensures { IfOk result (λ ks. ks ≡ made.low_kid l.now h.now ∷ made.high_kid l.now h.now ∷ []) }
{
    let mut kids = TermLists::new(alloc);
    kids.push(low_kid(alloc, l, h)?)?;
    kids.push(high_kid(alloc, l, h)?)?;
    Ok(kids)
}

fn measure_term(alloc: Global, l: &Text, h: &Text) -> Result<Term, Memory>
    ensures { IfOk result (λ t. plain_term t ≡ made.range_measure l.now h.now) }
{
    let size = on_names(alloc, Op::Number(NumberOp::Sub), h, l)?;
    on_two(
        alloc,
        Op::Number(NumberOp::Max),
        Term::Lit(Literal::Int(0)),
        size,
    )
}
