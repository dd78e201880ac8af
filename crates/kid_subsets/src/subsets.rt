//! The search of the subsets of a set.
ghost use Rattle.std.specs.Prelude.{◌≡◌, ◌≢◌, ◌∷◌, [], IfOk, MatchOption, true, map, length};
ghost use Rattle.kid_value.specs.Least.{least_value};
ghost use Rattle.kid_value.specs.NameView.{plain_name};
ghost use Rattle.kid_value.specs.PlainSort.{sets};
ghost use Rattle.kid_value.specs.SortView.{plain_sort};
ghost use Rattle.kid_term.specs.PlainTerm.{var};
ghost use Rattle.kid_term.specs.Quote as quoting;
ghost use Rattle.kid_term.specs.TermView.{plain_term};
ghost use Rattle.kid_term.specs.declared.operator.LogicOp.TheVariants as logic;
ghost use Rattle.kid_term.specs.declared.operator.SetOp.TheVariants as set_ops;
ghost use Rattle.kid_search.specs.Operators.{applied, on_truths, on_sets};
ghost use Rattle.kid_search.specs.PiecesView.{plain_pieces, PiecesGiven};
ghost use Rattle.kid_subsets.specs.SubsetsAnswer as spec;
ghost use Rattle.kid_subsets.specs.SubsetsPieces as made;

use kid_search::assembling::{Guards, Outline, assembled};
use kid_search::building::{named, on_name_term, on_names, on_term_name, on_two, row_of_two};
use kid_search::judging::judged;
use kid_search::{Pieces, SearchTheory, TermLists};
use kid_term::{Head, LogicOp, Op, SetOp, Term, Terms, Why, quote};
use kid_value::{Memory, Names, Sort, Text, least_of, subsort};
use std::alloc::Global;

/// The subsets of a set.
#[derive(Clone, Copy, Debug)]
pub struct Subsets;

impl SearchTheory for Subsets {
    ghost use Rattle.kid_subsets.specs.SubsetsAnswer.{subsets_answer};

    ghost answers = { λ subsets. subsets_answer };

    fn pieces(
        &self,
        alloc: Global,
        output: &Sort,
        z: &Text,
        names: &Names,
        terms: &Terms,
    ) -> Result<Pieces, Why> {
        match output {
            Sort::Set(member) => of_one(alloc, output, member, z, names.items(), terms.items()),
            _ => Err(Why::Outside),
        }
    }

    fn keep_laws(&self) {}
}

/// The term of a list of one.
fn single(terms: &[Term]) -> Option<&Term>
    ensures { MatchOption result (length terms.now ≢ 1) (λ t. terms.now ≡ t.now ∷ []) }
{
    let [term] = terms else {
        return None;
    };
    Some(term)
}

/// The names of a list of two.
fn couple_of_names(names: &[(Text, Sort)]) -> Option<(&(Text, Sort), &(Text, Sort))>
    ensures { MatchOption result (length names.now ≢ 2) (λ p. names.now ≡ p.0.now ∷ p.1.now ∷ []) }
{
    let [first, second] = names else {
        return None;
    };
    Some((first, second))
}

/// The pieces of the subsets of one term, for two names.
fn of_one(
    alloc: Global,
    output: &Sort,
    member: &Sort,
    z: &Text,
    names: &[(Text, Sort)],
    terms: &[Term],
) -> Result<Pieces, Why>
    requires { plain_sort output.now ≡ sets (plain_sort member.now) }
    ensures { PiecesGiven result (spec.subsets_of_one (plain_sort member.now) z.now (map plain_name names.now) (map plain_term terms.now)) }
{
    match couple_of_names(names) {
        None => Err(Why::Outside),
        Some((taken, left)) => with_names(alloc, output, member, z, taken, left, terms),
    }
}

fn with_names(
    alloc: Global,
    output: &Sort,
    member: &Sort,
    z: &Text,
    taken: &(Text, Sort),
    left: &(Text, Sort),
    terms: &[Term],
) -> Result<Pieces, Why>
    requires { plain_sort output.now ≡ sets (plain_sort member.now) }
    ensures { PiecesGiven result (spec.subsets_of_one (plain_sort member.now) z.now (plain_name taken.now ∷ plain_name left.now ∷ []) (map plain_term terms.now)) }
{
    match single(terms) {
        None => Err(Why::Outside),
        Some(s) => within(alloc, output, member, z, taken, &left.0, s),
    }
}

/// The pieces where the term is within the output's sort. Their terms are made of sets of that sort and the least value of its members,
/// so none lacks a sort, unless the output's sort holds `Never`, as no sort of a file does.
fn within(
    alloc: Global,
    output: &Sort,
    member: &Sort,
    z: &Text,
    taken: &(Text, Sort),
    w: &Text,
    s: &Term,
) -> Result<Pieces, Why>
    requires { plain_sort output.now ≡ sets (plain_sort member.now) }
    ensures { PiecesGiven result (spec.subsets_within (plain_sort member.now) z.now (plain_name taken.now) w.now (plain_term s.now)) }
{
    if !subsort(&taken.1, output) {
        return Err(Why::IllSorted);
    }
    match subsets_pieces(alloc, output, member, &taken.0, w, z, s) {
        Err(_) => Err(Why::Memory),
        Ok(pieces) => judged(pieces, true),
    }
}

/// The pieces, whatever their size.
fn subsets_pieces(
    alloc: Global,
    output: &Sort,
    member: &Sort,
    u: &Text,
    w: &Text,
    z: &Text,
    s: &Term,
) -> Result<Pieces, Memory>
    requires { plain_sort output.now ≡ sets (plain_sort member.now) }
    ensures { IfOk result (λ p. plain_pieces p ≡ made.subsets_pieces (plain_sort member.now) (quoting.quote (least_value (plain_sort member.now))) u.now w.now z.now (plain_term s.now)) }
{
    let least = least_term(alloc, member)?;
    let outline = outlined(alloc, output, u, w, z, s)?;
    let guards = guarded_leaf(alloc, u, w)?;
    let kids = both_kids(alloc, &least, u, w)?;
    let measure = measure_term(alloc, w)?;
    Ok(assembled(outline, guards, None, kids, measure))
}

fn outlined(
    alloc: Global,
    output: &Sort,
    u: &Text,
    w: &Text,
    z: &Text,
    s: &Term,
) -> Result<Outline, Memory>
    ensures components { IfOk result (λ o. o.components ≡ (u.now, plain_sort output.now) ∷ (w.now, plain_sort output.now) ∷ []) }
    ensures start { IfOk result (λ o. o.start ≡ on_sets set_ops.Set [] ∷ plain_term s.now ∷ []) }
    ensures inv { IfOk result (λ o. plain_term o.inv ≡ made.subsets_inv u.now w.now) }
    ensures sat { IfOk result (λ o. o.sat ≡ made.subsets_sat u.now w.now z.now) }
    ensures goal { IfOk result (λ o. plain_term o.goal ≡ made.subsets_goal_term z.now (plain_term s.now)) }
{
    let components = two_components(alloc, output, u, w)?;
    let start = start_terms(alloc, s)?;
    let inv = invariant_term(alloc, u, w)?;
    let sat = conditions(alloc, u, w, z)?;
    let goal = on_name_term(alloc, Op::Set(SetOp::Subset), z, s)?;
    Ok(Outline {
        components,
        start,
        inv,
        sat,
        goal,
    })
}

fn guarded_leaf(alloc: Global, u: &Text, w: &Text) -> Result<Guards, Memory>
    ensures leaf_guard { IfOk result (λ g. plain_term g.leaf_guard ≡ made.no_open w.now) }
    ensures leaf { IfOk result (λ g. plain_term g.leaf ≡ var u.now) }
    ensures kid_guard { IfOk result (λ g. plain_term g.kid_guard ≡ on_truths logic.Not (made.no_open w.now ∷ [])) }
{
    let leaf_guard = no_open(alloc, w)?;
    let leaf = named(alloc, u)?;
    let kid_guard = some_open(alloc, w)?;
    Ok(Guards {
        leaf_guard,
        leaf,
        kid_guard,
    })
}

/// An operator applied to one term.
fn on_one(alloc: Global, op: Op, a: Term) -> Result<Term, Memory>
    ensures { IfOk result (λ t. plain_term t ≡ applied op (plain_term a ∷ [])) }
{
    let mut terms = Terms::new(alloc);
    terms.push(a)?;
    Ok(Term::App(Head::Op(op), terms))
}

/// The empty set as a term. Takes no memory.
fn empty_set(alloc: Global) -> Term
    ensures { plain_term result ≡ on_sets set_ops.Set [] }
{
    Term::App(Head::Op(Op::Set(SetOp::Set)), Terms::new(alloc))
}

/// The least value of the members' sort as a term.
fn least_term(alloc: Global, member: &Sort) -> Result<Term, Memory>
    ensures { IfOk result (λ t. plain_term t ≡ quoting.quote (least_value (plain_sort member.now))) }
{
    let least = least_of(alloc, member)?;
    quote(alloc, &least)
}

/// Whether no member is open any more.
fn no_open(alloc: Global, w: &Text) -> Result<Term, Memory>
    ensures { IfOk result (λ t. plain_term t ≡ made.no_open w.now) }
{
    let open_ones = named(alloc, w)?;
    on_two(alloc, Op::Logic(LogicOp::Eq), open_ones, empty_set(alloc))
}

fn some_open(alloc: Global, w: &Text) -> Result<Term, Memory>
    ensures { IfOk result (λ t. plain_term t ≡ on_truths logic.Not (made.no_open w.now ∷ [])) }
{
    let none_open = no_open(alloc, w)?;
    on_one(alloc, Op::Logic(LogicOp::Not), none_open)
}

fn two_components(alloc: Global, output: &Sort, u: &Text, w: &Text) -> Result<Names, Memory>
    ensures { IfOk result (λ ns. ns ≡ (u.now, plain_sort output.now) ∷ (w.now, plain_sort output.now) ∷ []) }
{
    let mut names = Names::new(alloc);
    names.push(u.copy(alloc)?, output.copy(alloc)?)?;
    names.push(w.copy(alloc)?, output.copy(alloc)?)?;
    Ok(names)
}

/// Nothing is taken, and all is open.
fn start_terms(alloc: Global, s: &Term) -> Result<Terms, Memory>
    ensures { IfOk result (λ ts. ts ≡ on_sets set_ops.Set [] ∷ plain_term s.now ∷ []) }
{
    let all = s.copy(alloc)?;
    row_of_two(alloc, empty_set(alloc), all)
}

/// No member is both taken and open.
fn invariant_term(alloc: Global, u: &Text, w: &Text) -> Result<Term, Memory>
    ensures { IfOk result (λ t. plain_term t ≡ made.subsets_inv u.now w.now) }
{
    let both = on_names(alloc, Op::Set(SetOp::Inter), u, w)?;
    on_two(alloc, Op::Logic(LogicOp::Eq), both, empty_set(alloc))
}

/// The output has what is taken.
fn conditions(alloc: Global, u: &Text, w: &Text, z: &Text) -> Result<Terms, Memory>
    ensures { IfOk result (λ ts. ts ≡ made.subsets_sat u.now w.now z.now) }
{
    let above = on_names(alloc, Op::Set(SetOp::Subset), u, z)?;
    let below = within_all(alloc, u, w, z)?;
    row_of_two(alloc, above, below)
}

/// The output has nothing beside what is taken or open.
fn within_all(alloc: Global, u: &Text, w: &Text, z: &Text) -> Result<Term, Memory>
    ensures { IfOk result (λ t. plain_term t ≡ on_sets set_ops.Subset (var z.now ∷ on_sets set_ops.Union (var u.now ∷ var w.now ∷ []) ∷ [])) }
{
    let all = on_names(alloc, Op::Set(SetOp::Union), u, w)?;
    on_name_term(alloc, Op::Set(SetOp::Subset), z, &all)
}

/// The least open member.
fn chosen(alloc: Global, least: &Term, w: &Text) -> Result<Term, Memory>
    ensures { IfOk result (λ t. plain_term t ≡ made.chosen (plain_term least.now) w.now) }
{
    on_name_term(alloc, Op::Set(SetOp::Least), w, least)
}

/// The open members but the least.
fn fewer_open(alloc: Global, least: &Term, w: &Text) -> Result<Term, Memory>
    ensures { IfOk result (λ t. plain_term t ≡ made.fewer_open (plain_term least.now) w.now) }
{
    let member = chosen(alloc, least, w)?;
    on_term_name(alloc, Op::Set(SetOp::Without), &member, w)
}

/// The taken members and the least open one.
fn one_more(alloc: Global, least: &Term, u: &Text, w: &Text) -> Result<Term, Memory>
    ensures { IfOk result (λ t. plain_term t ≡ on_sets set_ops.With (made.chosen (plain_term least.now) w.now ∷ var u.now ∷ [])) }
{
    let member = chosen(alloc, least, w)?;
    on_term_name(alloc, Op::Set(SetOp::With), &member, u)
}

fn kid_without(alloc: Global, least: &Term, u: &Text, w: &Text) -> Result<Terms, Memory>
    ensures { IfOk result (λ ts. ts ≡ made.kid_without (plain_term least.now) u.now w.now) }
{
    let taken = named(alloc, u)?;
    let open_ones = fewer_open(alloc, least, w)?;
    row_of_two(alloc, taken, open_ones)
}

fn kid_with(alloc: Global, least: &Term, u: &Text, w: &Text) -> Result<Terms, Memory>
    ensures { IfOk result (λ ts. ts ≡ made.kid_with (plain_term least.now) u.now w.now) }
{
    let taken = one_more(alloc, least, u, w)?;
    let still_open = fewer_open(alloc, least, w)?;
    row_of_two(alloc, taken, still_open)
}

/// First without the least open member and then with it, as sets are ordered.
fn both_kids(alloc: Global, least: &Term, u: &Text, w: &Text) -> Result<TermLists, Memory>
    ensures { IfOk result (λ ks. ks ≡ made.kid_without (plain_term least.now) u.now w.now ∷ made.kid_with (plain_term least.now) u.now w.now ∷ []) }
{
    let mut kids = TermLists::new(alloc);
    kids.push(kid_without(alloc, least, u, w)?)?;
    kids.push(kid_with(alloc, least, u, w)?)?;
    Ok(kids)
}

/// How many members are open.
fn measure_term(alloc: Global, w: &Text) -> Result<Term, Memory>
    ensures { IfOk result (λ t. plain_term t ≡ on_sets set_ops.Card (var w.now ∷ [])) }
{
    let open_ones = named(alloc, w)?;
    on_one(alloc, Op::Set(SetOp::Card), open_ones)
}
