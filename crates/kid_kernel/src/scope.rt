//! The names at a place of a term, and what may be used as true there.
ghost use Rattle.std.specs.Prelude.{◌≡◌, ◌∷◌, ◌++◌, [], true, IfOk, OnOk, Ok, map};
ghost use Rattle.kid_value.specs.SortView.{plain_sort};
ghost use Rattle.kid_term.specs.Names.{latest_first};
ghost use Rattle.kid_term.specs.PlainTerm.{var, term_row};
ghost use Rattle.kid_term.specs.Sorting.{least_sort, sort_of};
ghost use Rattle.kid_term.specs.TermView.{plain_term, plain_head};
ghost use Rattle.kid_scope.specs.Holds.{has_a_sort};
ghost use Rattle.kid_scope.specs.Scope as spec;
ghost use Rattle.kid_kernel.specs.ScopeView.{plain_scope};
ghost use Rattle.kid_kernel.specs.Leading.{IsBounded, AreBounded, Leads, LeadsAmong};

use kid_scope::{assumptions, member};
use kid_sorting::{SortFault, sort_over};
use kid_term::names::copied;
use kid_term::{Defs, Head, Path, Term, Terms};
use kid_value::{Memory, Names, Sort, Text};
use std::alloc::Global;
use std::mem;

/// Definitions, names with their sorts, the innermost first, the facts of a proof, and what the way
/// down to a place lets be assumed besides.
#[derive(Drop)]
pub struct Scope<'a> {
    pub definitions: &'a Defs,
    pub names: Names,
    pub facts: &'a [Term],
    pub assumed: Terms,
}

/// The scope at the path of a term that has a sort over the names.
///
/// # Errors
///
/// Fails where memory is wanting.
pub fn scope_at<'a>(
    alloc: Global,
    definitions: &'a Defs,
    names: &Names,
    facts: &'a [Term],
    term: &Term,
    path: &Path,
) -> Result<Scope<'a>, Memory>
    requires { has_a_sort (sort_of definitions.now names.now (plain_term term.now)) ≡ true }
    ensures scope { IfOk result (λ s. plain_scope s ≡ spec.scope_at (latest_first definitions.now) (plain_term term.now) path.now (record { names = names.now; facts = map plain_term facts.now; assumed = [] })) }
    ensures definitions { IfOk result (λ s. s.definitions.now ≡ definitions.now) }
{
    let mut names = copied(alloc, names)?;
    let mut assumed = Terms::new(alloc);
    descend(
        alloc,
        definitions,
        &mut names,
        &mut assumed,
        term,
        path.as_slice(),
    )?;
    Ok(Scope {
        definitions,
        names,
        facts,
        assumed,
    })
}

/// Goes down to the place, and adds the names that are bound on the way and what may be assumed.
#[cycle(descend)]
fn descend(
    alloc: Global,
    definitions: &Defs,
    names: &mut Names,
    assumed: &mut Terms,
    term: &Term,
    path: &[u32],
) -> Result<(), Memory>
    requires { IsBounded (plain_term term.now) }
    ensures { OnOk result (Leads (latest_first definitions.now) (plain_term term.now) path.now names.old assumed.old names.new assumed.new) }
{
    let Some((step, rest)) = path.split_first() else {
        return Ok(());
    };
    match term {
        Term::App(head, args) => {
            assume(alloc, assumed, head, *step, args)?;
            descend_among(
                alloc,
                definitions,
                names,
                assumed,
                args.items(),
                *step,
                rest,
            )
        }
        Term::Bind(_, name, set, body) => match *step {
            0 => descend(alloc, definitions, names, assumed, set.get(), rest),
            1 => {
                enter_body(alloc, definitions, names, assumed, name, set.get())?;
                descend(alloc, definitions, names, assumed, body.get(), rest)
            }
            _ => Ok(()),
        },
        Term::Var(_) | Term::Lit(_) => Ok(()),
    }
}

#[cycle(descend)]
fn descend_among(
    alloc: Global,
    definitions: &Defs,
    names: &mut Names,
    assumed: &mut Terms,
    terms: &[Term],
    step: u32,
    path: &[u32],
) -> Result<(), Memory>
    requires { AreBounded (term_row (map plain_term terms.now)) }
    ensures { OnOk result (LeadsAmong (latest_first definitions.now) (term_row (map plain_term terms.now)) step path.now names.old assumed.old names.new assumed.new) }
{
    let at = step as usize;
    if at < terms.len() {
        descend(alloc, definitions, names, assumed, &terms[at], path)
    } else {
        Ok(())
    }
}

/// Adds what may be assumed in the argument at the place.
fn assume(
    alloc: Global,
    assumed: &mut Terms,
    head: &Head,
    place: u32,
    args: &Terms,
) -> Result<(), Memory>
    ensures { OnOk result (assumed.new ≡ assumed.old ++ spec.assumptions (plain_head head.now) place (term_row args.now)) }
{
    let more = assumptions(alloc, head, place, args)?;
    for term in more.items() {
        assumed.push(term.copy(alloc)?)?;
    }
    Ok(())
}

/// Adds the name of a binder, and that it is a member of the set.
fn enter_body(
    alloc: Global,
    definitions: &Defs,
    names: &mut Names,
    assumed: &mut Terms,
    name: &Text,
    set: &Term,
) -> Result<(), Memory>
    requires { IsBounded (plain_term set.now) }
    ensures names { OnOk result (names.new ≡ (name.now, spec.element_sort (least_sort (latest_first definitions.now) names.old (plain_term set.now))) ∷ names.old) }
    ensures assumed { OnOk result (assumed.new ≡ assumed.old ++ spec.member (var name.now) (plain_term set.now) ∷ []) }
{
    assumed.push(member(alloc, name, set)?)?;
    let sort = element_sort(alloc, definitions, names, set)?;
    put_first(alloc, names, name, sort)
}

/// The sort of the set's elements, or the sort without values where the term is no set.
fn element_sort(
    alloc: Global,
    definitions: &Defs,
    names: &Names,
    set: &Term,
) -> Result<Sort, Memory>
    requires { IsBounded (plain_term set.now) }
    ensures { IfOk result (λ s. plain_sort s ≡ spec.element_sort (least_sort (latest_first definitions.now) names.now (plain_term set.now))) }
{
    match sort_over(alloc, definitions.items(), names.items(), set) {
        Ok(sort) => element_of(alloc, &sort),
        Err(SortFault::Memory) => Err(Memory),
        Err(_) => Ok(Sort::Never),
    }
}

fn element_of(alloc: Global, sort: &Sort) -> Result<Sort, Memory>
    ensures { IfOk result (λ s. plain_sort s ≡ spec.element_sort (Ok (plain_sort sort.now))) }
{
    match sort {
        Sort::Set(element) => element.copy(alloc),
        _ => Ok(Sort::Never),
    }
}

/// Puts a copy of the name with its sort before the others.
fn put_first(alloc: Global, names: &mut Names, name: &Text, sort: Sort) -> Result<(), Memory>
    ensures { OnOk result (names.new ≡ (name.now, plain_sort sort) ∷ names.old) }
{
    let name = name.copy(alloc)?;
    let mut items = mem::replace(names, Names::new(alloc)).into_vec();
    let outcome = items.insert(0, (name, sort));
    *names = Names::from_vec(items);
    match outcome {
        Ok(()) => Ok(()),
        Err(_) => Err(Memory),
    }
}
