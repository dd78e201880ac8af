ghost use Rattle.std.specs.Prelude.{◌≡◌, map};
ghost use Rattle.kid_value.specs.SortView.{plain_sort};
ghost use Rattle.kid_term.specs.DefView.{plain_def};
ghost use Rattle.kid_value.specs.NameView.{plain_name};
ghost use Rattle.kid_term.specs.Names.{latest_first};
ghost use Rattle.kid_term.specs.PlainTerm.{term_row};
ghost use Rattle.kid_term.specs.TermView.{plain_term};
ghost use Rattle.kid_term.specs.Sorting.{least_sort as least_sort_of, least_sorts as least_sorts_of, unshadowed as sort_unshadowed, sort_of as sort_of_term};
ghost use Rattle.kid_sorting.specs.Binders.{over_set as sort_over_set};
ghost use Rattle.kid_sorting.specs.Answers.{SortGives, SortsGive};
ghost use Rattle.kid_sorting.specs.ScopeView.{names_of};

use crate::allow::{between, enum_of};
use crate::binder::binder_sort;
use crate::fault::SortFault;
use crate::head::head_sort;
use crate::scope::{Scope, is_in_scope, sort_named};
use crate::signature::Signature;
use kid_term::{Binder, Def, Literal, Term};
use kid_value::{Names, Sort, Text};
use std::alloc::Global;

/// As many nodes a term may have.
pub const MAX_NODES: u64 = 4096;

/// As deep a term may be.
pub const MAX_DEPTH: u64 = 128;

/// The least sort of a term over a signature's definitions and over names with their sorts.
///
/// # Errors
///
/// `Size` where the term has more than 4096 nodes, else `TermDeep` where it is more than 128 deep.
/// Else the first fault in post-order: `Unknown` for a name or a definition that is not known, `Kind`
/// for arguments of a wrong kind or number and for a binder over what is no set, which comes before its
/// body is looked at, `Bounds` for a sort that is not allowed, and `Shadow` for a binder's name that is
/// in scope already. `Memory` where memory is wanting.
pub fn sort_of(
    alloc: Global,
    signature: &Signature,
    names: &Names,
    term: &Term,
) -> Result<Sort, SortFault>
    ensures { SortGives result (sort_of_term signature.now.definitions names.now (plain_term term.now)) }
{
    sort_over(alloc, signature.definitions(), names.items(), term)
}

/// The least sort of a term over definitions in their order and over names with their sorts.
///
/// # Errors
///
/// Those of `sort_of`.
pub fn sort_over(
    alloc: Global,
    definitions: &[Def],
    names: &[(Text, Sort)],
    term: &Term,
) -> Result<Sort, SortFault>
    ensures { SortGives result (sort_of_term (map plain_def definitions.now) (map plain_name names.now) (plain_term term.now)) }
{
    if term.nodes() > MAX_NODES {
        return Err(SortFault::Size);
    }
    if term.depth() > MAX_DEPTH {
        return Err(SortFault::TermDeep);
    }
    least_sort(alloc, definitions, &Scope::Base(names), term)
}

/// The least sort of a term.
#[cycle(sorting)]
fn least_sort<'a>(
    alloc: Global,
    definitions: &'a [Def],
    scope: &'a Scope<'a>,
    term: &'a Term,
) -> Result<Sort, SortFault>
    ensures { SortGives result (least_sort_of (latest_first (map plain_def definitions.now)) (names_of scope.now) (plain_term term.now)) }
{
    match term {
        Term::Var(name) => sort_named(alloc, scope, name),
        Term::Lit(Literal::Int(n)) => between(*n, *n),
        Term::Lit(Literal::Bool(_)) => Ok(Sort::Bool),
        Term::Lit(Literal::Tag(name)) => enum_of(alloc, name),
        Term::App(head, args) => {
            let sorts = least_sorts(alloc, definitions, scope, args.items())?;
            head_sort(alloc, definitions, head, args.items(), &sorts)
        }
        Term::Bind(binder, name, set, body) => {
            let set = least_sort(alloc, definitions, scope, set.get())?;
            over_set(alloc, definitions, &*scope, *binder, name, &set, body.get())
        }
    }
}

/// The least sorts of terms, in their order.
#[cycle(sorting)]
fn least_sorts<'a>(
    alloc: Global,
    definitions: &'a [Def],
    scope: &'a Scope<'a>,
    terms: &'a [Term],
) -> Result<Vec<Sort>, SortFault>
    ensures { SortsGive result (least_sorts_of (latest_first (map plain_def definitions.now)) (names_of scope.now) (term_row (map plain_term terms.now))) }
{
    let mut sorts = Vec::new(alloc);
    for t in terms {
        sorts.push(least_sort(alloc, definitions, scope, t)?)?;
    }
    Ok(sorts)
}

/// The sort of a binder over what has the sort `set`.
#[cycle(sorting)]
fn over_set<'a>(
    alloc: Global,
    definitions: &'a [Def],
    scope: &'a Scope<'a>,
    binder: Binder,
    name: &'a Text,
    set: &'a Sort,
    body: &'a Term,
) -> Result<Sort, SortFault>
    ensures { SortGives result (sort_over_set (latest_first (map plain_def definitions.now)) (names_of scope.now) binder name.now (plain_term body.now) (plain_sort set.now)) }
{
    let Sort::Set(element) = set else {
        return Err(SortFault::Kind);
    };
    let inner = Scope::More(name, element, scope);
    let body = least_sort(alloc, definitions, &inner, body)?;
    let made = binder_sort(alloc, binder, element, &body)?;
    unshadowed(scope, name, made)
}

/// The sort of a binder, unless its name is in scope already.
fn unshadowed(scope: &Scope, name: &Text, sort: Sort) -> Result<Sort, SortFault>
    ensures { SortGives result (sort_unshadowed name.now (names_of scope.now) (plain_sort sort)) }
{
    if is_in_scope(scope, name) {
        Err(SortFault::Shadow)
    } else {
        Ok(sort)
    }
}
