//! Terms over a table of names, and the sorts or faults that they have.
ghost use Rattle.std.specs.Prelude.{◌≡◌, ◌&&◌, true};
ghost use Rattle.kid_value.specs.SortOrder.{is_subsort};
ghost use Rattle.kid_value.specs.SortView.{plain_sort};

use crate::built::{applied, arguments};
use crate::sort_words::sorts;
use kid_sorting::{SortFault, sort_over};
use kid_term::{Op, Term};
use kid_value::{Names, Sort, subsort};
use std::alloc::Global;
use std::process::Abort;

/// Whether each sort is below the other.
fn is(found: &Sort, want: &Sort) -> bool
    ensures { result ≡ true → (is_subsort (plain_sort found.now) (plain_sort want.now) && is_subsort (plain_sort want.now) (plain_sort found.now)) ≡ true }
{
    subsort(found, want) && subsort(want, found)
}

/// Whether these are two sorts, and one.
pub fn are_one(sorts: &[Sort]) -> bool {
    match sorts {
        [want, found] => is(found, want),
        _ => false,
    }
}

/// The sort of a term over no definitions. With no clause, so that no proof above opens the definition of least sorts.
fn sorted(alloc: Global, names: &Names, term: &Term) -> Result<Sort, SortFault> {
    sort_over(alloc, &[], names.items(), term)
}

/// Puts the sort that was found.
pub fn put_sort(sorts: &mut Vec<Sort>, found: Result<Sort, SortFault>) -> Result<(), SortFault> {
    match found {
        Ok(sort) => if sorts.push(sort).is_ok() {
            Ok(())
        } else {
            Err(SortFault::Memory)
        },
        Err(fault) => Err(fault),
    }
}

/// Puts the sort of a term that was built.
pub fn put_found(
    alloc: Global,
    names: &Option<Names>,
    terms: &Option<Vec<Term>>,
    sorts: &mut Vec<Sort>,
) -> Result<(), SortFault> {
    match (names, terms) {
        (Some(names), Some(terms)) => match terms.as_slice() {
            [term] => put_sort(sorts, sorted(alloc, names, term)),
            _ => Err(SortFault::Memory),
        },
        _ => Err(SortFault::Memory),
    }
}

// whether the term has the sort of the name
fn gives(
    alloc: Global,
    names: &Option<Names>,
    terms: &Option<Vec<Term>>,
    name: &Option<Vec<Term>>,
) -> Result<bool, SortFault> {
    let mut sorts = Vec::new(alloc);
    put_found(alloc, names, name, &mut sorts)?;
    put_found(alloc, names, terms, &mut sorts)?;
    Ok(are_one(&sorts))
}

/// Whether the term has the sort.
pub fn has_sort(
    alloc: Global,
    names: &Option<Names>,
    terms: &Option<Vec<Term>>,
    sort: &str,
) -> bool {
    match sorts(alloc, sort) {
        Some(mut sorts) => put_found(alloc, names, terms, &mut sorts).is_ok() && are_one(&sorts),
        None => false,
    }
}

/// Whether the term has the fault.
pub fn fails(
    alloc: Global,
    names: &Option<Names>,
    terms: &Option<Vec<Term>>,
    want: SortFault,
) -> bool {
    let mut sorts = Vec::new(alloc);
    put_found(alloc, names, terms, &mut sorts) == Err(want)
}

fn is_given(alloc: Global, names: &Option<Names>, op: Op, args: &str, want: &str) -> bool {
    let term = applied(alloc, op, args);
    matches!(
        gives(alloc, names, &term, &arguments(alloc, want)),
        Ok(true)
    )
}

/// Each operator at its arguments has the sort of the last name.
pub fn sorts_all(rt: &impl Abort, alloc: Global, names: &Option<Names>, rows: &[(Op, &str, &str)]) {
    for row in rows {
        let (op, args, want) = *row;
        assert!(rt; is_given(alloc, names, op, args, want), "at {args} {want}");
    }
}

fn is_sorted(alloc: Global, names: &Option<Names>, op: Op, args: &str, sort: &str) -> bool {
    has_sort(alloc, names, &applied(alloc, op, args), sort)
}

/// Each operator at its arguments has this sort.
pub fn spells_all(
    rt: &impl Abort,
    alloc: Global,
    names: &Option<Names>,
    rows: &[(Op, &str, &str)],
) {
    for row in rows {
        let (op, args, sort) = *row;
        assert!(rt; is_sorted(alloc, names, op, args, sort), "at {args} {sort}");
    }
}

fn is_refused(alloc: Global, names: &Option<Names>, op: Op, args: &str, want: SortFault) -> bool {
    fails(alloc, names, &applied(alloc, op, args), want)
}

/// Each operator at its arguments has this fault.
pub fn refuses_all(
    rt: &impl Abort,
    alloc: Global,
    names: &Option<Names>,
    rows: &[(Op, &str, SortFault)],
) {
    for row in rows {
        let (op, args, want) = *row;
        assert!(rt;
            is_refused(alloc, names, op, args, want),
            "at {args} {want:?}"
        );
    }
}
