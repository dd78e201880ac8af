//! Names with their sorts, of which each is there once.
ghost use Rattle.std.specs.Prelude.{◌≡◌, ◌++◌, IfOk, OnOk, map};
ghost use Rattle.kid_value.specs.NameView.{plain_name};
ghost use Rattle.kid_value.specs.SortView.{plain_sort};
ghost use Rattle.kid_term.specs.Names.{is_named as is_named_in};
ghost use Rattle.kid_sorting.specs.Declaring.{with_name, is_new, are_new, are_allowed};

pub use kid_term::names::copied;
use kid_term::substitute::is_same;
use kid_value::{Memory, Names, Sort, Text, sort_ok};
use std::alloc::Global;

fn is_named(x: &Text, names: &[(Text, Sort)]) -> bool
    ensures { result ≡ is_named_in x.now (map plain_name names.now) }
{
    for name in names {
        if is_same(x, &name.0) {
            return true;
        }
    }
    false
}

#[tactic(auto, using(crate::proofs::NewNames::is_named_append))]
fn is_among(x: &Text, names: &Names, more: &[(Text, Sort)]) -> bool
    ensures { result ≡ is_named_in x.now (names.now ++ map plain_name more.now) }
{
    is_named(x, names.items()) || is_named(x, more)
}

/// Whether none of the names is this one.
pub fn is_new(taken: &Names, x: &Text) -> bool
    ensures { result ≡ is_new taken.now x.now }
{
    !is_named(x, taken.items())
}

/// Whether the names differ from those that are taken, and from one another.
pub fn are_new(taken: &Names, names: &Names) -> bool
    ensures { result ≡ are_new taken.now names.now }
{
    let items = names.items();
    for (i, name) in items.iter().enumerate() {
        if is_among(&name.0, taken, &items[..i]) {
            return false;
        }
    }
    true
}

/// Whether each name has an allowed sort.
pub fn are_allowed(names: &Names) -> bool
    ensures { result ≡ are_allowed names.now }
{
    for name in names.items() {
        if !sort_ok(&name.1) {
            return false;
        }
    }
    true
}

fn extend(alloc: Global, names: &mut Names, more: &Names) -> Result<(), Memory>
    ensures { OnOk result (names.new ≡ names.old ++ more.now) }
{
    for name in more.items() {
        names.push(name.0.copy(alloc)?, name.1.copy(alloc)?)?;
    }
    Ok(())
}

/// The names of the one scope, and then those of the other.
///
/// # Errors
///
/// Fails where memory is wanting.
pub fn joined(alloc: Global, first: &Names, second: &Names) -> Result<Names, Memory>
    ensures { IfOk result (λ ns. ns ≡ first.now ++ second.now) }
{
    let mut names = copied(alloc, first)?;
    extend(alloc, &mut names, second)?;
    Ok(names)
}

/// The names, and then this one.
///
/// # Errors
///
/// Fails where memory is wanting.
pub fn with_name(alloc: Global, names: &Names, name: &Text, sort: &Sort) -> Result<Names, Memory>
    ensures { IfOk result (λ ns. ns ≡ with_name names.now name.now (plain_sort sort.now)) }
{
    let mut more = copied(alloc, names)?;
    more.push(name.copy(alloc)?, sort.copy(alloc)?)?;
    Ok(more)
}
