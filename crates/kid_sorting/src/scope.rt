ghost use Rattle.std.specs.Prelude.{◌≡◌, map};
ghost use Rattle.kid_value.specs.NameView.{plain_name};
ghost use Rattle.kid_term.specs.Names.{is_named};
ghost use Rattle.kid_term.specs.Sorting.{sort_at};
ghost use Rattle.kid_sorting.specs.Answers.{SortGives};
ghost use Rattle.kid_sorting.specs.ScopeView.{names_of};

use crate::fault::SortFault;
use kid_term::substitute::is_same;
use kid_value::{Sort, Text};
use std::alloc::Global;

/// Names with their sorts: those that binders add, over those that were given.
#[derive(Clone, Copy)]
pub enum Scope<'a> {
    Base(&'a [(Text, Sort)]),
    More(&'a Text, &'a Sort, &'a Scope<'a>),
}

/// The sort of a name.
pub fn sort_named(alloc: Global, scope: &Scope, x: &Text) -> Result<Sort, SortFault>
    ensures { SortGives result (sort_at x.now (names_of scope.now)) }
{
    match scope {
        Scope::Base(names) => sort_among(alloc, names, x),
        Scope::More(y, sort, rest) => if is_same(x, y) {
            Ok(sort.copy(alloc)?)
        } else {
            sort_named(alloc, rest, x)
        },
    }
}

fn sort_among(alloc: Global, names: &[(Text, Sort)], x: &Text) -> Result<Sort, SortFault>
    ensures { SortGives result (sort_at x.now (map plain_name names.now)) }
{
    for entry in names {
        if is_same(x, &entry.0) {
            return Ok(entry.1.copy(alloc)?);
        }
    }
    Err(SortFault::Unknown)
}

/// Whether a name is in scope.
pub fn is_in_scope(scope: &Scope, x: &Text) -> bool
    ensures { result ≡ is_named x.now (names_of scope.now) }
{
    match scope {
        Scope::Base(names) => is_among(names, x),
        Scope::More(y, _, rest) => is_same(x, y) || is_in_scope(rest, x),
    }
}

fn is_among(names: &[(Text, Sort)], x: &Text) -> bool
    ensures { result ≡ is_named x.now (map plain_name names.now) }
{
    for entry in names {
        if is_same(x, &entry.0) {
            return true;
        }
    }
    false
}
