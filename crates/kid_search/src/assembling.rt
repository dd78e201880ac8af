//! Pieces put together of their parts.
ghost use Rattle.std.specs.Prelude.{◌≡◌};
ghost use Rattle.std.specs.Option.{option_map};
ghost use Rattle.kid_term.specs.TermView.{plain_term};
ghost use Rattle.kid_search.specs.PiecesView.{plain_branch, plain_pieces};
ghost use Rattle.kid_search.specs.Assembled.{assembled as assembled_of};

use crate::pieces::{Branch, Pieces, TermLists};
use kid_term::{Term, Terms};
use kid_value::Names;

/// What a descriptor is, where the search starts, and what a descriptor stands for.
#[derive(Drop)]
pub struct Outline {
    pub components: Names,
    pub start: Terms,
    pub inv: Term,
    pub sat: Terms,
    pub goal: Term,
}

/// The leaf, and when there is one and when there are kids.
#[derive(Drop)]
pub struct Guards {
    pub leaf_guard: Term,
    pub leaf: Term,
    pub kid_guard: Term,
}

/// The pieces of these parts. Takes no memory.
pub fn assembled(
    outline: Outline,
    guards: Guards,
    branch: Option<Branch>,
    kids: TermLists,
    measure: Term,
) -> Pieces
    ensures { plain_pieces result ≡ assembled_of outline guards (option_map plain_branch branch) kids (plain_term measure) }
{
    let Outline {
        components,
        start,
        inv,
        sat,
        goal,
    } = outline;
    let Guards {
        leaf_guard,
        leaf,
        kid_guard,
    } = guards;
    Pieces {
        components,
        start,
        inv,
        sat,
        goal,
        leaf_guard,
        leaf,
        kid_guard,
        branch,
        kids,
        measure,
    }
}
