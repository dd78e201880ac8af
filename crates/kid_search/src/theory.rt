//! Search theories.
ghost use Rattle.std.specs.Prelude.{◌≡◌, true};
ghost use Rattle.kid_value.specs.SortLimits.{is_allowed};
ghost use Rattle.kid_value.specs.SortView.{plain_sort};
ghost use Rattle.kid_search.specs.PiecesView.{PiecesGiven};
ghost use Rattle.kid_search.specs.TheoryLaws.{Answering, IsSearchTheory};

use crate::pieces::Pieces;
use kid_term::{Terms, Why};
use kid_value::{Names, Sort, Text};
use std::alloc::Global;

/// A way to search the values of some sorts.
pub trait SearchTheory {
    /// The pieces that the theory has, or why it has none.
    ghost answers: { Self → Answering };

    /// The pieces for an output of this sort and name, for the names of a step and its terms. The sort beside each name is that of the
    /// term at its place.
    ///
    /// # Errors
    ///
    /// `Outside` where the theory does not search values of this sort, or the names or the terms are not as many as it takes. Then
    /// `IllSorted` where a term has another sort than it should have, or a component no allowed one. Then `Limit` where a term of the
    /// pieces other than the measure has more than 4096 nodes or is more than 128 deep. Then `IllSorted` where a term of a kid, a guard
    /// or the pool has no sort. `Memory` where memory is wanting.
    fn pieces(
        &self,
        alloc: Global,
        output: &Sort,
        z: &Text,
        names: &Names,
        terms: &Terms,
    ) -> Result<Pieces, Why>
        requires { is_allowed (plain_sort output.now) ≡ true }
        ensures { PiecesGiven result (answers self.now (plain_sort output.now) z.now names.now terms.now) };

    /// The laws of a search theory hold of all pieces that it answers. Does nothing.
    fn keep_laws(&self)
        ensures { IsSearchTheory (answers self.now) };
}
