//! Whether pieces are refused once they are made.
ghost use Rattle.std.specs.Prelude.{◌≡◌, map};
ghost use Rattle.kid_term.specs.TermView.{plain_term};
ghost use Rattle.std.specs.Option.{option_map};
ghost use Rattle.kid_search.specs.Judged as spec;
ghost use Rattle.kid_search.specs.PiecesView.{plain_branch, plain_pieces, PiecesGiven};

use crate::pieces::{Branch, Pieces};
use kid_term::{Term, Terms, Why};

/// Whether a term has at most 4096 nodes and is at most 128 deep.
#[tactic(auto, using(crate::proofs::LimitLemmas::at_most))]
fn fits_limits(term: &Term) -> bool
    ensures { result ≡ spec.fits_limits (plain_term term.now) }
{
    term.nodes() <= 4096 && term.depth() <= 128
}

fn all_fit(terms: &[Term]) -> bool
    ensures { result ≡ spec.all_fit (map plain_term terms.now) }
{
    for term in terms {
        if !fits_limits(term) {
            return false;
        }
    }
    true
}

fn row_fits(terms: &Terms) -> bool
    ensures { result ≡ spec.all_fit terms.now }
{
    all_fit(terms.items())
}

fn each_fit(lists: &[Terms]) -> bool
    ensures { result ≡ spec.each_fit lists.now }
{
    for terms in lists {
        if !row_fits(terms) {
            return false;
        }
    }
    true
}

fn pool_fits(branch: &Option<Branch>) -> bool
    ensures { result ≡ spec.pool_fits (option_map plain_branch branch.now) }
{
    match branch {
        None => true,
        Some(branch) => fits_limits(&branch.pool),
    }
}

fn pieces_fit(pieces: &Pieces) -> bool
    ensures { result ≡ spec.pieces_fit (plain_pieces pieces.now) }
{
    row_fits(&pieces.start)
        && fits_limits(&pieces.inv)
        && row_fits(&pieces.sat)
        && fits_limits(&pieces.goal)
        && fits_limits(&pieces.leaf_guard)
        && fits_limits(&pieces.leaf)
        && fits_limits(&pieces.kid_guard)
        && pool_fits(&pieces.branch)
        && each_fit(pieces.kids.items())
}

/// The pieces, where their terms are not too large and what the search procedure takes has sorts.
///
/// # Errors
///
/// `Limit` where a term other than the measure has more than 4096 nodes or is more than 128 deep, and then `IllSorted` where there
/// are no sorts.
pub fn judged(pieces: Pieces, sorted: bool) -> Result<Pieces, Why>
    ensures { PiecesGiven result (spec.judged sorted (plain_pieces pieces)) }
{
    if !pieces_fit(&pieces) {
        return Err(Why::Limit);
    }
    if !sorted {
        return Err(Why::IllSorted);
    }
    Ok(pieces)
}
