//! Copies of lists of terms.
ghost use Rattle.std.specs.Prelude.{◌≡◌, IfOk};

use kid_term::Terms;
use kid_value::Memory;
use std::alloc::Global;

/// The same terms in the same order.
///
/// # Errors
///
/// Fails where memory is wanting.
pub fn copied(alloc: Global, terms: &Terms) -> Result<Terms, Memory>
    ensures { IfOk result (λ ts. ts ≡ terms.now) }
{
    let mut copy = Terms::new(alloc);
    for term in terms.items() {
        copy.push(term.copy(alloc)?)?;
    }
    Ok(copy)
}
