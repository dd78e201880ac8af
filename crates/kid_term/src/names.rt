//! Names with their sorts.
ghost use Rattle.std.specs.Prelude.{◌≡◌, IfOk};

use kid_value::{Memory, Names};
use std::alloc::Global;

/// The same names.
///
/// # Errors
///
/// Fails where memory is wanting.
pub fn copied(alloc: Global, names: &Names) -> Result<Names, Memory>
    ensures { IfOk result (λ ns. ns ≡ names.now) }
{
    let mut copy = Names::new(alloc);
    for name in names.items() {
        copy.push(name.0.copy(alloc)?, name.1.copy(alloc)?)?;
    }
    Ok(copy)
}
