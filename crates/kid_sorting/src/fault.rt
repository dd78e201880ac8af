ghost use Rattle.std.specs.Prelude.{◌≡◌};
ghost use Rattle.kid_sorting.specs.declared.fault.SortFault.TheVariants.{Memory};

use std::alloc::{AllocError, AllocFailed};
use thiserror::Error;

/// Why a term has no sort.
#[derive(Debug, Clone, Copy, PartialEq, Eq, Error)]
pub enum SortFault {
    /// The term has more than 4096 nodes.
    #[error("the term has too many nodes")]
    Size,
    /// The term is more than 128 deep.
    #[error("the term is too deep")]
    TermDeep,
    /// A name or a definition is not known.
    #[error("a name is not known")]
    Unknown,
    /// An argument is of a wrong kind, or there is a wrong number of them.
    #[error("an argument is of a wrong kind")]
    Kind,
    /// The sort that would result is not an allowed one.
    #[error("a sort is not allowed")]
    Bounds,
    /// A binder's name is in scope already.
    #[error("a name is bound where it is in scope already")]
    Shadow,
    /// Memory is wanting.
    #[error("out of memory")]
    Memory,
}

impl From<AllocError> for SortFault {
    ghost from_gives = { λ _ fault. fault ≡ Memory };

    fn from(_error: AllocError) -> SortFault {
        SortFault::Memory
    }
}

impl<T: Drop> From<AllocFailed<T>> for SortFault {
    ghost from_gives = { λ _ fault. fault ≡ Memory };

    fn from(_error: AllocFailed<T>) -> SortFault {
        SortFault::Memory
    }
}

impl From<kid_value::Memory> for SortFault {
    ghost from_gives = { λ _ fault. fault ≡ Memory };

    fn from(_error: kid_value::Memory) -> SortFault {
        SortFault::Memory
    }
}
