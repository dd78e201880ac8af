ghost use Rattle.std.specs.Prelude.{◌≡◌};
ghost use Rattle.kid_codec.specs.declared.fault.CodecFault.TheVariants.{Memory};

use std::alloc::{AllocError, AllocFailed};
use thiserror::Error;

/// Why a tree is not read.
#[derive(Debug, Clone, Copy, PartialEq, Eq, Error)]
pub enum CodecFault {
    #[error("the tree is no spelling")]
    Form,
    #[error("the tree names a sort that is not allowed")]
    Sort,
    #[error("out of memory")]
    Memory,
}

impl From<AllocError> for CodecFault {
    ghost from_gives = { λ _ fault. fault ≡ Memory };

    fn from(_error: AllocError) -> CodecFault {
        CodecFault::Memory
    }
}

impl<T: Drop> From<AllocFailed<T>> for CodecFault {
    ghost from_gives = { λ _ fault. fault ≡ Memory };

    fn from(_error: AllocFailed<T>) -> CodecFault {
        CodecFault::Memory
    }
}

impl From<kid_value::Memory> for CodecFault {
    ghost from_gives = { λ _ fault. fault ≡ Memory };

    fn from(_error: kid_value::Memory) -> CodecFault {
        CodecFault::Memory
    }
}
