ghost use Rattle.std.specs.Prelude.{◌≡◌};
ghost use Rattle.kid_theory.specs.declared.fault.TheoryCode.TheVariants.{Memory};
ghost use Rattle.kid_theory.specs.Answers.{shape_code};

use kid_codec::CodecFault;
use thiserror::Error;

/// What is wrong with a form of a theory.
#[derive(Debug, Clone, Copy, PartialEq, Eq, Error)]
pub enum TheoryCode {
    /// The file is too large.
    #[error("large")]
    Large,
    /// The text does not read.
    #[error("read")]
    Read,
    /// There are too many forms or inputs, or the calls of a definition go too deep.
    #[error("limit")]
    Limit,
    /// The form may not stand there, has a part that is none, or is missing.
    #[error("form")]
    Form,
    /// A declared name is no name or was declared before.
    #[error("name")]
    Name,
    /// A definition calls itself or one that stands later.
    #[error("cycle")]
    Cycle,
    /// A sort is not allowed, or a term has a wrong sort or none.
    #[error("sort")]
    Sort,
    /// A law is not proved.
    #[error("proof")]
    Proof,
    /// Memory is wanting.
    #[error("memory")]
    Memory,
}

impl From<kid_value::Memory> for TheoryCode {
    ghost from_gives = { λ _ code. code ≡ Memory };

    fn from(_error: kid_value::Memory) -> TheoryCode {
        TheoryCode::Memory
    }
}

impl From<CodecFault> for TheoryCode {
    ghost from_gives = { λ fault code. code ≡ shape_code fault };

    fn from(fault: CodecFault) -> TheoryCode {
        match fault {
            CodecFault::Form => TheoryCode::Form,
            CodecFault::Sort => TheoryCode::Sort,
            CodecFault::Memory => TheoryCode::Memory,
        }
    }
}

/// The number of the first form that is refused, counted from 1, and what is wrong with it. The number is 0 where the file as a
/// whole is refused.
#[derive(Debug, Clone, Copy, PartialEq, Eq, Error)]
#[error("form {form}: {code}")]
pub struct TheoryFault {
    pub form: u32,
    pub code: TheoryCode,
}

impl From<kid_value::Memory> for TheoryFault {
    ghost from_gives = { λ _ fault. fault ≡ record { form = 0; code = Memory } };

    fn from(_error: kid_value::Memory) -> TheoryFault {
        TheoryFault {
            form: 0,
            code: TheoryCode::Memory,
        }
    }
}
