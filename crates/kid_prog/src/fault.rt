ghost use Rattle.std.specs.Prelude.{◌≡◌};
ghost use Rattle.kid_prog.specs.declared.fault.LoadCode.TheVariants.{Memory};
ghost use Rattle.kid_prog.specs.FormAnswers.{shape_code};

use kid_codec::CodecFault;
use thiserror::Error;

/// Why a program does not load.
#[derive(Debug, Clone, Copy, PartialEq, Eq, Error)]
pub enum LoadCode {
    #[error("the file is too large")]
    Large,
    #[error("the text does not read")]
    Read,
    #[error("the version is not known")]
    Version,
    #[error("the form is not one that may stand there")]
    Form,
    #[error("a sort is wrong")]
    Sort,
    #[error("out of memory")]
    Memory,
}

impl From<kid_value::Memory> for LoadCode {
    ghost from_gives = { λ _ code. code ≡ Memory };

    fn from(_error: kid_value::Memory) -> LoadCode {
        LoadCode::Memory
    }
}

impl From<CodecFault> for LoadCode {
    ghost from_gives = { λ fault code. code ≡ shape_code fault };

    fn from(fault: CodecFault) -> LoadCode {
        match fault {
            CodecFault::Form => LoadCode::Form,
            CodecFault::Sort => LoadCode::Sort,
            CodecFault::Memory => LoadCode::Memory,
        }
    }
}

/// The number of a form, counted from 1, and what is wrong with it. The number is 0 where the file as a whole is refused.
#[derive(Debug, Clone, Copy, PartialEq, Eq, Error)]
#[error("form {form}: {code}")]
pub struct LoadFault {
    pub form: u32,
    pub code: LoadCode,
}

impl From<kid_value::Memory> for LoadFault {
    ghost from_gives = { λ _ fault. fault ≡ record { form = 0; code = Memory } };

    fn from(_error: kid_value::Memory) -> LoadFault {
        LoadFault {
            form: 0,
            code: LoadCode::Memory,
        }
    }
}
