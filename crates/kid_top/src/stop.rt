ghost use Rattle.std.specs.Prelude.{◌≡◌, IfOk};
ghost use Rattle.std.specs.String.{string_bytes};
ghost use Rattle.kid_top.specs.Stops.{status_of, numbered_text, form_text, theory_word, program_word, stop_text};

use kid_prog::{LoadCode, LoadFault};
use kid_theory::{TheoryCode, TheoryFault};
use std::alloc::{AllocError, Global};
use thiserror::Error;

/// Why a call did not do its work. Files are counted from 1, in the order of the words.
#[derive(Debug, Clone, Copy, PartialEq, Eq, Error)]
pub enum Stop {
    #[error("out of memory")]
    Memory,
    #[error("the words fit no command")]
    Usage,
    #[error("a file or the output failed")]
    Failed,
    #[error("the theory is refused: {0}")]
    Theory(TheoryFault),
    #[error("the program is refused: {0}")]
    Program(LoadFault),
    #[error("form {0} of the inputs is none")]
    Inputs(u32),
    #[error("file {0} is of a form that is not built yet")]
    Unbuilt(u8),
    #[error("file {0} is absent")]
    Absent(u8),
}

impl Stop {
    /// The status that the program ends with.
    pub fn status(self) -> u8
        ensures { result ≡ status_of self }
    {
        match self {
            Stop::Memory => 1,
            Stop::Usage => 2,
            Stop::Failed => 3,
            Stop::Theory(_) => 5,
            Stop::Program(_) => 7,
            Stop::Inputs(_) => 8,
            Stop::Unbuilt(_) => 10,
            Stop::Absent(_) => 12,
        }
    }

    /// The line that is put on err.
    pub fn text(self, alloc: Global) -> Result<String, AllocError>
        ensures { IfOk result (λ text. string_bytes text ≡ stop_text self) }
    {
        match self {
            Stop::Memory => String::from_str(alloc, "(memory)\n"),
            Stop::Usage => String::from_str(alloc, "(usage)\n"),
            Stop::Failed => String::from_str(alloc, "(fault)\n"),
            Stop::Theory(fault) => of_form(alloc, "(theory ", fault.form, theory_word(fault.code)),
            Stop::Program(fault) => of_form(
                alloc,
                "(program ",
                fault.form,
                program_word(fault.code),
            ),
            Stop::Inputs(form) => numbered(alloc, "(inputs ", form),
            Stop::Unbuilt(file) => numbered(alloc, "(unbuilt ", u32::from(file)),
            Stop::Absent(file) => numbered(alloc, "(absent ", u32::from(file)),
        }
    }
}

/// The words, the number and the end of a list and a line.
fn numbered(alloc: Global, words: &str, number: u32) -> Result<String, AllocError>
    ensures { IfOk result (λ text. string_bytes text ≡ numbered_text words.now number) }
{
    let mut text = String::from_str(alloc, words)?;
    let number = number.to_string(alloc)?;
    text.push_str(number.as_str())?;
    text.push_str(")\n")?;
    Ok(text)
}

/// The words, the number of a form, the word for what is wrong with it, and the end of a list and a line.
fn of_form(alloc: Global, words: &str, form: u32, word: &str) -> Result<String, AllocError>
    ensures { IfOk result (λ text. string_bytes text ≡ form_text words.now form word.now) }
{
    let mut text = String::from_str(alloc, words)?;
    let number = form.to_string(alloc)?;
    text.push_str(number.as_str())?;
    text.push_str(" ")?;
    text.push_str(word)?;
    text.push_str(")\n")?;
    Ok(text)
}

/// The word for what is wrong with a theory.
fn theory_word(code: TheoryCode) -> &'static str
    ensures { result.now ≡ theory_word code }
{
    match code {
        TheoryCode::Large => "large",
        TheoryCode::Read => "read",
        TheoryCode::Limit => "limit",
        TheoryCode::Form => "form",
        TheoryCode::Name => "name",
        TheoryCode::Cycle => "cycle",
        TheoryCode::Sort => "sort",
        TheoryCode::Proof => "proof",
        TheoryCode::Memory => "memory",
    }
}

/// The word for what is wrong with a program.
fn program_word(code: LoadCode) -> &'static str
    ensures { result.now ≡ program_word code }
{
    match code {
        LoadCode::Large => "large",
        LoadCode::Read => "read",
        LoadCode::Version => "version",
        LoadCode::Form => "form",
        LoadCode::Sort => "sort",
        LoadCode::Memory => "memory",
    }
}
