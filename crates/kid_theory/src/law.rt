//! Laws of theory files, each the contract of a function that does nothing.
ghost use Rattle.kid_theory.specs.Formed.{FilesAreRead};

/// Bytes are read as a theory file exactly where they are at most 4,194,304, spell that file, and the file keeps the rules.
pub fn files_are_read()
    ensures { FilesAreRead }
{}
