//! Laws of program files, each the contract of a function that does nothing.
ghost use Rattle.kid_prog.specs.Laws.{FormedProgramsLoad, LoadsAreFormed, LoadsAreSpelled, TextsGiveBack, TextsLoad};

/// A program that loads can be run, has a spelling, and is the one that the file's forms spell.
pub fn loads_are_spelled()
    ensures { LoadsAreSpelled }
{}

/// Where the text of a program loads, it gives the program.
pub fn texts_give_back()
    ensures { TextsGiveBack }
{}

/// A program that has a spelling and keeps the rules loads from each file that spells it, up to the limit on its bytes.
pub fn formed_programs_load()
    ensures { FormedProgramsLoad }
{}

/// The text of a program that keeps the rules loads, up to the limits on its bytes and on how deep lists nest.
pub fn texts_load()
    ensures { TextsLoad }
{}

/// A program that loads keeps the rules, and its file the limit on bytes.
pub fn loads_are_formed()
    ensures { LoadsAreFormed }
{}
