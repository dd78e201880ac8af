//! Laws of what trees spell, each the contract of a function that does nothing.
ghost use Rattle.kid_lines.specs.LineAnswers.{LinesAreRead, MovesAreRead};

/// What is read as a line was spelled so, and a line that has a spelling is read back.
#[tactic(auto, using(crate::proofs::LinesRead::lines_read))]
pub fn lines_are_read()
    ensures { LinesAreRead }
{}

/// What is read as a move was spelled so, and a move that has a spelling is read back.
#[tactic(auto, using(crate::proofs::MovesRead::moves_read))]
pub fn moves_are_read()
    ensures { MovesAreRead }
{}
