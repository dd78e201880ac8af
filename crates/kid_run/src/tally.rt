//! What a run has come to so far.
ghost use Rattle.std.specs.Prelude.{◌≡◌, ◌+◌, ◌∷◌, ◌++◌, [], OnOk};
ghost use Rattle.kid_run.specs.Lines.{shown};
ghost use Rattle.kid_run.specs.Wanted.{has_all, after_one};

use kid_value::{Memory, Text};
use std::alloc::Global;

/// The lines of the values that were found, how many values there are, 18446744073709551615 where there are more, how many calls
/// were begun, and how many more values are wanted, where not all are.
#[derive(Drop)]
pub struct Tally {
    pub lines: Vec<Text>,
    pub answers: u64,
    pub splits: u64,
    pub wanted: Option<u32>,
}

/// How many values are wanted after one more.
fn after_one(wanted: Option<u32>) -> Option<u32>
    ensures { result ≡ after_one wanted }
{
    match wanted {
        Some(count) => Some(count.saturating_sub(1)),
        None => None,
    }
}

impl Tally {
    /// Nothing so far. Takes no memory.
    pub fn new(alloc: Global, wanted: Option<u32>) -> Tally
        ensures lines { result.lines.items ≡ [] }
        ensures answers { result.answers ≡ 0 }
        ensures splits { result.splits ≡ 0 }
        ensures wanted { result.wanted ≡ wanted }
    {
        Tally {
            lines: Vec::new(alloc),
            answers: 0,
            splits: 0,
            wanted,
        }
    }

    /// Whether no more values are wanted.
    pub fn has_all(&self) -> bool
        ensures { result ≡ has_all self.now.wanted }
    {
        match self.wanted {
            Some(count) => count == 0,
            None => false,
        }
    }

    /// Counts a value, which has this line.
    pub fn add(&mut self, line: Text) -> Result<(), Memory>
        ensures lines { OnOk result (self.new.lines.items ≡ self.old.lines.items ++ line ∷ []) }
        ensures answers { OnOk result (self.new.answers ≡ shown (self.old.answers + 1)) }
        ensures splits { OnOk result (self.new.splits ≡ self.old.splits) }
        ensures wanted { OnOk result (self.new.wanted ≡ after_one self.old.wanted) }
    {
        self.lines.push(line)?;
        self.answers = self.answers.saturating_add(1);
        self.wanted = after_one(self.wanted);
        Ok(())
    }
}
