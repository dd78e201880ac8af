//! Places in terms.
ghost use Rattle.std.specs.Prelude.{◌≡◌, ◌∷◌, ◌++◌, [], OnOk, OnErr, length};

use kid_value::Memory;
use smallvec::SmallVec;
use std::alloc::Global;
use std::marker::Model;

/// Child numbers from the root down, from 0 on. A binder's children are its set and its body.
#[derive(Drop)]
pub struct Path {
    steps: SmallVec<u32, 8>,
}

impl Model for Path {
    ghost use Rattle.std.specs.Prelude.{List, ℕ};

    ghost Value = { List ℕ };

    ghost view = { λ p. p.steps.items };
}

impl Path {
    /// The path of the root. Takes no memory.
    pub fn new(alloc: Global) -> Path
        ensures { result ≡ [] }
    {
        Path {
            steps: SmallVec::new(alloc),
        }
    }

    /// The path of these steps. Takes no memory.
    pub fn from_vec(steps: Vec<u32>) -> Path
        ensures { result ≡ steps.items }
    {
        Path {
            steps: SmallVec::from_vec(steps),
        }
    }

    /// Goes one step further down.
    ///
    /// # Errors
    ///
    /// Fails where memory is wanting, and then changes nothing.
    pub fn push(&mut self, step: u32) -> Result<(), Memory>
        ensures ok { OnOk result (self.new ≡ self.old ++ step ∷ []) }
        ensures err { OnErr result (self.new ≡ self.old) }
    {
        match self.steps.push(step) {
            Ok(()) => Ok(()),
            Err(_) => Err(Memory),
        }
    }

    /// How many steps the path has.
    pub fn len(&self) -> usize
        ensures { result ≡ length self.now }
    {
        self.steps.len()
    }

    /// The steps from the root down.
    pub fn as_slice(&self) -> &[u32]
        ensures { result.now ≡ self.now }
    {
        self.steps.as_slice()
    }
}
