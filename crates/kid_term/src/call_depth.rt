//! How deep the calls of definitions go.
ghost use Rattle.std.specs.Prelude.{◌≡◌, ◌∷◌, ◌++◌, [], OnOk, OnErr, map, max};
ghost use Rattle.kid_term.specs.CallDepth.{depth_at, head_depth, deepest_call, deepest_of, one_deeper, body_depth};
ghost use Rattle.kid_term.specs.PlainTerm.{term_row};
ghost use Rattle.kid_term.specs.TermView.{plain_head, plain_term};

use crate::substitute::is_same;
use crate::{Head, Term};
use kid_value::{Memory, Text};
use std::alloc::Global;
use std::marker::Model;

/// A definition may not be deeper.
pub const MAX_CALL_DEPTH: u8 = 16;

/// Definitions with the depth of each: one that calls none has depth 1, another one more than the deepest that it calls. A depth
/// of 17 stands for each that is greater than 16.
#[derive(Drop)]
pub struct CallDepths {
    items: Vec<(Text, u8)>,
}

impl Model for CallDepths {
    ghost use Rattle.std.specs.Prelude.{ℕ};
    ghost use Rattle.std.specs.Coded.{coded_list, coded×, coded_ℕ};
    ghost use Rattle.kid_term.specs.CallDepth.{Depths};

    ghost Value = { Depths };

    ghost coded = { coded_list (coded× (coded_list coded_ℕ) coded_ℕ) };

    ghost view = { λ d. d.items.items };
}

impl CallDepths {
    /// No definitions. Takes no memory.
    pub fn new(alloc: Global) -> CallDepths
        ensures { result ≡ [] }
    {
        CallDepths {
            items: Vec::new(alloc),
        }
    }

    /// Adds a definition after the others.
    ///
    /// # Errors
    ///
    /// Fails where memory is wanting, and then changes nothing.
    pub fn push(&mut self, name: Text, depth: u8) -> Result<(), Memory>
        ensures ok { OnOk result (self.new ≡ self.old ++ (name, depth) ∷ []) }
        ensures err { OnErr result (self.new ≡ self.old) }
    {
        self.items.push((name, depth))?;
        Ok(())
    }

    /// The depth of a definition with this body.
    pub fn of_body(&self, body: &Term) -> u8
        ensures { result ≡ body_depth self.now (plain_term body.now) }
    {
        one_deeper(self.deepest_call(body))
    }

    #[cycle(deepest_call)]
    fn deepest_call(&self, term: &Term) -> u8
        ensures { result ≡ deepest_call self.now (plain_term term.now) }
    {
        match term {
            Term::Var(_) | Term::Lit(_) => 0,
            Term::App(head, args) => self.of_head(head).max(self.deepest_of(&args.items)),
            Term::Bind(_, _, set, body) => self
                .deepest_call(&set.inner)
                .max(self.deepest_call(&body.inner)),
        }
    }

    #[cycle(deepest_call)]
    fn deepest_of(&self, terms: &[Term]) -> u8
        ensures { result ≡ deepest_of self.now (term_row (map plain_term terms.now)) }
    {
        let mut most = 0u8;
        for term in terms {
            most = most.max(self.deepest_call(term));
        }
        most
    }

    fn of_head(&self, head: &Head) -> u8
        ensures { result ≡ head_depth self.now (plain_head head.now) }
    {
        match head {
            Head::Call(name) => self.of_name(name),
            Head::Op(_) | Head::Cast(_) => 0,
        }
    }

    /// The depth of the first definition of a name, and 0 where there is none.
    fn of_name(&self, name: &Text) -> u8
        ensures { result ≡ depth_at name.now self.now }
    {
        for definition in &self.items {
            if is_same(name, &definition.0) {
                return definition.1;
            }
        }
        0
    }
}

fn one_deeper(depth: u8) -> u8
    ensures { result ≡ one_deeper depth }
{
    if depth <= MAX_CALL_DEPTH {
        depth + 1
    } else {
        MAX_CALL_DEPTH + 1
    }
}
