ghost use Rattle.std.specs.Prelude.{◌≡◌, ◌∷◌, ◌++◌, [], OnOk, OnErr, map};
ghost use Rattle.std.specs.Option.{option_map};
ghost use Rattle.kid_value.specs.SortView.{plain_sort};
ghost use Rattle.kid_term.specs.DefView.{plain_def};
ghost use Rattle.kid_value.specs.NameView.{plain_name};
ghost use Rattle.kid_term.specs.Definition.{definition_of};

use kid_term::{Def, Defs};
use kid_value::{Memory, Names, Sort, Text};
use std::alloc::Global;
use std::marker::Model;

/// Definitions, and inputs with their sorts.
#[derive(Drop)]
pub struct Signature {
    definitions: Defs,
    inputs: Names,
}

impl Model for Signature {
    ghost use Rattle.kid_term.specs.PlainSignature.{PlainSignature, coded_signature};

    ghost Value = { PlainSignature };

    ghost coded = { coded_signature };

    ghost view = { λ s. record { definitions = s.definitions; inputs = s.inputs } };
}

impl Signature {
    /// No definitions and no inputs. Takes no memory.
    pub fn new(alloc: Global) -> Signature
        ensures { result ≡ record { definitions = []; inputs = [] } }
    {
        Signature {
            definitions: Defs::new(alloc),
            inputs: Names::new(alloc),
        }
    }

    /// The signature of these definitions and inputs. Takes no memory.
    pub fn from_parts(definitions: Defs, inputs: Names) -> Signature
        ensures { result ≡ record { definitions = definitions; inputs = inputs } }
    {
        Signature {
            definitions,
            inputs,
        }
    }

    /// Adds a definition after the others.
    ///
    /// # Errors
    ///
    /// Fails where memory is wanting, and then changes nothing.
    pub fn add_definition(&mut self, definition: Def) -> Result<(), Memory>
        ensures ok { OnOk result (self.new ≡ record self.old { definitions = self.old.definitions ++ plain_def definition ∷ [] }) }
        ensures err { OnErr result (self.new ≡ self.old) }
    {
        self.definitions.push(definition)?;
        Ok(())
    }

    /// Adds an input with its sort after the others.
    ///
    /// # Errors
    ///
    /// Fails where memory is wanting, and then changes nothing.
    pub fn add_input(&mut self, name: Text, sort: Sort) -> Result<(), Memory>
        ensures ok { OnOk result (self.new ≡ record self.old { inputs = self.old.inputs ++ (name, plain_sort sort) ∷ [] }) }
        ensures err { OnErr result (self.new ≡ self.old) }
    {
        self.inputs.push(name, sort)?;
        Ok(())
    }

    /// The definitions in their order.
    pub fn definitions(&self) -> &[Def]
        ensures { map plain_def result.now ≡ self.now.definitions }
    {
        self.definitions.items()
    }

    /// The definitions as a whole.
    pub fn defs(&self) -> &Defs
        ensures { result.now ≡ self.now.definitions }
    {
        &self.definitions
    }

    /// The inputs with their sorts, in their order.
    pub fn inputs(&self) -> &[(Text, Sort)]
        ensures { map plain_name result.now ≡ self.now.inputs }
    {
        self.inputs.items()
    }

    /// The inputs as a whole.
    pub fn names(&self) -> &Names
        ensures { result.now ≡ self.now.inputs }
    {
        &self.inputs
    }

    /// The latest definition of a name, or `None` where no definition has it.
    pub fn find_definition(&self, name: &Text) -> Option<&Def>
        ensures { option_map (λ d. plain_def d.now) result ≡ definition_of name.now self.now.definitions }
    {
        self.definitions.find(name)
    }
}
