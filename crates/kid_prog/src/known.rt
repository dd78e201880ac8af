//! The definitions that a file has told so far.
ghost use Rattle.std.specs.Prelude.{◌≡◌, ◌∷◌, ◌++◌, [], IfOk, map};
ghost use Rattle.kid_term.specs.DefView.{plain_def};
ghost use Rattle.kid_prog.specs.Forms.{is_formed_definition};
ghost use Rattle.kid_prog.specs.Loading.{defined};

use kid_sorting::Signature;
use kid_sorting::judge::is_undefined;
use kid_sorting::names::are_new;
use kid_term::{CallDepths, Def, MAX_CALL_DEPTH};
use kid_value::{Memory, Names};
use std::alloc::Global;
use std::marker::Model;

/// Definitions, of which each is deeper than those that it calls.
#[derive(Drop)]
pub struct Known {
    signature: Signature,
    depths: CallDepths,
}

impl Model for Known {
    ghost use Rattle.std.specs.Prelude.{List};
    ghost use Rattle.kid_term.specs.Names.{PlainDef};
    ghost use Rattle.kid_term.specs.DefCode.{coded_defs};

    ghost Value = { List PlainDef };

    ghost coded = { coded_defs };

    ghost view = { λ k. k.signature.definitions };

    ghost use Rattle.std.specs.Prelude.{◌≡◌};
    ghost use Rattle.kid_term.specs.CallDepth.{depths_of};
    ghost use Rattle.kid_prog.specs.Loading.{defined};

    ghost invariant = { λ k. (k.depths ≡ depths_of k.signature.definitions) × (k.signature ≡ defined k.signature.definitions) };
}

impl Known {
    /// No definitions. Takes no memory.
    pub fn new(alloc: Global) -> Known
        ensures { result ≡ [] }
    {
        Known {
            signature: Signature::new(alloc),
            depths: CallDepths::new(alloc),
        }
    }

    /// The definitions in their order.
    pub fn definitions(&self) -> &[Def]
        ensures { map plain_def result.now ≡ self.now }
    {
        self.signature.definitions()
    }

    /// Whether a definition may stand after these: its name is new, its parameters differ from one another, and its calls do not
    /// go too deep.
    pub fn takes(&self, alloc: Global, definition: &Def) -> bool
        ensures { result ≡ is_formed_definition self.now (plain_def definition.now) }
    {
        is_undefined(&definition.name, self.signature.definitions())
            && are_new(&Names::new(alloc), &definition.parameters)
            && self.depths.of_body(&definition.body) <= MAX_CALL_DEPTH
    }

    /// These definitions and one after them.
    ///
    /// # Errors
    ///
    /// Fails where memory is wanting.
    pub fn with(self, alloc: Global, definition: Def) -> Result<Known, Memory>
        ensures { IfOk result (λ k. k ≡ self ++ plain_def definition ∷ []) }
    {
        let Known {
            mut signature,
            mut depths,
        } = self;
        let depth = depths.of_body(&definition.body);
        depths.push(definition.name.copy(alloc)?, depth)?;
        signature.add_definition(definition)?;
        Ok(Known { signature, depths })
    }

    /// The signature of these definitions and no inputs.
    pub fn signature(self) -> Signature
        ensures { result ≡ defined self }
    {
        self.signature
    }
}
