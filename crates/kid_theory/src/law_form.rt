//! Laws and axioms.
ghost use Rattle.std.specs.Prelude.{◌≡◌, IfOk, map};
ghost use Rattle.kid_sexp.specs.Tree.{plain};
ghost use Rattle.kid_term.specs.DefView.{plain_def};
ghost use Rattle.kid_kernel.specs.Held.{AreNames};
ghost use Rattle.kid_kernel.specs.IsTheory.{IsTheory};
ghost use Rattle.kid_kernel.specs.LawView.{plain_axiom};
ghost use Rattle.kid_kernel.specs.SortedLaw.{is_sorted_law};
ghost use Rattle.kid_kernel.specs.TheoryView.{plain_theory};
ghost use Rattle.kid_theory.specs.Answers.{Judges};
ghost use Rattle.kid_theory.specs.ClaimView.{plain_claim};
ghost use Rattle.kid_theory.specs.Forms.{is_named_law, judged_law, axiom_form, proved_by, law_form, assumed_form, is_claim, claim_form};
ghost use Rattle.kid_theory.specs.Known.{IsKnown};
ghost use Rattle.kid_theory.specs.Proof.{proof_names};

use crate::claims::Claim;
use crate::copies::as_law;
use crate::fault::TheoryCode;
use crate::forms::begins;
use crate::names::{are_free, is_free, joined, with_text};
use crate::proof::is_proved;
use crate::shape::{axiom_shape, law_shape};
use kid_kernel::{Axiom, Moves, Theory, is_sorted_axiom};
use kid_sexp::Tree;
use kid_term::Def;
use kid_value::{Memory, Names, Texts};
use std::alloc::Global;

fn is_named_law(
    alloc: Global,
    taken: &Texts,
    variables: &Texts,
    law: &Axiom,
) -> Result<bool, Memory>
    ensures { IfOk result (λ b. b ≡ is_named_law taken.now variables.now (plain_axiom law.now)) }
{
    let all = joined(alloc, taken, variables)?;
    if !is_free(&all, &law.name) {
        return Ok(false);
    }
    let own = with_text(alloc, taken, &law.name)?;
    are_free(alloc, &own, &law.variables)
}

/// The law, where its names are new and it is sorted.
fn judged_law(
    alloc: Global,
    definitions: &[Def],
    inputs: &Names,
    taken: &Texts,
    variables: &Texts,
    law: Axiom,
) -> Result<Axiom, TheoryCode>
    ensures { Judges plain_axiom result (judged_law (map plain_def definitions.now) inputs.now taken.now variables.now (plain_axiom law)) }
{
    if !is_named_law(alloc, taken, variables, &law)? {
        return Err(TheoryCode::Name);
    }
    if !is_sorted_axiom(alloc, definitions, inputs, &law)? {
        return Err(TheoryCode::Sort);
    }
    Ok(law)
}

fn axiom_form(
    alloc: Global,
    definitions: &[Def],
    inputs: &Names,
    taken: &Texts,
    variables: &Texts,
    tree: &Tree,
) -> Result<Axiom, TheoryCode>
    ensures { Judges plain_axiom result (axiom_form (map plain_def definitions.now) inputs.now taken.now variables.now (plain tree.now)) }
{
    let law = axiom_shape(alloc, tree)?;
    judged_law(alloc, definitions, inputs, taken, variables, law)
}

/// `(axiom NAME ((NAME SORT) ..) (given TERM ..) CONCLUSION)`
fn assumed_form(
    alloc: Global,
    theory: &Theory,
    taken: &Texts,
    variables: &Texts,
    tree: &Tree,
) -> Result<Claim, TheoryCode>
    ensures { Judges plain_claim result (assumed_form (plain_theory theory.now) taken.now variables.now (plain tree.now)) }
{
    let law = axiom_form(
        alloc,
        theory.signature.definitions(),
        theory.signature.names(),
        taken,
        variables,
        tree,
    )?;
    Ok(Claim::Assumed(law))
}

/// The law, where the moves prove it.
fn proved(alloc: Global, theory: &Theory, moves: Moves, law: Axiom) -> Result<Claim, TheoryCode>
    requires theory { IsTheory (plain_theory theory.now) }
    requires names { AreNames (plain_theory theory.now) (proof_names (plain_theory theory.now) (plain_axiom law)) }
    ensures { Judges plain_claim result (proved_by (plain_theory theory.now) moves (plain_axiom law)) }
{
    if !is_proved(alloc, theory, &law, &moves)? {
        return Err(TheoryCode::Proof);
    }
    Ok(Claim::Proved(as_law(law), moves))
}

/// `(law NAME ((NAME SORT) ..) (given TERM ..) CONCLUSION (by MOVE ..))`
fn law_form(
    alloc: Global,
    theory: &Theory,
    taken: &Texts,
    variables: &Texts,
    tree: &Tree,
) -> Result<Claim, TheoryCode>
    requires { IsKnown (plain_theory theory.now) taken.now variables.now }
    ensures { Judges plain_claim result (law_form (plain_theory theory.now) taken.now variables.now (plain tree.now)) }
{
    let (law, moves) = law_shape(alloc, tree)?;
    let law = judged_law(
        alloc,
        theory.signature.definitions(),
        theory.signature.names(),
        taken,
        variables,
        law,
    )?;
    proved(alloc, theory, moves, law)
}

/// Whether the form begins as a law or an axiom does.
pub fn is_claim(tree: &Tree) -> bool
    ensures { result ≡ is_claim (plain tree.now) }
{
    begins(b"axiom", tree) || begins(b"law", tree)
}

/// A law or an axiom over the theory so far and after these names and variables: new names, allowed sorts, conditions and a conclusion
/// without binders that have sorts over the inputs and the variables, and of a law a proof from what stands before it.
pub fn claim_form(
    alloc: Global,
    theory: &Theory,
    taken: &Texts,
    variables: &Texts,
    tree: &Tree,
) -> Result<Claim, TheoryCode>
    requires { IsKnown (plain_theory theory.now) taken.now variables.now }
    ensures { Judges plain_claim result (claim_form (plain_theory theory.now) taken.now variables.now (plain tree.now)) }
{
    if begins(b"axiom", tree) {
        assumed_form(alloc, theory, taken, variables, tree)
    } else {
        law_form(alloc, theory, taken, variables, tree)
    }
}
