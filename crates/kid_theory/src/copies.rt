//! Copies of laws, and an axiom as a law.
ghost use Rattle.std.specs.Prelude.{◌≡◌, ◌∷◌, ◌++◌, [], IfOk};
ghost use Rattle.kid_kernel.specs.LawView.{plain_conclusion, plain_axiom, plain_law};
ghost use Rattle.kid_theory.specs.Before.{laws_with, axioms_with};
ghost use Rattle.kid_theory.specs.ClaimView.{plain_claim};
ghost use Rattle.kid_term.specs.PlainLaw.{equal};
ghost use Rattle.kid_term.specs.TermView.{plain_term};

use crate::claims::Claim;
use kid_kernel::{Axiom, Axioms, Conclusion, Law, Laws};
use kid_scope::copied as copied_terms;
use kid_sorting::names::copied as copied_names;
use kid_term::Term;
use kid_value::Memory;
use std::alloc::Global;

fn copied_sides(alloc: Global, left: &Term, right: &Term) -> Result<Conclusion, Memory>
    ensures { IfOk result (λ c. plain_conclusion c ≡ equal (plain_term left.now) (plain_term right.now)) }
{
    let left = left.copy(alloc)?;
    let right = right.copy(alloc)?;
    Ok(Conclusion::Equal(left, right))
}

fn copied_conclusion(alloc: Global, conclusion: &Conclusion) -> Result<Conclusion, Memory>
    ensures { IfOk result (λ c. plain_conclusion c ≡ plain_conclusion conclusion.now) }
{
    match conclusion {
        Conclusion::Equal(left, right) => copied_sides(alloc, left, right),
        Conclusion::Holds(term) => Ok(Conclusion::Holds(term.copy(alloc)?)),
    }
}

fn copied_axiom(alloc: Global, law: &Axiom) -> Result<Axiom, Memory>
    ensures { IfOk result (λ l. plain_axiom l ≡ plain_axiom law.now) }
{
    let name = law.name.copy(alloc)?;
    let variables = copied_names(alloc, &law.variables)?;
    let conditions = copied_terms(alloc, &law.conditions)?;
    let conclusion = copied_conclusion(alloc, &law.conclusion)?;
    Ok(Axiom {
        name,
        variables,
        conditions,
        conclusion,
    })
}

fn copied_law(alloc: Global, law: &Law) -> Result<Law, Memory>
    ensures { IfOk result (λ l. plain_law l ≡ plain_law law.now) }
{
    let name = law.name.copy(alloc)?;
    let variables = copied_names(alloc, &law.variables)?;
    let conditions = copied_terms(alloc, &law.conditions)?;
    let conclusion = copied_conclusion(alloc, &law.conclusion)?;
    Ok(Law {
        name,
        variables,
        conditions,
        conclusion,
    })
}

fn more_axioms(alloc: Global, axioms: Axioms, law: &Axiom) -> Result<Axioms, Memory>
    ensures { IfOk result (λ all. all ≡ axioms ++ plain_axiom law.now ∷ []) }
{
    let copy = copied_axiom(alloc, law)?;
    let mut all = axioms;
    all.push(copy)?;
    Ok(all)
}

fn more_laws(alloc: Global, laws: Laws, law: &Law) -> Result<Laws, Memory>
    ensures { IfOk result (λ all. all ≡ laws ++ plain_law law.now ∷ []) }
{
    let copy = copied_law(alloc, law)?;
    let mut all = laws;
    all.push(copy)?;
    Ok(all)
}

/// The laws and axioms, and a copy of this one after those of its kind.
///
/// # Errors
///
/// Fails where memory is wanting.
pub fn with_copy(
    alloc: Global,
    laws: Laws,
    axioms: Axioms,
    claim: &Claim,
) -> Result<(Laws, Axioms), Memory>
    ensures { IfOk result (λ p. (p.0 ≡ laws_with laws (plain_claim claim.now)) × (p.1 ≡ axioms_with axioms (plain_claim claim.now))) }
{
    match claim {
        Claim::Assumed(law) => {
            let axioms = more_axioms(alloc, axioms, law)?;
            Ok((laws, axioms))
        }
        Claim::Proved(law, _) => {
            let laws = more_laws(alloc, laws, law)?;
            Ok((laws, axioms))
        }
    }
}

/// What was an axiom until it was proved.
pub fn as_law(law: Axiom) -> Law
    ensures { plain_law result ≡ plain_axiom law }
{
    let Axiom {
        name,
        variables,
        conditions,
        conclusion,
    } = law;
    Law {
        name,
        variables,
        conditions,
        conclusion,
    }
}
