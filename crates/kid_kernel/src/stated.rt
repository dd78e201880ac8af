//! Laws and axioms of a theory by their names.
ghost use Rattle.std.specs.Prelude.{◌≡◌, ◌++◌, map, option_map};
ghost use Rattle.kid_scope.specs.LawRules.{law_named};
ghost use Rattle.kid_kernel.specs.LawView.{plain_law, plain_axiom};
ghost use Rattle.kid_kernel.specs.StatedView.{plain_stated};

use crate::law::{Axiom, Conclusion, Law};
use crate::theory::Theory;
use kid_term::Terms;
use kid_term::substitute::is_same;
use kid_value::{Names, Text};

/// What a law or an axiom says.
#[derive(Clone, Copy)]
pub struct Stated<'a> {
    pub name: &'a Text,
    pub variables: &'a Names,
    pub conditions: &'a Terms,
    pub conclusion: &'a Conclusion,
}

fn of_law(law: &Law) -> Stated<'_>
    ensures { plain_stated result ≡ plain_law law.now }
{
    Stated {
        name: &law.name,
        variables: &law.variables,
        conditions: &law.conditions,
        conclusion: &law.conclusion,
    }
}

fn of_axiom(assumed: &Axiom) -> Stated<'_>
    ensures { plain_stated result ≡ plain_axiom assumed.now }
{
    Stated {
        name: &assumed.name,
        variables: &assumed.variables,
        conditions: &assumed.conditions,
        conclusion: &assumed.conclusion,
    }
}

fn among_laws<'a>(laws: &'a [Law], name: &Text) -> Option<Stated<'a>>
    ensures { option_map plain_stated result ≡ law_named name.now (map plain_law laws.now) }
{
    for law in laws {
        if is_same(name, &law.name) {
            return Some(of_law(law));
        }
    }
    None
}

fn among_axioms<'a>(axioms: &'a [Axiom], name: &Text) -> Option<Stated<'a>>
    ensures { option_map plain_stated result ≡ law_named name.now (map plain_axiom axioms.now) }
{
    for assumed in axioms {
        if is_same(name, &assumed.name) {
            return Some(of_axiom(assumed));
        }
    }
    None
}

/// The law or the axiom of the name, the laws first.
#[tactic(auto, using(crate::proofs::StatedLemmas::found_first, crate::proofs::StatedLemmas::found_later))]
pub(crate) fn find_law<'a>(theory: &'a Theory, name: &Text) -> Option<Stated<'a>>
    ensures { option_map plain_stated result ≡ law_named name.now (theory.now.laws ++ theory.now.axioms) }
{
    match among_laws(theory.laws.items(), name) {
        Some(law) => Some(law),
        None => among_axioms(theory.axioms.items(), name),
    }
}
