//! Theory files.
ghost use Rattle.std.specs.Prelude.{◌≡◌, IfOk, map};
ghost use Rattle.kid_kernel.specs.TheoryView.{plain_theory};
ghost use Rattle.kid_theory.specs.Claims.{proved_among, assumed_among};
ghost use Rattle.kid_theory.specs.ClaimView.{plain_claim};
ghost use Rattle.kid_theory.specs.FileView.{plain_file};
ghost use Rattle.kid_theory.specs.PlainFile.{theory_of};

use crate::claims::{Claim, Claims};
use kid_kernel::{Axioms, Laws, Spec, Theory};
use kid_sorting::Signature;
use kid_sorting::names::copied;
use kid_term::Term;
use kid_value::{Memory, Sort, Text};
use std::alloc::Global;

/// What a theory file holds, in the order of its forms.
#[derive(Drop)]
pub struct TheoryFile {
    pub title: Text,
    pub signature: Signature,
    pub condition: Term,
    pub claims: Claims,
    pub output: Text,
    pub sort: Sort,
    pub relation: Term,
    pub first: Option<u32>,
}

/// What is proved, and what is assumed.
fn parted(alloc: Global, claims: Vec<Claim>) -> Result<(Laws, Axioms), Memory>
    ensures { IfOk result (λ p. (p.0 ≡ proved_among (map plain_claim claims.items)) × (p.1 ≡ assumed_among (map plain_claim claims.items))) }
{
    let mut laws = Laws::new(alloc);
    let mut axioms = Axioms::new(alloc);
    for claim in claims {
        match claim {
            Claim::Assumed(law) => axioms.push(law)?,
            Claim::Proved(law, _moves) => laws.push(law)?,
        }
    }
    Ok((laws, axioms))
}

/// The theory of a file.
///
/// # Errors
///
/// Fails where memory is wanting.
pub fn theory_of(alloc: Global, file: TheoryFile) -> Result<Theory, Memory>
    ensures { IfOk result (λ t. plain_theory t ≡ theory_of (plain_file file)) }
{
    let TheoryFile {
        title: _,
        signature,
        condition,
        claims,
        output,
        sort,
        relation,
        first,
    } = file;
    let spec = Spec {
        inputs: copied(alloc, signature.names())?,
        condition,
        output,
        sort,
        relation,
        first,
    };
    let (laws, axioms) = parted(alloc, claims.into_vec())?;
    Ok(Theory {
        signature,
        laws,
        axioms,
        spec,
    })
}
