//! The derivation of a program by the range theory, as it is saved.
ghost use Rattle.std.specs.Prelude.{◌≡◌, true, IfOk, codes};
ghost use Rattle.kid_sexp.specs.Plain.{atom, list, one, join, none};
ghost use Rattle.kid_sexp.specs.Tree.{plain};
ghost use Rattle.kid_value.specs.SortLimits.{in_limits, is_allowed};
ghost use Rattle.kid_value.specs.SortView.{plain_sort};
ghost use Rattle.kid_codec.specs.SortSpelling.{number_tree};
ghost use Rattle.kid_prog.specs.ProgramView.{plain_program};
ghost use Rattle.kid_top.specs.Derivation.{range_step, steps_at, derivation_text};

use kid_codec::value_tree;
use kid_prog::Program;
use kid_sexp::{Forest, Tree, print};
use kid_value::{Memory, Sort, Text, Value};
use std::alloc::Global;

fn word(alloc: Global, word: &[u8]) -> Result<Tree, Memory>
    ensures { IfOk result (λ t. plain t ≡ atom word.now) }
{
    Ok(Tree::Atom(Text::from_slice(alloc, word)?))
}

fn number(alloc: Global, n: i64) -> Result<Tree, Memory>
    requires { in_limits n ≡ true }
    ensures { IfOk result (λ t. plain t ≡ number_tree n) }
{
    value_tree(alloc, &Value::Int(n))
}

/// The names of the two components.
fn components(alloc: Global) -> Result<Tree, Memory>
    ensures { IfOk result (λ t. plain t ≡ list (join (one (atom (codes "low"))) (one (atom (codes "high"))))) }
{
    let mut trees = Forest::new(alloc);
    trees.push(word(alloc, b"low")?)?;
    trees.push(word(alloc, b"high")?)?;
    Ok(Tree::List(trees))
}

/// No moves.
fn no_moves(alloc: Global) -> Result<Tree, Memory>
    ensures { IfOk result (λ t. plain t ≡ list (one (atom (codes "by")))) }
{
    let mut trees = Forest::new(alloc);
    trees.push(word(alloc, b"by")?)?;
    Ok(Tree::List(trees))
}

/// The step that matches the range from `lo` to `hi`.
fn range_step(alloc: Global, lo: i64, hi: i64) -> Result<Tree, Memory>
    requires lo { in_limits lo ≡ true }
    requires hi { in_limits hi ≡ true }
    ensures { IfOk result (λ t. plain t ≡ range_step lo hi) }
{
    let mut trees = Forest::new(alloc);
    trees.push(word(alloc, b"match")?)?;
    trees.push(word(alloc, b"range")?)?;
    trees.push(components(alloc)?)?;
    trees.push(number(alloc, lo)?)?;
    trees.push(number(alloc, hi)?)?;
    trees.push(no_moves(alloc)?)?;
    Ok(Tree::List(trees))
}

fn steps(alloc: Global, sort: &Sort) -> Result<Forest, Memory>
    requires { is_allowed (plain_sort sort.now) ≡ true }
    ensures { IfOk result (λ f. f ≡ steps_at (plain_sort sort.now)) }
{
    let mut steps = Forest::new(alloc);
    if let Sort::Int { lo, hi } = sort {
        steps.push(range_step(alloc, *lo, *hi)?)?;
    }
    Ok(steps)
}

/// The text of the derivation of a program: one line for its one step.
#[tactic(auto, using(crate::proofs::Steps::steps))]
pub fn derivation_text(alloc: Global, program: &Program) -> Result<Vec<u8>, Memory>
    requires { is_allowed (plain_sort program.now.sort) ≡ true }
    ensures { IfOk result (λ bytes. bytes.items ≡ derivation_text (plain_program program.now)) }
{
    let steps = steps(alloc, &program.sort)?;
    match print(alloc, &steps) {
        Ok(bytes) => Ok(bytes),
        Err(_) => Err(Memory),
    }
}
