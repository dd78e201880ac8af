//! Values of terms without free names.
ghost use Rattle.std.specs.Prelude.{◌≡◌, [], true, IfOk};
ghost use Rattle.kid_value.specs.ValueView.{plain};
ghost use Rattle.kid_value.specs.Rows.Parts.{truth_of};
ghost use Rattle.kid_term.specs.Eval as spec;
ghost use Rattle.kid_term.specs.Quote as quoted;
ghost use Rattle.kid_term.specs.Small.{StaysSmall};
ghost use Rattle.kid_term.specs.TermView.{plain_term};

use kid_eval::{Env, eval};
use kid_term::{Defs, Term, quote};
use kid_value::{Memory, Value};
use std::alloc::Global;

fn value_of(alloc: Global, definitions: &Defs, term: &Term) -> Result<Value, Memory>
    requires { StaysSmall definitions.now [] (plain_term term.now) }
    ensures { IfOk result (λ v. plain v ≡ spec.eval (spec.calls_of definitions.now) [] (plain_term term.now)) }
{
    let env = Env::new(alloc);
    eval(alloc, definitions, &env, term)
}

/// Whether the term's value is the truth value true.
///
/// # Errors
///
/// Fails where memory is wanting.
pub fn is_true(alloc: Global, definitions: &Defs, term: &Term) -> Result<bool, Memory>
    requires { StaysSmall definitions.now [] (plain_term term.now) }
    ensures { IfOk result (λ b. b ≡ truth_of (spec.eval (spec.calls_of definitions.now) [] (plain_term term.now))) }
{
    match value_of(alloc, definitions, term)? {
        Value::Bool(b) => Ok(b),
        _ => Ok(false),
    }
}

/// The term of the term's value.
///
/// # Errors
///
/// Fails where memory is wanting.
pub fn term_of_value(alloc: Global, definitions: &Defs, term: &Term) -> Result<Term, Memory>
    requires { StaysSmall definitions.now [] (plain_term term.now) }
    ensures { IfOk result (λ t. plain_term t ≡ quoted.quote (spec.eval (spec.calls_of definitions.now) [] (plain_term term.now))) }
{
    let value = value_of(alloc, definitions, term)?;
    quote(alloc, &value)
}
