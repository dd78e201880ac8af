//! The term of a value.
ghost use Rattle.std.specs.Prelude.{◌≡◌, IfOk, map};
ghost use Rattle.kid_value.specs.PlainValue.{row, table};
ghost use Rattle.kid_value.specs.ValueView.{plain, plain_entry};
ghost use Rattle.kid_term.specs.Eval.{Env, Calls, eval};
ghost use Rattle.kid_term.specs.PlainTerm.{term_row};
ghost use Rattle.kid_term.specs.Quote as spec;
ghost use Rattle.kid_term.specs.TermView.{plain_term};

use crate::{Head, Literal, MapOp, Op, PairOp, SeqOp, SetOp, Term, Terms};
use kid_value::{Memory, Value};
use std::alloc::Global;

/// The term of a value: a literal, or `pair`, `set` or `seq` of the terms of its parts, and for a
/// map a `put` for each key into `(map)`, in the order of the keys, the last one outermost.
///
/// # Errors
///
/// Fails where memory is wanting.
pub fn quote(alloc: Global, v: &Value) -> Result<Term, Memory>
    ensures term { IfOk result (λ t. plain_term t ≡ spec.quote (plain v.now)) }
    ensures value { IfOk result (λ t. (calls : Calls) (env : Env) → eval calls env (plain_term t) ≡ plain v.now) }
{
    v.canonical();
    quoted(alloc, v)
}

#[cycle(quoted)]
fn quoted(alloc: Global, v: &Value) -> Result<Term, Memory>
    ensures { IfOk result (λ t. plain_term t ≡ spec.quote (plain v.now)) }
{
    match v {
        Value::Int(n) => Ok(Term::Lit(Literal::Int(*n))),
        Value::Bool(b) => Ok(Term::Lit(Literal::Bool(*b))),
        Value::Tag(name) => Ok(Term::Lit(Literal::Tag(name.copy(alloc)?))),
        Value::Pair(first, second) => {
            let first = quoted(alloc, first.get())?;
            let second = quoted(alloc, second.get())?;
            couple(alloc, first, second)
        }
        Value::Set(members) => {
            let terms = all_quoted(alloc, members.items())?;
            Ok(Term::App(Head::Op(Op::Set(SetOp::Set)), terms))
        }
        Value::Seq(items) => {
            let terms = all_quoted(alloc, items.items())?;
            Ok(Term::App(Head::Op(Op::Seq(SeqOp::Seq)), terms))
        }
        Value::Map(entries) => all_put(alloc, entries.items()),
    }
}

#[cycle(quoted)]
fn all_quoted(alloc: Global, values: &[Value]) -> Result<Terms, Memory>
    ensures { IfOk result (λ ts. term_row ts ≡ spec.quotes (row (map plain values.now))) }
{
    let mut terms = Terms::new(alloc);
    for value in values {
        terms.push(quoted(alloc, value)?)?;
    }
    Ok(terms)
}

#[cycle(quoted)]
fn all_put(alloc: Global, entries: &[(Value, Value)]) -> Result<Term, Memory>
    ensures { IfOk result (λ t. plain_term t ≡ spec.all_put spec.empty_map (table (map plain_entry entries.now))) }
{
    let mut map = Term::App(Head::Op(Op::Map(MapOp::Map)), Terms::new(alloc));
    for entry in entries {
        let key = quoted(alloc, &entry.0)?;
        let value = quoted(alloc, &entry.1)?;
        map = put(alloc, map, key, value)?;
    }
    Ok(map)
}

fn couple(alloc: Global, first: Term, second: Term) -> Result<Term, Memory>
    ensures { IfOk result (λ t. plain_term t ≡ spec.couple (plain_term first) (plain_term second)) }
{
    let mut parts = Terms::new(alloc);
    parts.push(first)?;
    parts.push(second)?;
    Ok(Term::App(Head::Op(Op::Pair(PairOp::Pair)), parts))
}

fn put(alloc: Global, map: Term, key: Term, value: Term) -> Result<Term, Memory>
    ensures { IfOk result (λ t. plain_term t ≡ spec.put (plain_term map) (plain_term key) (plain_term value)) }
{
    let mut parts = Terms::new(alloc);
    parts.push(map)?;
    parts.push(key)?;
    parts.push(value)?;
    Ok(Term::App(Head::Op(Op::Map(MapOp::Put)), parts))
}
