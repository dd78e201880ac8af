//! Operators at a number, where they take arguments of another kind. Such a term has no sort, and its value is false.
ghost use Rattle.std.specs.Prelude.{◌≡◌, ◌∷◌, [], pos, false, true, IfOk};
ghost use Rattle.kid_value.specs.PlainValue.{int, bool};
ghost use Rattle.kid_term.specs.PlainTerm.{number};
ghost use Rattle.kid_term.specs.Eval.{op_value};
ghost use Rattle.kid_term.specs.Small.{op_small};

use kid_eval::{Env, eval};
use kid_term::{Defs, Head, Literal, LogicOp, MapOp, Op, PairOp, SeqOp, SetOp, Term, Terms};
use kid_value::{Memory, Value};
use std::alloc::Global;
use std::process::Abort;

fn takes_no_number(op: Op) -> bool
    ensures sums { result ≡ true → op_small op (int (pos 1) ∷ []) ≡ true }
    ensures value { result ≡ true → op_value op (int (pos 1) ∷ []) ≡ bool false }
{
    match op {
        Op::Logic(op) => op == LogicOp::Not,
        Op::Pair(op) => op == PairOp::Fst || op == PairOp::Snd,
        Op::Set(op) => op == SetOp::Card || op == SetOp::Sum,
        Op::Seq(op) => op == SeqOp::Len || op == SeqOp::Items || op == SeqOp::Total,
        Op::Map(op) => op == MapOp::Dom || op == MapOp::Ran,
        _ => false,
    }
}

fn one_number(alloc: Global) -> Result<Terms, Memory>
    ensures { IfOk result (λ ts. ts ≡ number (pos 1) ∷ []) }
{
    let mut terms = Terms::new(alloc);
    terms.push(Term::Lit(Literal::Int(1)))?;
    Ok(terms)
}

fn value_at(alloc: Global, op: Op, terms: Terms) -> Result<Value, Memory>
    requires terms { terms ≡ number (pos 1) ∷ [] }
    requires sums { op_small op (int (pos 1) ∷ []) ≡ true }
    requires value { op_value op (int (pos 1) ∷ []) ≡ bool false }
{
    let term = Term::App(Head::Op(op), terms);
    eval(alloc, &Defs::new(alloc), &Env::new(alloc), &term)
}

fn value_at_one(alloc: Global, op: Op) -> Option<Value> {
    if !takes_no_number(op) {
        return None;
    }
    match one_number(alloc) {
        Ok(terms) => value_at(alloc, op, terms).ok(),
        Err(_) => None,
    }
}

fn is_false_at_one(alloc: Global, op: Op) -> bool {
    matches!(value_at_one(alloc, op), Some(Value::Bool(false)))
}

fn all_are_false_at_one(rt: &impl Abort, alloc: Global, ops: &[Op]) {
    for op in ops {
        assert!(rt; is_false_at_one(alloc, *op), "at {op:?}");
    }
}

const UNFIT: [Op; 10] = [
    Op::Logic(LogicOp::Not),
    Op::Pair(PairOp::Fst),
    Op::Pair(PairOp::Snd),
    Op::Set(SetOp::Card),
    Op::Set(SetOp::Sum),
    Op::Seq(SeqOp::Len),
    Op::Seq(SeqOp::Items),
    Op::Seq(SeqOp::Total),
    Op::Map(MapOp::Dom),
    Op::Map(MapOp::Ran),
];

#[test]
fn is_false_at_another_kind(rt: HostRuntime) {
    all_are_false_at_one(&rt, rt.alloc(), &UNFIT);
}
