//! The operators, by their groups.
ghost use Rattle.std.specs.Prelude.{◌≡◌, true, IfOk, map};
ghost use Rattle.kid_value.specs.ValueView.{plain};
ghost use Rattle.kid_term.specs.Eval.{op_value};
ghost use Rattle.kid_term.specs.Small.{is_small, op_small};
ghost use Rattle.kid_eval.specs.ScopeView.{plain_seen};

use crate::logic::logic_row;
use crate::map::map_row;
use crate::number::number_row;
use crate::pair::pair_row;
use crate::scope::Seen;
use crate::seq::seq_row;
use crate::set::set_row;
use crate::word::word_row;
use kid_term::Op;
use kid_value::{Memory, Value};
use std::alloc::Global;

/// What an operator gives, and false at arguments of another kind or count.
pub fn row<'a>(alloc: Global, op: Op, values: &[Seen<'a>]) -> Result<Value, Memory>
    requires sums { op_small op (map plain_seen values.now) ≡ true }
    requires small { is_small (op_value op (map plain_seen values.now)) ≡ true }
    ensures { IfOk result (λ v. plain v ≡ op_value op (map plain_seen values.now)) }
{
    match op {
        Op::Logic(op) => logic_row(alloc, op, values),
        Op::Number(op) => Ok(number_row(op, values)),
        Op::Pair(op) => pair_row(alloc, op, values),
        Op::Set(op) => set_row(alloc, op, values),
        Op::Seq(op) => seq_row(alloc, op, values),
        Op::Map(op) => map_row(alloc, op, values),
        Op::Word(op) => word_row(alloc, op, values),
    }
}
