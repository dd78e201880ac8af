//! The heads of the terms in the table.

use crate::step::Step;
use kid_term::{LogicOp, MapOp, NumberOp, Op, SeqOp, SetOp};

pub(crate) const A: Step = Step::Var(b'a');

pub(crate) const ADD: Step = Step::Two(Op::Number(NumberOp::Add));

pub(crate) const AND: Step = Step::Two(Op::Logic(LogicOp::And));

pub(crate) const AT: Step = Step::Three(Op::Seq(SeqOp::At));

pub(crate) const B: Step = Step::Var(b'b');

pub(crate) const C: Step = Step::Var(b'c');

pub(crate) const CARD: Step = Step::One(Op::Set(SetOp::Card));

pub(crate) const D: Step = Step::Var(b'd');

pub(crate) const DIFF: Step = Step::Two(Op::Set(SetOp::Diff));

pub(crate) const DOM: Step = Step::One(Op::Map(MapOp::Dom));

pub(crate) const EMPTY: Step = Step::Zero(Op::Set(SetOp::Set));

pub(crate) const EQ: Step = Step::Two(Op::Logic(LogicOp::Eq));

pub(crate) const FALSE: Step = Step::Bool(false);

pub(crate) const FITS: Step = Step::Two(Op::Map(MapOp::Fits));

pub(crate) const GET: Step = Step::Three(Op::Map(MapOp::Get));

pub(crate) const IF: Step = Step::Three(Op::Logic(LogicOp::If));

pub(crate) const IMPLIES: Step = Step::Two(Op::Logic(LogicOp::Implies));

pub(crate) const IN: Step = Step::Two(Op::Set(SetOp::In));

pub(crate) const INTER: Step = Step::Two(Op::Set(SetOp::Inter));

pub(crate) const ITEMS: Step = Step::One(Op::Seq(SeqOp::Items));

pub(crate) const LE: Step = Step::Two(Op::Number(NumberOp::Le));

pub(crate) const LEAST: Step = Step::Two(Op::Set(SetOp::Least));

pub(crate) const LEN: Step = Step::One(Op::Seq(SeqOp::Len));

pub(crate) const LT: Step = Step::Two(Op::Number(NumberOp::Lt));

pub(crate) const M: Step = Step::Var(b'm');

pub(crate) const MAX: Step = Step::Two(Op::Number(NumberOp::Max));

pub(crate) const MIN: Step = Step::Two(Op::Number(NumberOp::Min));

pub(crate) const MUL: Step = Step::Two(Op::Number(NumberOp::Mul));

pub(crate) const N: Step = Step::Var(b'n');

pub(crate) const NEG: Step = Step::One(Op::Number(NumberOp::Neg));

pub(crate) const NOT: Step = Step::One(Op::Logic(LogicOp::Not));

pub(crate) const ONE: Step = Step::Int(1);

pub(crate) const OR: Step = Step::Two(Op::Logic(LogicOp::Or));

pub(crate) const P: Step = Step::Var(b'p');

pub(crate) const PREFIX: Step = Step::Two(Op::Seq(SeqOp::Prefix));

pub(crate) const PUT: Step = Step::Three(Op::Map(MapOp::Put));

pub(crate) const Q: Step = Step::Var(b'q');

pub(crate) const R: Step = Step::Var(b'r');

pub(crate) const RANGE: Step = Step::Two(Op::Set(SetOp::Range));

pub(crate) const S: Step = Step::Var(b's');

pub(crate) const SET: Step = Step::One(Op::Set(SetOp::Set));

pub(crate) const SNOC: Step = Step::Two(Op::Seq(SeqOp::Snoc));

pub(crate) const SUB: Step = Step::Two(Op::Number(NumberOp::Sub));

pub(crate) const SUBMAP: Step = Step::Two(Op::Map(MapOp::Submap));

pub(crate) const SUBSET: Step = Step::Two(Op::Set(SetOp::Subset));

pub(crate) const SUM: Step = Step::One(Op::Set(SetOp::Sum));

pub(crate) const T: Step = Step::Var(b't');

pub(crate) const TOTAL: Step = Step::One(Op::Seq(SeqOp::Total));

pub(crate) const TRUE: Step = Step::Bool(true);

pub(crate) const U: Step = Step::Var(b'u');

pub(crate) const UNION: Step = Step::Two(Op::Set(SetOp::Union));

pub(crate) const V: Step = Step::Var(b'v');

pub(crate) const W: Step = Step::Var(b'w');

pub(crate) const WITH: Step = Step::Two(Op::Set(SetOp::With));

pub(crate) const WITHOUT: Step = Step::Two(Op::Set(SetOp::Without));

pub(crate) const X: Step = Step::Var(b'x');

pub(crate) const Y: Step = Step::Var(b'y');

pub(crate) const ZERO: Step = Step::Int(0);
