//! One binder over two sets, and over a part of its set: b6, b7 and b12.
ghost use Rattle.std.specs.Prelude.{◌≡◌, IfOk, Ok};
ghost use Rattle.kid_term.specs.PlainTerm.{bind};
ghost use Rattle.kid_term.specs.TermView.{plain_term};
ghost use Rattle.kid_binders.specs.Shapes as shape;
ghost use Rattle.kid_binders.specs.Outcome.{Gives, made, made_if, plain_bound};
ghost use Rattle.kid_binders.specs.Parted as spec;

use crate::bound::{Bound, RuleFault};
use crate::build::{bind_of, made, made_if, two, two_of};
use crate::shape::{as_and, as_or, as_union, same_term};
use kid_term::substitute::is_same;
use kid_term::{Binder, LogicOp, Op, SetOp, Term};
use kid_value::{Memory, Text};
use std::alloc::Global;

// one binder over two sets, each by itself
fn split(
    alloc: Global,
    op: Op,
    binder: Binder,
    x: &Text,
    s: &Term,
    t: &Term,
    p: &Term,
) -> Result<Bound, Memory>
    ensures { IfOk result (λ b. made (shape.two op (bind binder x.now (plain_term s.now) (plain_term p.now)) (bind binder x.now (plain_term t.now) (plain_term p.now)))
        ≡ Ok (plain_bound b)) }
{
    let left = bind_of(alloc, binder, x, s, p)?;
    let right = bind_of(alloc, binder, x, t, p)?;
    let whole = two(alloc, op, left, right)?;
    Ok(made(alloc, whole))
}

// one binder over the union
fn joined(
    alloc: Global,
    binder: Binder,
    x: &Text,
    s: &Term,
    t: &Term,
    p: &Term,
) -> Result<Bound, Memory>
    ensures { IfOk result (λ b. made (bind binder x.now (shape.union (plain_term s.now) (plain_term t.now)) (plain_term p.now)) ≡ Ok (plain_bound b)) }
{
    let set = two_of(alloc, Op::Set(SetOp::Union), s, t)?;
    let whole = bind_of(alloc, binder, x, &set, p)?;
    Ok(made(alloc, whole))
}

pub(crate) fn b6(alloc: Global, term: &Term) -> Result<Bound, RuleFault>
    ensures { Gives result (spec.b6 (plain_term term.now)) }
{
    match term {
        Term::Bind(Binder::All, x, u, p) => match as_union(u.get()) {
            Some((s, t)) => match split(
                alloc,
                Op::Logic(LogicOp::And),
                Binder::All,
                x,
                s,
                t,
                p.get(),
            ) {
                Ok(b) => Ok(b),
                Err(_) => Err(RuleFault::Memory),
            },
            None => Err(RuleFault::NoMatch),
        },
        _ => Err(RuleFault::NoMatch),
    }
}

fn all_and(alloc: Global, x: &Text, s: &Term, p: &Term, right: &Term) -> Result<Bound, RuleFault>
    ensures { Gives result (spec.both_all (shape.all x.now (plain_term s.now) (plain_term p.now)) (plain_term right.now)) }
{
    match right {
        Term::Bind(Binder::All, y, t, q) => if is_same(x, y) && same_term(p, q.get()) {
            match joined(alloc, Binder::All, x, s, t.get(), p) {
                Ok(b) => Ok(b),
                Err(_) => Err(RuleFault::Memory),
            }
        } else {
            Err(RuleFault::NoMatch)
        },
        _ => Err(RuleFault::NoMatch),
    }
}

fn both_all(alloc: Global, left: &Term, right: &Term) -> Result<Bound, RuleFault>
    ensures { Gives result (spec.both_all (plain_term left.now) (plain_term right.now)) }
{
    match left {
        Term::Bind(Binder::All, x, s, p) => all_and(alloc, x, s.get(), p.get(), right),
        _ => Err(RuleFault::NoMatch),
    }
}

pub(crate) fn b6_back(alloc: Global, term: &Term) -> Result<Bound, RuleFault>
    ensures { Gives result (spec.b6_back (plain_term term.now)) }
{
    match as_and(term) {
        Some((left, right)) => both_all(alloc, left, right),
        None => Err(RuleFault::NoMatch),
    }
}

pub(crate) fn b7(alloc: Global, term: &Term) -> Result<Bound, RuleFault>
    ensures { Gives result (spec.b7 (plain_term term.now)) }
{
    match term {
        Term::Bind(Binder::Some, x, u, p) => match as_union(u.get()) {
            Some((s, t)) => match split(
                alloc,
                Op::Logic(LogicOp::Or),
                Binder::Some,
                x,
                s,
                t,
                p.get(),
            ) {
                Ok(b) => Ok(b),
                Err(_) => Err(RuleFault::Memory),
            },
            None => Err(RuleFault::NoMatch),
        },
        _ => Err(RuleFault::NoMatch),
    }
}

fn some_or(alloc: Global, x: &Text, s: &Term, p: &Term, right: &Term) -> Result<Bound, RuleFault>
    ensures { Gives result (spec.both_some (shape.some x.now (plain_term s.now) (plain_term p.now)) (plain_term right.now)) }
{
    match right {
        Term::Bind(Binder::Some, y, t, q) => if is_same(x, y) && same_term(p, q.get()) {
            match joined(alloc, Binder::Some, x, s, t.get(), p) {
                Ok(b) => Ok(b),
                Err(_) => Err(RuleFault::Memory),
            }
        } else {
            Err(RuleFault::NoMatch)
        },
        _ => Err(RuleFault::NoMatch),
    }
}

fn both_some(alloc: Global, left: &Term, right: &Term) -> Result<Bound, RuleFault>
    ensures { Gives result (spec.both_some (plain_term left.now) (plain_term right.now)) }
{
    match left {
        Term::Bind(Binder::Some, x, s, p) => some_or(alloc, x, s.get(), p.get(), right),
        _ => Err(RuleFault::NoMatch),
    }
}

pub(crate) fn b7_back(alloc: Global, term: &Term) -> Result<Bound, RuleFault>
    ensures { Gives result (spec.b7_back (plain_term term.now)) }
{
    match as_or(term) {
        Some((left, right)) => both_some(alloc, left, right),
        None => Err(RuleFault::NoMatch),
    }
}

fn part_first(alloc: Global, x: &Text, t: &Term, s: &Term, p: &Term) -> Result<Bound, Memory>
    ensures { IfOk result (λ b. made_if (shape.subset (plain_term t.now) (plain_term s.now))
        (shape.conjunction (shape.all x.now (plain_term t.now) (plain_term p.now)) (shape.all x.now (plain_term s.now) (plain_term p.now))) ≡ Ok (plain_bound b)) }
{
    let part = bind_of(alloc, Binder::All, x, t, p)?;
    let whole = bind_of(alloc, Binder::All, x, s, p)?;
    let both = two(alloc, Op::Logic(LogicOp::And), part, whole)?;
    let condition = two_of(alloc, Op::Set(SetOp::Subset), t, s)?;
    made_if(alloc, condition, both)
}

pub(crate) fn b12(alloc: Global, arg: &Term, term: &Term) -> Result<Bound, RuleFault>
    ensures { Gives result (spec.b12 (plain_term arg.now) (plain_term term.now)) }
{
    match term {
        Term::Bind(Binder::All, x, s, p) => match part_first(alloc, x, arg, s.get(), p.get()) {
            Ok(b) => Ok(b),
            Err(_) => Err(RuleFault::Memory),
        },
        _ => Err(RuleFault::NoMatch),
    }
}

fn whole_again(alloc: Global, t: &Term, y: &Text, s: &Term, q: &Term) -> Result<Bound, Memory>
    ensures { IfOk result (λ b. made_if (shape.subset (plain_term t.now) (plain_term s.now)) (shape.all y.now (plain_term s.now) (plain_term q.now)) ≡ Ok (plain_bound b)) }
{
    let whole = bind_of(alloc, Binder::All, y, s, q)?;
    let condition = two_of(alloc, Op::Set(SetOp::Subset), t, s)?;
    made_if(alloc, condition, whole)
}

fn part_then(alloc: Global, x: &Text, s: &Term, p: &Term, right: &Term) -> Result<Bound, RuleFault>
    ensures { Gives result (spec.part_and_whole (shape.all x.now (plain_term s.now) (plain_term p.now)) (plain_term right.now)) }
{
    match right {
        Term::Bind(Binder::All, y, t, q) => if is_same(x, y) && same_term(p, q.get()) {
            match whole_again(alloc, s, y, t.get(), q.get()) {
                Ok(b) => Ok(b),
                Err(_) => Err(RuleFault::Memory),
            }
        } else {
            Err(RuleFault::NoMatch)
        },
        _ => Err(RuleFault::NoMatch),
    }
}

fn part_and_whole(alloc: Global, left: &Term, right: &Term) -> Result<Bound, RuleFault>
    ensures { Gives result (spec.part_and_whole (plain_term left.now) (plain_term right.now)) }
{
    match left {
        Term::Bind(Binder::All, x, s, p) => part_then(alloc, x, s.get(), p.get(), right),
        _ => Err(RuleFault::NoMatch),
    }
}

pub(crate) fn b12_back(alloc: Global, term: &Term) -> Result<Bound, RuleFault>
    ensures { Gives result (spec.b12_back (plain_term term.now)) }
{
    match as_and(term) {
        Some((left, right)) => part_and_whole(alloc, left, right),
        None => Err(RuleFault::NoMatch),
    }
}
