//! The body at a member in the name's place: b4, b5, b16 and b18.
ghost use Rattle.std.specs.Prelude.{◌≡◌, IfOk, Ok};
ghost use Rattle.kid_term.specs.TermView.{plain_term};
ghost use Rattle.kid_binders.specs.Shapes as shape;
ghost use Rattle.kid_binders.specs.Outcome.{Gives, made, made_if, plain_bound, with_put};
ghost use Rattle.kid_binders.specs.Instances as spec;

use crate::bound::{Bound, RuleFault};
use crate::build::{bind_of, made, made_if, one, two, two_of};
use crate::shape::{as_single, as_with};
use kid_term::{Binder, LogicOp, NumberOp, Op, SetOp, Term};
use kid_value::{Memory, Text};
use std::alloc::Global;

// a term in a name's place
fn put_in(alloc: Global, x: &Text, t: &Term, p: &Term) -> Result<Bound, RuleFault>
    ensures { Gives result (with_put x.now (plain_term t.now) (plain_term p.now) made) }
{
    if p.captures(x, t) {
        return Err(RuleFault::Capture);
    }
    match p.substitute(alloc, x, t) {
        Ok(q) => Ok(made(alloc, q)),
        Err(_) => Err(RuleFault::Memory),
    }
}

pub(crate) fn b4(alloc: Global, term: &Term) -> Result<Bound, RuleFault>
    ensures { Gives result (spec.b4 (plain_term term.now)) }
{
    match term {
        Term::Bind(Binder::All, x, s, p) => match as_single(s.get()) {
            Some(t) => put_in(alloc, x, t, p.get()),
            None => Err(RuleFault::NoMatch),
        },
        _ => Err(RuleFault::NoMatch),
    }
}

pub(crate) fn b5(alloc: Global, term: &Term) -> Result<Bound, RuleFault>
    ensures { Gives result (spec.b5 (plain_term term.now)) }
{
    match term {
        Term::Bind(Binder::Some, x, s, p) => match as_single(s.get()) {
            Some(t) => put_in(alloc, x, t, p.get()),
            None => Err(RuleFault::NoMatch),
        },
        _ => Err(RuleFault::NoMatch),
    }
}

// the sum without a member, and what it adds
fn taken_out(
    alloc: Global,
    x: &Text,
    t: &Term,
    s: &Term,
    a: &Term,
    c: Term,
) -> Result<Bound, Memory>
    ensures { IfOk result (λ b. made_if (shape.negated (shape.member (plain_term t.now) (plain_term s.now)))
        (shape.sum_of (shape.sumof x.now (plain_term s.now) (plain_term a.now)) (plain_term c)) ≡ Ok (plain_bound b)) }
{
    let rest = bind_of(alloc, Binder::SumOf, x, s, a)?;
    let sum = two(alloc, Op::Number(NumberOp::Add), rest, c)?;
    let there = two_of(alloc, Op::Set(SetOp::In), t, s)?;
    let condition = one(alloc, Op::Logic(LogicOp::Not), there)?;
    made_if(alloc, condition, sum)
}

fn b16_of(alloc: Global, x: &Text, t: &Term, s: &Term, a: &Term) -> Result<Bound, RuleFault>
    ensures { Gives result (with_put x.now (plain_term t.now) (plain_term a.now)
        (λ c. made_if (shape.negated (shape.member (plain_term t.now) (plain_term s.now))) (shape.sum_of (shape.sumof x.now (plain_term s.now) (plain_term a.now)) c))) }
{
    if a.captures(x, t) {
        return Err(RuleFault::Capture);
    }
    match a.substitute(alloc, x, t) {
        Ok(c) => match taken_out(alloc, x, t, s, a, c) {
            Ok(b) => Ok(b),
            Err(_) => Err(RuleFault::Memory),
        },
        Err(_) => Err(RuleFault::Memory),
    }
}

pub(crate) fn b16(alloc: Global, term: &Term) -> Result<Bound, RuleFault>
    ensures { Gives result (spec.b16 (plain_term term.now)) }
{
    match term {
        Term::Bind(Binder::SumOf, x, u, a) => match as_with(u.get()) {
            Some((t, s)) => b16_of(alloc, x, t, s, a.get()),
            None => Err(RuleFault::NoMatch),
        },
        _ => Err(RuleFault::NoMatch),
    }
}

fn member_first(
    alloc: Global,
    x: &Text,
    t: &Term,
    s: &Term,
    p: &Term,
    q: Term,
) -> Result<Bound, Memory>
    ensures { IfOk result (λ b. made_if (shape.member (plain_term t.now) (plain_term s.now))
        (shape.conjunction (plain_term q) (shape.all x.now (plain_term s.now) (plain_term p.now))) ≡ Ok (plain_bound b)) }
{
    let whole = bind_of(alloc, Binder::All, x, s, p)?;
    let both = two(alloc, Op::Logic(LogicOp::And), q, whole)?;
    let condition = two_of(alloc, Op::Set(SetOp::In), t, s)?;
    made_if(alloc, condition, both)
}

fn b18_of(alloc: Global, x: &Text, t: &Term, s: &Term, p: &Term) -> Result<Bound, RuleFault>
    ensures { Gives result (with_put x.now (plain_term t.now) (plain_term p.now)
        (λ q. made_if (shape.member (plain_term t.now) (plain_term s.now)) (shape.conjunction q (shape.all x.now (plain_term s.now) (plain_term p.now))))) }
{
    if p.captures(x, t) {
        return Err(RuleFault::Capture);
    }
    match p.substitute(alloc, x, t) {
        Ok(q) => match member_first(alloc, x, t, s, p, q) {
            Ok(b) => Ok(b),
            Err(_) => Err(RuleFault::Memory),
        },
        Err(_) => Err(RuleFault::Memory),
    }
}

pub(crate) fn b18(alloc: Global, arg: &Term, term: &Term) -> Result<Bound, RuleFault>
    ensures { Gives result (spec.b18 (plain_term arg.now) (plain_term term.now)) }
{
    match term {
        Term::Bind(Binder::All, x, s, p) => b18_of(alloc, x, arg, s.get(), p.get()),
        _ => Err(RuleFault::NoMatch),
    }
}
