//! A binder and what its body is: both of two, a denial, or another binder: b8, b9 and b10.
ghost use Rattle.std.specs.Prelude.{◌≡◌, IfOk, Ok};
ghost use Rattle.kid_term.specs.TermView.{plain_term};
ghost use Rattle.kid_binders.specs.Shapes as shape;
ghost use Rattle.kid_binders.specs.Outcome.{Gives, made, plain_bound};
ghost use Rattle.kid_binders.specs.Bodies as spec;

use crate::bound::{Bound, RuleFault};
use crate::build::{bind_body, bind_of, made, one, two, two_of};
use crate::shape::{as_and, as_not, same_term};
use kid_term::substitute::is_same;
use kid_term::{Binder, LogicOp, Op, Term};
use kid_value::{Memory, Text};
use std::alloc::Global;

// all over one set, of each of two
fn over_both(alloc: Global, x: &Text, s: &Term, p: &Term, q: &Term) -> Result<Bound, Memory>
    ensures { IfOk result (λ b. made (shape.conjunction (shape.all x.now (plain_term s.now) (plain_term p.now)) (shape.all x.now (plain_term s.now) (plain_term q.now)))
        ≡ Ok (plain_bound b)) }
{
    let left = bind_of(alloc, Binder::All, x, s, p)?;
    let right = bind_of(alloc, Binder::All, x, s, q)?;
    let whole = two(alloc, Op::Logic(LogicOp::And), left, right)?;
    Ok(made(alloc, whole))
}

pub(crate) fn b8(alloc: Global, term: &Term) -> Result<Bound, RuleFault>
    ensures { Gives result (spec.b8 (plain_term term.now)) }
{
    match term {
        Term::Bind(Binder::All, x, s, r) => match as_and(r.get()) {
            Some((p, q)) => match over_both(alloc, x, s.get(), p, q) {
                Ok(b) => Ok(b),
                Err(_) => Err(RuleFault::Memory),
            },
            None => Err(RuleFault::NoMatch),
        },
        _ => Err(RuleFault::NoMatch),
    }
}

// all over one set, of two at once
fn of_both(alloc: Global, x: &Text, s: &Term, p: &Term, q: &Term) -> Result<Bound, Memory>
    ensures { IfOk result (λ b. made (shape.all x.now (plain_term s.now) (shape.conjunction (plain_term p.now) (plain_term q.now))) ≡ Ok (plain_bound b)) }
{
    let body = two_of(alloc, Op::Logic(LogicOp::And), p, q)?;
    let whole = bind_body(alloc, Binder::All, x, s, body)?;
    Ok(made(alloc, whole))
}

fn all_both(alloc: Global, x: &Text, s: &Term, p: &Term, right: &Term) -> Result<Bound, RuleFault>
    ensures { Gives result (spec.over_one (shape.all x.now (plain_term s.now) (plain_term p.now)) (plain_term right.now)) }
{
    match right {
        Term::Bind(Binder::All, y, t, q) => if is_same(x, y) && same_term(s, t.get()) {
            match of_both(alloc, x, s, p, q.get()) {
                Ok(b) => Ok(b),
                Err(_) => Err(RuleFault::Memory),
            }
        } else {
            Err(RuleFault::NoMatch)
        },
        _ => Err(RuleFault::NoMatch),
    }
}

fn over_one(alloc: Global, left: &Term, right: &Term) -> Result<Bound, RuleFault>
    ensures { Gives result (spec.over_one (plain_term left.now) (plain_term right.now)) }
{
    match left {
        Term::Bind(Binder::All, x, s, p) => all_both(alloc, x, s.get(), p.get(), right),
        _ => Err(RuleFault::NoMatch),
    }
}

pub(crate) fn b8_back(alloc: Global, term: &Term) -> Result<Bound, RuleFault>
    ensures { Gives result (spec.b8_back (plain_term term.now)) }
{
    match as_and(term) {
        Some((left, right)) => over_one(alloc, left, right),
        None => Err(RuleFault::NoMatch),
    }
}

fn denied(alloc: Global, x: &Text, s: &Term, p: &Term) -> Result<Bound, Memory>
    ensures { IfOk result (λ b. made (shape.negated (shape.all x.now (plain_term s.now) (shape.negated (plain_term p.now)))) ≡ Ok (plain_bound b)) }
{
    let body = p.copy(alloc)?;
    let body = one(alloc, Op::Logic(LogicOp::Not), body)?;
    let none = bind_body(alloc, Binder::All, x, s, body)?;
    let whole = one(alloc, Op::Logic(LogicOp::Not), none)?;
    Ok(made(alloc, whole))
}

pub(crate) fn b9(alloc: Global, term: &Term) -> Result<Bound, RuleFault>
    ensures { Gives result (spec.b9 (plain_term term.now)) }
{
    match term {
        Term::Bind(Binder::Some, x, s, p) => match denied(alloc, x, s.get(), p.get()) {
            Ok(b) => Ok(b),
            Err(_) => Err(RuleFault::Memory),
        },
        _ => Err(RuleFault::NoMatch),
    }
}

fn some_of(alloc: Global, x: &Text, s: &Term, p: &Term) -> Result<Bound, Memory>
    ensures { IfOk result (λ b. made (shape.some x.now (plain_term s.now) (plain_term p.now)) ≡ Ok (plain_bound b)) }
{
    let whole = bind_of(alloc, Binder::Some, x, s, p)?;
    Ok(made(alloc, whole))
}

fn none_not(alloc: Global, term: &Term) -> Result<Bound, RuleFault>
    ensures { Gives result (spec.none_not (plain_term term.now)) }
{
    match term {
        Term::Bind(Binder::All, x, s, r) => match as_not(r.get()) {
            Some(p) => match some_of(alloc, x, s.get(), p) {
                Ok(b) => Ok(b),
                Err(_) => Err(RuleFault::Memory),
            },
            None => Err(RuleFault::NoMatch),
        },
        _ => Err(RuleFault::NoMatch),
    }
}

pub(crate) fn b9_back(alloc: Global, term: &Term) -> Result<Bound, RuleFault>
    ensures { Gives result (spec.b9_back (plain_term term.now)) }
{
    match as_not(term) {
        Some(inner) => none_not(alloc, inner),
        None => Err(RuleFault::NoMatch),
    }
}

// all over one set, of all over another
fn nested(alloc: Global, x: &Text, s: &Term, y: &Text, t: &Term, p: &Term) -> Result<Bound, Memory>
    ensures { IfOk result (λ b. made (shape.all x.now (plain_term s.now) (shape.all y.now (plain_term t.now) (plain_term p.now))) ≡ Ok (plain_bound b)) }
{
    let body = bind_of(alloc, Binder::All, y, t, p)?;
    let whole = bind_body(alloc, Binder::All, x, s, body)?;
    Ok(made(alloc, whole))
}

fn swapped(alloc: Global, x: &Text, s: &Term, body: &Term) -> Result<Bound, RuleFault>
    ensures { Gives result (spec.swapped x.now (plain_term s.now) (plain_term body.now)) }
{
    match body {
        Term::Bind(Binder::All, y, t, p) => if t.get().mentions(x) {
            Err(RuleFault::Capture)
        } else {
            match nested(alloc, y, t.get(), x, s, p.get()) {
                Ok(b) => Ok(b),
                Err(_) => Err(RuleFault::Memory),
            }
        },
        _ => Err(RuleFault::NoMatch),
    }
}

fn swapped_back(alloc: Global, y: &Text, t: &Term, body: &Term) -> Result<Bound, RuleFault>
    ensures { Gives result (spec.swapped_back y.now (plain_term t.now) (plain_term body.now)) }
{
    match body {
        Term::Bind(Binder::All, x, s, p) => if t.mentions(x) {
            Err(RuleFault::Capture)
        } else {
            match nested(alloc, x, s.get(), y, t, p.get()) {
                Ok(b) => Ok(b),
                Err(_) => Err(RuleFault::Memory),
            }
        },
        _ => Err(RuleFault::NoMatch),
    }
}

pub(crate) fn b10(alloc: Global, term: &Term) -> Result<Bound, RuleFault>
    ensures { Gives result (spec.b10 (plain_term term.now)) }
{
    match term {
        Term::Bind(Binder::All, x, s, body) => swapped(alloc, x, s.get(), body.get()),
        _ => Err(RuleFault::NoMatch),
    }
}

pub(crate) fn b10_back(alloc: Global, term: &Term) -> Result<Bound, RuleFault>
    ensures { Gives result (spec.b10_back (plain_term term.now)) }
{
    match term {
        Term::Bind(Binder::All, x, s, body) => swapped_back(alloc, x, s.get(), body.get()),
        _ => Err(RuleFault::NoMatch),
    }
}
