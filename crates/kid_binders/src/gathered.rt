//! Sets of the members that pass, and of the values that a term has: b13, b14 and b17.
ghost use Rattle.std.specs.Prelude.{◌≡◌, IfOk, Ok};
ghost use Rattle.kid_term.specs.PlainTerm.{var};
ghost use Rattle.kid_term.specs.TermView.{plain_term};
ghost use Rattle.kid_binders.specs.Shapes as shape;
ghost use Rattle.kid_binders.specs.Outcome.{Gives, made, plain_bound, with_put};
ghost use Rattle.kid_binders.specs.Gathered as spec;

use crate::bound::{Bound, RuleFault};
use crate::build::{bind_body, bind_of, made, two, two_of};
use crate::shape::{as_equation, as_member};
use kid_term::substitute::is_same;
use kid_term::{Binder, LogicOp, Op, SetOp, Term};
use kid_value::{Memory, Text};
use std::alloc::Global;

fn member_and(alloc: Global, y: &Term, s: &Term, q: Term) -> Result<Bound, Memory>
    ensures { IfOk result (λ b. made (shape.conjunction (shape.member (plain_term y.now) (plain_term s.now)) (plain_term q)) ≡ Ok (plain_bound b)) }
{
    let there = two_of(alloc, Op::Set(SetOp::In), y, s)?;
    let both = two(alloc, Op::Logic(LogicOp::And), there, q)?;
    Ok(made(alloc, both))
}

fn b13_of(alloc: Global, x: &Text, y: &Term, s: &Term, p: &Term) -> Result<Bound, RuleFault>
    ensures { Gives result (with_put x.now (plain_term y.now) (plain_term p.now) (λ q. made (shape.conjunction (shape.member (plain_term y.now) (plain_term s.now)) q))) }
{
    if p.captures(x, y) {
        return Err(RuleFault::Capture);
    }
    match p.substitute(alloc, x, y) {
        Ok(q) => match member_and(alloc, y, s, q) {
            Ok(b) => Ok(b),
            Err(_) => Err(RuleFault::Memory),
        },
        Err(_) => Err(RuleFault::Memory),
    }
}

fn in_setof(alloc: Global, y: &Term, set: &Term) -> Result<Bound, RuleFault>
    ensures { Gives result (spec.in_setof (plain_term y.now) (plain_term set.now)) }
{
    match set {
        Term::Bind(Binder::SetOf, x, s, p) => b13_of(alloc, x, y, s.get(), p.get()),
        _ => Err(RuleFault::NoMatch),
    }
}

pub(crate) fn b13(alloc: Global, term: &Term) -> Result<Bound, RuleFault>
    ensures { Gives result (spec.b13 (plain_term term.now)) }
{
    match as_member(term) {
        Some((y, set)) => in_setof(alloc, y, set),
        None => Err(RuleFault::NoMatch),
    }
}

fn all_implied(alloc: Global, x: &Text, s: &Term, r: Term, p: &Term) -> Result<Bound, Memory>
    ensures { IfOk result (λ b. made (shape.all x.now (plain_term s.now) (shape.implication (plain_term r) (plain_term p.now))) ≡ Ok (plain_bound b)) }
{
    let right = p.copy(alloc)?;
    let body = two(alloc, Op::Logic(LogicOp::Implies), r, right)?;
    let whole = bind_body(alloc, Binder::All, x, s, body)?;
    Ok(made(alloc, whole))
}

fn b14_to(
    alloc: Global,
    x: &Text,
    y: &Text,
    s: &Term,
    q: &Term,
    p: &Term,
    to: &Term,
) -> Result<Bound, RuleFault>
    ensures { Gives result (with_put y.now (plain_term to.now) (plain_term q.now)
        (λ r. made (shape.all x.now (plain_term s.now) (shape.implication r (plain_term p.now))))) }
{
    if q.captures(y, to) {
        return Err(RuleFault::Capture);
    }
    match q.substitute(alloc, y, to) {
        Ok(r) => match all_implied(alloc, x, s, r, p) {
            Ok(b) => Ok(b),
            Err(_) => Err(RuleFault::Memory),
        },
        Err(_) => Err(RuleFault::Memory),
    }
}

#[tactic(auto, using(crate::proofs::ShapeLemmas::implied_instance))]
fn b14_of(
    alloc: Global,
    x: &Text,
    y: &Text,
    s: &Term,
    q: &Term,
    p: &Term,
) -> Result<Bound, RuleFault>
    ensures { Gives result (with_put y.now (var x.now) (plain_term q.now)
        (λ r. made (shape.all x.now (plain_term s.now) (shape.implication r (plain_term p.now))))) }
{
    match x.copy(alloc) {
        Ok(name) => b14_to(alloc, x, y, s, q, p, &Term::Var(name)),
        Err(_) => Err(RuleFault::Memory),
    }
}

fn all_setof(alloc: Global, x: &Text, set: &Term, p: &Term) -> Result<Bound, RuleFault>
    ensures { Gives result (spec.all_setof x.now (plain_term set.now) (plain_term p.now)) }
{
    match set {
        Term::Bind(Binder::SetOf, y, s, q) => if q.get().mentions(x) && !is_same(x, y) {
            Err(RuleFault::Capture)
        } else {
            b14_of(alloc, x, y, s.get(), q.get(), p)
        },
        _ => Err(RuleFault::NoMatch),
    }
}

pub(crate) fn b14(alloc: Global, term: &Term) -> Result<Bound, RuleFault>
    ensures { Gives result (spec.b14 (plain_term term.now)) }
{
    match term {
        Term::Bind(Binder::All, x, set, p) => all_setof(alloc, x, set.get(), p.get()),
        _ => Err(RuleFault::NoMatch),
    }
}

fn some_equal(alloc: Global, x: &Text, s: &Term, y: &Term, e: &Term) -> Result<Bound, Memory>
    ensures { IfOk result (λ b. made (shape.some x.now (plain_term s.now) (shape.equation (plain_term y.now) (plain_term e.now))) ≡ Ok (plain_bound b)) }
{
    let body = two_of(alloc, Op::Logic(LogicOp::Eq), y, e)?;
    let whole = bind_body(alloc, Binder::Some, x, s, body)?;
    Ok(made(alloc, whole))
}

fn in_image(alloc: Global, y: &Term, set: &Term) -> Result<Bound, RuleFault>
    ensures { Gives result (spec.in_image (plain_term y.now) (plain_term set.now)) }
{
    match set {
        Term::Bind(Binder::Image, x, s, e) => if y.mentions(x) {
            Err(RuleFault::Capture)
        } else {
            match some_equal(alloc, x, s.get(), y, e.get()) {
                Ok(b) => Ok(b),
                Err(_) => Err(RuleFault::Memory),
            }
        },
        _ => Err(RuleFault::NoMatch),
    }
}

pub(crate) fn b17(alloc: Global, term: &Term) -> Result<Bound, RuleFault>
    ensures { Gives result (spec.b17 (plain_term term.now)) }
{
    match as_member(term) {
        Some((y, set)) => in_image(alloc, y, set),
        None => Err(RuleFault::NoMatch),
    }
}

fn in_the_image(alloc: Global, x: &Text, s: &Term, y: &Term, e: &Term) -> Result<Bound, Memory>
    ensures { IfOk result (λ b. made (shape.member (plain_term y.now) (shape.image x.now (plain_term s.now) (plain_term e.now))) ≡ Ok (plain_bound b)) }
{
    let image = bind_of(alloc, Binder::Image, x, s, e)?;
    let item = y.copy(alloc)?;
    let whole = two(alloc, Op::Set(SetOp::In), item, image)?;
    Ok(made(alloc, whole))
}

pub(crate) fn b17_back(alloc: Global, term: &Term) -> Result<Bound, RuleFault>
    ensures { Gives result (spec.b17_back (plain_term term.now)) }
{
    match term {
        Term::Bind(Binder::Some, x, s, q) => match as_equation(q.get()) {
            Some((y, e)) => if y.mentions(x) {
                Err(RuleFault::Capture)
            } else {
                match in_the_image(alloc, x, s.get(), y, e) {
                    Ok(b) => Ok(b),
                    Err(_) => Err(RuleFault::Memory),
                }
            },
            None => Err(RuleFault::NoMatch),
        },
        _ => Err(RuleFault::NoMatch),
    }
}
