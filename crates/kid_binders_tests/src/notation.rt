//! Terms from short texts, and what a rule makes of them. A character is a head, and what it takes follows it:
//!
//! - a small letter: a name; a digit: a number; `T` and `F`: the truth values; `'x`: the tag of that name;
//! - `E`: `(set)`; `{a`: `(set a)`; `|ab`: `(union a b)`; `^ab`: `(with a b)`; `~ab`: `(in a b)`; `%ab`: `(subset a b)`;
//! - `!a`: `(not a)`; `&ab`: `(and a b)`; `/ab`: `(or a b)`; `>ab`: `(implies a b)`; `=ab`: `(eq a b)`;
//! - `<ab`: `(le a b)`; `+ab`: `(add a b)`;
//! - `Axsb`, `Sxsb`, `Oxsb`, `Ixsb`, `Uxsb`: the binders all, some, setof, image and sumof of `x` over `s` with the body `b`.
//!
//! `None` is want of memory, or a text that is no term.
use kid_binders::{Bound, RuleFault, apply};
use kid_term::{Binder, BoxedTerm, Head, Literal, LogicOp, NumberOp, Op, SetOp, Term, Terms, same};
use kid_value::Text;
use std::alloc::Global;

pub type Applied = Result<Bound, RuleFault>;

fn name(alloc: Global, letter: u8) -> Option<Term> {
    let name = Text::from_slice(alloc, &[letter]).ok()?;
    Some(Term::Var(name))
}

fn number(digit: u8) -> Option<Term> {
    if digit.is_ascii_digit() {
        Some(Term::Lit(Literal::Int(i64::from(digit - b'0'))))
    } else {
        None
    }
}

fn name_of(term: Option<Term>) -> Option<Text> {
    match term {
        Some(Term::Var(name)) => Some(name),
        _ => None,
    }
}

fn tag(name: Option<Text>) -> Option<Term> {
    Some(Term::Lit(Literal::Tag(name?)))
}

// so many terms off the top of the pile, the topmost first
fn taken(alloc: Global, pile: &mut Vec<Term>, count: usize) -> Option<Terms> {
    let mut terms = Terms::new(alloc);
    for _ in 0..count {
        terms.push(pile.pop()?).ok()?;
    }
    Some(terms)
}

fn operated(op: Op, args: Option<Terms>) -> Option<Term> {
    Some(Term::App(Head::Op(op), args?))
}

fn boxed(alloc: Global, term: Option<Term>) -> Option<BoxedTerm> {
    BoxedTerm::new(alloc, term?).ok()
}

fn binder_of(
    binder: Binder,
    name: Option<Text>,
    set: Option<BoxedTerm>,
    body: Option<BoxedTerm>,
) -> Option<Term> {
    match (name, set, body) {
        (Some(name), Some(set), Some(body)) => Some(Term::Bind(binder, name, set, body)),
        _ => None,
    }
}

fn operation(alloc: Global, pile: &mut Vec<Term>, op: Op, count: usize) -> Option<Term> {
    operated(op, taken(alloc, pile, count))
}

fn logic(alloc: Global, pile: &mut Vec<Term>, op: LogicOp) -> Option<Term> {
    operation(alloc, pile, Op::Logic(op), 2)
}

fn of_sets(alloc: Global, pile: &mut Vec<Term>, op: SetOp, count: usize) -> Option<Term> {
    operation(alloc, pile, Op::Set(op), count)
}

fn binding(alloc: Global, pile: &mut Vec<Term>, binder: Binder) -> Option<Term> {
    let name = name_of(pile.pop());
    let set = boxed(alloc, pile.pop());
    binder_of(binder, name, set, boxed(alloc, pile.pop()))
}

// an operator on truth values or on numbers, or a number
fn composed(alloc: Global, pile: &mut Vec<Term>, head: u8) -> Option<Term> {
    match head {
        b'!' => operation(alloc, pile, Op::Logic(LogicOp::Not), 1),
        b'&' => logic(alloc, pile, LogicOp::And),
        b'/' => logic(alloc, pile, LogicOp::Or),
        b'>' => logic(alloc, pile, LogicOp::Implies),
        b'=' => logic(alloc, pile, LogicOp::Eq),
        b'<' => operation(alloc, pile, Op::Number(NumberOp::Le), 2),
        b'+' => operation(alloc, pile, Op::Number(NumberOp::Add), 2),
        digit => number(digit),
    }
}

fn headed(alloc: Global, pile: &mut Vec<Term>, head: u8) -> Option<Term> {
    match head {
        b'\'' => tag(name_of(pile.pop())),
        b'E' => of_sets(alloc, pile, SetOp::Set, 0),
        b'{' => of_sets(alloc, pile, SetOp::Set, 1),
        b'|' => of_sets(alloc, pile, SetOp::Union, 2),
        b'^' => of_sets(alloc, pile, SetOp::With, 2),
        b'~' => of_sets(alloc, pile, SetOp::In, 2),
        b'%' => of_sets(alloc, pile, SetOp::Subset, 2),
        b'A' => binding(alloc, pile, Binder::All),
        b'S' => binding(alloc, pile, Binder::Some),
        b'O' => binding(alloc, pile, Binder::SetOf),
        b'I' => binding(alloc, pile, Binder::Image),
        b'U' => binding(alloc, pile, Binder::SumOf),
        head => composed(alloc, pile, head),
    }
}

fn read(alloc: Global, pile: &mut Vec<Term>, head: u8) -> Option<Term> {
    match head {
        b'T' => Some(Term::Lit(Literal::Bool(true))),
        b'F' => Some(Term::Lit(Literal::Bool(false))),
        _ => if head.is_ascii_lowercase() {
            name(alloc, head)
        } else {
            headed(alloc, pile, head)
        },
    }
}

fn put(alloc: Global, pile: &mut Vec<Term>, head: u8) -> Option<()> {
    let term = read(alloc, pile, head)?;
    pile.push(term).ok()
}

// the terms that the text spells one behind the other, the first on top
fn piled(alloc: Global, text: &str) -> Option<Vec<Term>> {
    let mut pile = Vec::new(alloc);
    for head in text.as_bytes().iter().rev() {
        put(alloc, &mut pile, *head)?;
    }
    Some(pile)
}

fn last_of(pile: Option<Vec<Term>>) -> Option<Term> {
    let mut pile = pile?;
    let term = pile.pop();
    if pile.is_empty() { term } else { None }
}

fn all_of(alloc: Global, pile: Option<Vec<Term>>) -> Option<Terms> {
    let mut pile = pile?;
    let count = pile.len();
    taken(alloc, &mut pile, count)
}

fn by_rule(
    alloc: Global,
    rule: u8,
    back: bool,
    term: Option<Term>,
    args: Option<Terms>,
) -> Option<Applied> {
    match (term, args) {
        (Some(term), Some(args)) => Some(apply(alloc, rule, back, &term, &args)),
        _ => None,
    }
}

/// What the rule makes of the term that the text spells, with the arguments that the other spells.
pub fn ruled(alloc: Global, rule: u8, back: bool, term: &str, args: &str) -> Option<Applied> {
    let term = last_of(piled(alloc, term));
    by_rule(alloc, rule, back, term, all_of(alloc, piled(alloc, args)))
}

/// Whether the text spells the term.
pub fn is_spelled(alloc: Global, found: &Term, want: &str) -> bool {
    match last_of(piled(alloc, want)) {
        Some(want) => same(found, &want),
        None => false,
    }
}
