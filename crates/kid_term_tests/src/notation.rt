//! Terms from short texts. A character is a head, and what it takes follows it:
//!
//! - `x` and each other small letter: a name, and `.xy` a name of two letters; `7` and each other digit: a number; `T` and `F`: the truth values; `'x`: the tag of
//!   that name; `E`: `(set)`;
//! - `,ab`: `(pair a b)`; `&ab`: `(set a b)`; `;ab`: `(seq a b)`; `M`: `(map)`; `=abc`: `(put a b c)`;
//! - `!a`: `(not a)`; `#a`: `(wcard a)`; `<ab`: `(le a b)`; `+ab`: `(add a b)`; `?abc`: `(if a b c)`;
//! - `@fa`: the call `(f a)`; `$fab`: `(f a b)`; `:9a`: the cast of `a` to `(int 0 9)`;
//! - `Axsb`, `Sxsb`, `Oxsb`, `Ixsb`, `Uxsb`: the binders all, some, setof, image and sumof of `x` over `s` with the body `b`;
//! - `Da` and `Qa`: `a` below 1000 and below 250 negations; `Lxa`: the sequence of 1000 times `x` and then `a`.
//!
//! `None` is want of memory, or a text that is no term.
ghost use Rattle.std.specs.Prelude.{◌≡◌, true};
ghost use Rattle.kid_term.specs.TermView.{plain_term};

use kid_term::{
    Binder, BoxedTerm, Head, Literal, LogicOp, MapOp, NumberOp, Op, PairOp, SeqOp, SetOp, Term,
    Terms, WordOp, same,
};
use kid_value::{Sort, Text};
use std::alloc::Global;

const MANY: u32 = 1000;

// All terms of a row stand in one list, and what is made of them is put there too: a list is dropped by one call, where a term opens
// all its forms.

/// Whether the terms are equal.
pub fn is(found: &Term, want: &Term) -> bool
    ensures { result ≡ true → plain_term found.now ≡ plain_term want.now }
{
    same(found, want)
}

fn name(alloc: Global, letter: u8) -> Option<Term> {
    let name = Text::from_slice(alloc, &[letter]).ok()?;
    Some(Term::Var(name))
}

fn number(digit: u8) -> Option<Term> {
    if digit.is_ascii_digit() {
        Some(Term::Lit(Literal::Int(i64::from(digit - b'0'))))
    } else {
        None
    }
}

pub fn name_of(term: Option<Term>) -> Option<Text> {
    match term {
        Some(Term::Var(name)) => Some(name),
        _ => None,
    }
}

fn called(name: Option<Text>) -> Option<Head> {
    Some(Head::Call(name?))
}

fn number_of(term: &Option<Term>) -> Option<i64> {
    match term {
        Some(Term::Lit(Literal::Int(n))) => Some(*n),
        _ => None,
    }
}

fn cast(greatest: &Option<Term>) -> Option<Head> {
    let hi = number_of(greatest)?;
    Some(Head::Cast(Sort::Int { lo: 0, hi }))
}

// so many terms off the top of the pile, the topmost first
fn taken(alloc: Global, pile: &mut Vec<Term>, count: u32) -> Option<Terms> {
    let mut terms = Terms::new(alloc);
    for _ in 0..count {
        terms.push(pile.pop()?).ok()?;
    }
    Some(terms)
}

fn applied(head: Option<Head>, args: Option<Terms>) -> Option<Term> {
    match (head, args) {
        (Some(head), Some(args)) => Some(Term::App(head, args)),
        _ => None,
    }
}

fn boxed(alloc: Global, term: Option<Term>) -> Option<BoxedTerm> {
    BoxedTerm::new(alloc, term?).ok()
}

fn bound(
    binder: Binder,
    name: Option<Text>,
    set: Option<BoxedTerm>,
    body: Option<BoxedTerm>,
) -> Option<Term> {
    match (name, set, body) {
        (Some(name), Some(set), Some(body)) => Some(Term::Bind(binder, name, set, body)),
        _ => None,
    }
}

fn operation(alloc: Global, pile: &mut Vec<Term>, op: Op, count: u32) -> Option<Term> {
    applied(Some(Head::Op(op)), taken(alloc, pile, count))
}

fn call(alloc: Global, pile: &mut Vec<Term>, count: u32) -> Option<Term> {
    let head = called(name_of(pile.pop()));
    applied(head, taken(alloc, pile, count))
}

fn casting(alloc: Global, pile: &mut Vec<Term>) -> Option<Term> {
    let head = cast(&pile.pop());
    applied(head, taken(alloc, pile, 1))
}

fn binding(alloc: Global, pile: &mut Vec<Term>, binder: Binder) -> Option<Term> {
    let name = name_of(pile.pop());
    let set = boxed(alloc, pile.pop());
    bound(binder, name, set, boxed(alloc, pile.pop()))
}

fn joined(first: Option<Text>, second: Option<Text>) -> Option<Text> {
    let mut name = first?;
    for byte in second?.as_slice() {
        name.push(*byte).ok()?;
    }
    Some(name)
}

fn long_name(pile: &mut Vec<Term>) -> Option<Term> {
    let first = name_of(pile.pop());
    let name = joined(first, name_of(pile.pop()))?;
    Some(Term::Var(name))
}

fn tag(name: Option<Text>) -> Option<Term> {
    Some(Term::Lit(Literal::Tag(name?)))
}

pub fn put_term(pile: &mut Vec<Term>, term: Term) -> Option<()> {
    pile.push(term).ok()
}

pub fn push(pile: &mut Vec<Term>, term: Option<Term>) -> Option<()> {
    match term {
        Some(term) => put_term(pile, term),
        None => None,
    }
}

// the topmost below so many negations
fn deep(alloc: Global, pile: &mut Vec<Term>, count: u32) -> Option<Term> {
    for _ in 0..count {
        let negation = operation(alloc, pile, Op::Logic(LogicOp::Not), 1);
        push(pile, negation)?;
    }
    pile.pop()
}

fn again(alloc: Global, name: &Text) -> Option<Term> {
    Some(Term::Var(name.copy(alloc).ok()?))
}

// many times the name, and then what is topmost
fn long(alloc: Global, pile: &mut Vec<Term>, name: Option<Text>) -> Option<Term> {
    let name = name?;
    for _ in 0..MANY {
        push(pile, again(alloc, &name))?;
    }
    operation(alloc, pile, Op::Seq(SeqOp::Seq), MANY + 1)
}

// what has many parts, or a number
fn large(alloc: Global, pile: &mut Vec<Term>, head: u8) -> Option<Term> {
    match head {
        b'D' => deep(alloc, pile, MANY),
        b'Q' => deep(alloc, pile, 250),
        b'L' => {
            let name = name_of(pile.pop());
            long(alloc, pile, name)
        }
        b'.' => long_name(pile),
        digit => number(digit),
    }
}

// what makes a value of its parts
fn composed(alloc: Global, pile: &mut Vec<Term>, head: u8) -> Option<Term> {
    match head {
        b'\'' => tag(name_of(pile.pop())),
        b',' => operation(alloc, pile, Op::Pair(PairOp::Pair), 2),
        b'&' => operation(alloc, pile, Op::Set(SetOp::Set), 2),
        b';' => operation(alloc, pile, Op::Seq(SeqOp::Seq), 2),
        b'M' => operation(alloc, pile, Op::Map(MapOp::Map), 0),
        b'=' => operation(alloc, pile, Op::Map(MapOp::Put), 3),
        head => large(alloc, pile, head),
    }
}

fn binder(alloc: Global, pile: &mut Vec<Term>, head: u8) -> Option<Term> {
    match head {
        b'A' => binding(alloc, pile, Binder::All),
        b'S' => binding(alloc, pile, Binder::Some),
        b'O' => binding(alloc, pile, Binder::SetOf),
        b'I' => binding(alloc, pile, Binder::Image),
        b'U' => binding(alloc, pile, Binder::SumOf),
        head => composed(alloc, pile, head),
    }
}

fn headed(alloc: Global, pile: &mut Vec<Term>, head: u8) -> Option<Term> {
    match head {
        b'E' => operation(alloc, pile, Op::Set(SetOp::Set), 0),
        b'!' => operation(alloc, pile, Op::Logic(LogicOp::Not), 1),
        b'#' => operation(alloc, pile, Op::Word(WordOp::Wcard), 1),
        b'<' => operation(alloc, pile, Op::Number(NumberOp::Le), 2),
        b'+' => operation(alloc, pile, Op::Number(NumberOp::Add), 2),
        b'?' => operation(alloc, pile, Op::Logic(LogicOp::If), 3),
        b'@' => call(alloc, pile, 1),
        b'$' => call(alloc, pile, 2),
        b':' => casting(alloc, pile),
        head => binder(alloc, pile, head),
    }
}

fn read(alloc: Global, pile: &mut Vec<Term>, head: u8) -> Option<Term> {
    match head {
        b'T' => Some(Term::Lit(Literal::Bool(true))),
        b'F' => Some(Term::Lit(Literal::Bool(false))),
        b'a'..=b'z' => name(alloc, head),
        _ => headed(alloc, pile, head),
    }
}

fn put(alloc: Global, pile: &mut Vec<Term>, head: u8) -> Option<()> {
    if head == b' ' {
        return Some(());
    }
    let term = read(alloc, pile, head);
    push(pile, term)
}

/// The terms that the text spells, the last one first.
pub fn terms(alloc: Global, text: &str) -> Option<Vec<Term>> {
    let mut pile = Vec::new(alloc);
    for head in text.as_bytes().iter().rev() {
        put(alloc, &mut pile, *head)?;
    }
    Some(pile)
}

/// Whether the last term is as the first.
pub fn are_alike(terms: &[Term]) -> bool {
    match terms {
        [want, .., made] => is(made, want),
        _ => false,
    }
}
