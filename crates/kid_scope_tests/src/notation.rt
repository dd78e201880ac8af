//! Terms from short texts. A character is a head, and what it takes follows it:
//!
//! - a small letter: a name; a digit: a number; `T` and `F`: the truth values;
//! - `!a`: `(not a)`; `&ab`: `(and a b)`; `>ab`: `(implies a b)`; `=ab`: `(eq a b)`; `?abc`: `(if a b c)`;
//! - `<ab`: `(lt a b)`; `+ab`: `(add a b)`; `~ab`: `(in a b)`; `@fa`: the definition f at a;
//! - `Axsb`: `(all x s b)`.
//!
//! `None` is want of memory, or a text that is no term.
use kid_scope::Instance;
use kid_term::{
    Binder, BoxedTerm, Head, Literal, LogicOp, NumberOp, Op, SetOp, Term, Terms, Why, same,
};
use kid_value::Text;
use std::alloc::Global;

/// What a rule gave, and no answer where a text is no term.
pub type Given = Option<Result<Instance, Why>>;

fn name(alloc: Global, letter: u8) -> Option<Term> {
    let name = Text::from_slice(alloc, &[letter]).ok()?;
    Some(Term::Var(name))
}

fn number(digit: u8) -> Option<Term> {
    if digit.is_ascii_digit() {
        Some(Term::Lit(Literal::Int(i64::from(digit - b'0'))))
    } else {
        None
    }
}

fn name_of(term: Option<Term>) -> Option<Text> {
    match term {
        Some(Term::Var(name)) => Some(name),
        _ => None,
    }
}

// so many terms off the top of the pile, the topmost first
fn taken(alloc: Global, pile: &mut Vec<Term>, count: usize) -> Option<Terms> {
    let mut terms = Terms::new(alloc);
    for _ in 0..count {
        terms.push(pile.pop()?).ok()?;
    }
    Some(terms)
}

fn operated(op: Op, args: Option<Terms>) -> Option<Term> {
    Some(Term::App(Head::Op(op), args?))
}

fn boxed(alloc: Global, term: Option<Term>) -> Option<BoxedTerm> {
    BoxedTerm::new(alloc, term?).ok()
}

fn binder_of(
    binder: Binder,
    name: Option<Text>,
    set: Option<BoxedTerm>,
    body: Option<BoxedTerm>,
) -> Option<Term> {
    match (name, set, body) {
        (Some(name), Some(set), Some(body)) => Some(Term::Bind(binder, name, set, body)),
        _ => None,
    }
}

fn operation(alloc: Global, pile: &mut Vec<Term>, op: Op, count: usize) -> Option<Term> {
    operated(op, taken(alloc, pile, count))
}

fn called(name: Option<Text>, args: Option<Terms>) -> Option<Term> {
    match (name, args) {
        (Some(name), Some(args)) => Some(Term::App(Head::Call(name), args)),
        _ => None,
    }
}

fn binding(alloc: Global, pile: &mut Vec<Term>, binder: Binder) -> Option<Term> {
    let name = name_of(pile.pop());
    let set = boxed(alloc, pile.pop());
    binder_of(binder, name, set, boxed(alloc, pile.pop()))
}

fn calling(alloc: Global, pile: &mut Vec<Term>) -> Option<Term> {
    let name = name_of(pile.pop());
    called(name, taken(alloc, pile, 1))
}

fn composed(alloc: Global, pile: &mut Vec<Term>, head: u8) -> Option<Term> {
    match head {
        b'!' => operation(alloc, pile, Op::Logic(LogicOp::Not), 1),
        b'&' => operation(alloc, pile, Op::Logic(LogicOp::And), 2),
        b'>' => operation(alloc, pile, Op::Logic(LogicOp::Implies), 2),
        b'=' => operation(alloc, pile, Op::Logic(LogicOp::Eq), 2),
        b'?' => operation(alloc, pile, Op::Logic(LogicOp::If), 3),
        b'<' => operation(alloc, pile, Op::Number(NumberOp::Lt), 2),
        b'+' => operation(alloc, pile, Op::Number(NumberOp::Add), 2),
        digit => number(digit),
    }
}

fn headed(alloc: Global, pile: &mut Vec<Term>, head: u8) -> Option<Term> {
    match head {
        b'~' => operation(alloc, pile, Op::Set(SetOp::In), 2),
        b'@' => calling(alloc, pile),
        b'A' => binding(alloc, pile, Binder::All),
        head => composed(alloc, pile, head),
    }
}

fn read(alloc: Global, pile: &mut Vec<Term>, head: u8) -> Option<Term> {
    match head {
        b'T' => Some(Term::Lit(Literal::Bool(true))),
        b'F' => Some(Term::Lit(Literal::Bool(false))),
        _ => if head.is_ascii_lowercase() {
            name(alloc, head)
        } else {
            headed(alloc, pile, head)
        },
    }
}

fn put(alloc: Global, pile: &mut Vec<Term>, head: u8) -> Option<()> {
    let term = read(alloc, pile, head)?;
    pile.push(term).ok()
}

// the terms that the text spells one behind the other, the first on top
fn piled(alloc: Global, text: &str) -> Option<Vec<Term>> {
    let mut pile = Vec::new(alloc);
    for head in text.as_bytes().iter().rev() {
        put(alloc, &mut pile, *head)?;
    }
    Some(pile)
}

fn last_of(pile: Option<Vec<Term>>) -> Option<Term> {
    let mut pile = pile?;
    let term = pile.pop();
    if pile.is_empty() { term } else { None }
}

fn all_of(alloc: Global, pile: Option<Vec<Term>>) -> Option<Terms> {
    let mut pile = pile?;
    let count = pile.len();
    taken(alloc, &mut pile, count)
}

/// The term that the text spells.
pub fn term_of(alloc: Global, text: &str) -> Option<Term> {
    last_of(piled(alloc, text))
}

/// The terms that the text spells one behind the other.
pub fn terms_of(alloc: Global, text: &str) -> Option<Terms> {
    all_of(alloc, piled(alloc, text))
}

/// Whether the text spells the term.
pub fn is_spelled(alloc: Global, found: &Term, want: &str) -> bool {
    match term_of(alloc, want) {
        Some(want) => same(found, &want),
        None => false,
    }
}

/// Whether the rule gave the term that the text spells.
pub fn is_made(alloc: Global, given: Given, want: &str) -> bool {
    match given {
        Some(Ok(made)) => is_spelled(alloc, &made.term, want),
        _ => false,
    }
}

/// Whether the rule gave nothing, and why.
pub fn is_refused(given: Given, want: Why) -> bool {
    match given {
        Some(Err(why)) => why == want,
        _ => false,
    }
}
