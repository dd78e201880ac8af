//! Terms from short texts, substitutions, and what is found with them. A character is a head, and what it takes follows it:
//!
//! - a small letter: a name; a digit: a number; `T` and `F`: the truth values; `'x`: the tag of that name;
//! - `!a`, `&ab`, `/ab`, `>ab`, `?abc`, `=ab`: not, and, or, implies, if, eq;
//! - `<ab`, `Lab`, `+ab`, `-ab`, `Na`, `*ab`, `Yab`, `Xab`: le, lt, add, sub, neg, mul, min, max;
//! - `E`, `{a`, `Rab`, `~ab`, `%ab`, `|ab`, `^ab`, `Iab`, `Dab`, `Wab`, `Ca`, `Ua`, `Jab`: `(set)`, `(set a)`, range, in,
//!   subset, union, with, inter, diff, without, card, sum, least;
//! - `#a`, `@abc`, `;ab`, `:a`, `$a`, `Pab`: len, at, snoc, items, total, prefix;
//! - `Ka`, `Gabc`, `Qabc`, `Bab`, `Zab`: dom, get, put, submap, fits;
//! - `Axsb`, `Sxsb`: the binders all and some of `x` over `s` with the body `b`.
//!
//! `None` is want of memory, or a text that is no term.
use kid_laws::{Subst, match_term};
use kid_term::{
    Binder, BoxedTerm, Head, Literal, LogicOp, MapOp, NumberOp, Op, SeqOp, SetOp, Term, Terms, same,
};
use kid_value::{Text, Texts};
use std::alloc::Global;

/// A law's number, its variables, what stands for them, its conditions one behind the other, and its sides.
pub type Row = (
    u8,
    &'static str,
    &'static str,
    &'static str,
    &'static str,
    &'static str,
);

fn name(alloc: Global, letter: u8) -> Option<Term> {
    let name = Text::from_slice(alloc, &[letter]).ok()?;
    Some(Term::Var(name))
}

fn number(digit: u8) -> Option<Term> {
    if digit.is_ascii_digit() {
        Some(Term::Lit(Literal::Int(i64::from(digit - b'0'))))
    } else {
        None
    }
}

fn name_of(term: Option<Term>) -> Option<Text> {
    match term {
        Some(Term::Var(name)) => Some(name),
        _ => None,
    }
}

fn tag(name: Option<Text>) -> Option<Term> {
    Some(Term::Lit(Literal::Tag(name?)))
}

// so many terms off the top of the pile, the topmost first
fn taken(alloc: Global, pile: &mut Vec<Term>, count: usize) -> Option<Terms> {
    let mut terms = Terms::new(alloc);
    for _ in 0..count {
        terms.push(pile.pop()?).ok()?;
    }
    Some(terms)
}

fn operated(op: Op, args: Option<Terms>) -> Option<Term> {
    Some(Term::App(Head::Op(op), args?))
}

fn boxed(alloc: Global, term: Option<Term>) -> Option<BoxedTerm> {
    BoxedTerm::new(alloc, term?).ok()
}

fn binder_of(
    binder: Binder,
    name: Option<Text>,
    set: Option<BoxedTerm>,
    body: Option<BoxedTerm>,
) -> Option<Term> {
    match (name, set, body) {
        (Some(name), Some(set), Some(body)) => Some(Term::Bind(binder, name, set, body)),
        _ => None,
    }
}

fn operation(alloc: Global, pile: &mut Vec<Term>, op: Op, count: usize) -> Option<Term> {
    operated(op, taken(alloc, pile, count))
}

fn logic_sign(sign: u8) -> Option<(LogicOp, usize)> {
    match sign {
        b'!' => Some((LogicOp::Not, 1)),
        b'&' => Some((LogicOp::And, 2)),
        b'/' => Some((LogicOp::Or, 2)),
        b'>' => Some((LogicOp::Implies, 2)),
        b'?' => Some((LogicOp::If, 3)),
        b'=' => Some((LogicOp::Eq, 2)),
        _ => None,
    }
}

fn number_sign(sign: u8) -> Option<(NumberOp, usize)> {
    match sign {
        b'<' => Some((NumberOp::Le, 2)),
        b'L' => Some((NumberOp::Lt, 2)),
        b'+' => Some((NumberOp::Add, 2)),
        b'-' => Some((NumberOp::Sub, 2)),
        b'N' => Some((NumberOp::Neg, 1)),
        b'*' => Some((NumberOp::Mul, 2)),
        b'Y' => Some((NumberOp::Min, 2)),
        b'X' => Some((NumberOp::Max, 2)),
        _ => None,
    }
}

fn set_sign(sign: u8) -> Option<(SetOp, usize)> {
    match sign {
        b'E' => Some((SetOp::Set, 0)),
        b'{' => Some((SetOp::Set, 1)),
        b'R' => Some((SetOp::Range, 2)),
        b'~' => Some((SetOp::In, 2)),
        b'%' => Some((SetOp::Subset, 2)),
        b'|' => Some((SetOp::Union, 2)),
        b'^' => Some((SetOp::With, 2)),
        b'I' => Some((SetOp::Inter, 2)),
        b'D' => Some((SetOp::Diff, 2)),
        b'W' => Some((SetOp::Without, 2)),
        b'C' => Some((SetOp::Card, 1)),
        b'U' => Some((SetOp::Sum, 1)),
        b'J' => Some((SetOp::Least, 2)),
        _ => None,
    }
}

fn seq_sign(sign: u8) -> Option<(SeqOp, usize)> {
    match sign {
        b'#' => Some((SeqOp::Len, 1)),
        b'@' => Some((SeqOp::At, 3)),
        b';' => Some((SeqOp::Snoc, 2)),
        b':' => Some((SeqOp::Items, 1)),
        b'$' => Some((SeqOp::Total, 1)),
        b'P' => Some((SeqOp::Prefix, 2)),
        _ => None,
    }
}

fn map_sign(sign: u8) -> Option<(MapOp, usize)> {
    match sign {
        b'K' => Some((MapOp::Dom, 1)),
        b'G' => Some((MapOp::Get, 3)),
        b'Q' => Some((MapOp::Put, 3)),
        b'B' => Some((MapOp::Submap, 2)),
        b'Z' => Some((MapOp::Fits, 2)),
        _ => None,
    }
}

// an operator on sets, sequences or maps, with the number of its arguments
fn gathering(sign: u8) -> Option<(Op, usize)> {
    if let Some((op, count)) = set_sign(sign) {
        return Some((Op::Set(op), count));
    }
    if let Some((op, count)) = seq_sign(sign) {
        return Some((Op::Seq(op), count));
    }
    match map_sign(sign) {
        Some((op, count)) => Some((Op::Map(op), count)),
        None => None,
    }
}

fn operator(sign: u8) -> Option<(Op, usize)> {
    if let Some((op, count)) = logic_sign(sign) {
        return Some((Op::Logic(op), count));
    }
    if let Some((op, count)) = number_sign(sign) {
        return Some((Op::Number(op), count));
    }
    gathering(sign)
}

fn binding(alloc: Global, pile: &mut Vec<Term>, binder: Binder) -> Option<Term> {
    let name = name_of(pile.pop());
    let set = boxed(alloc, pile.pop());
    binder_of(binder, name, set, boxed(alloc, pile.pop()))
}

fn headed(alloc: Global, pile: &mut Vec<Term>, sign: u8) -> Option<Term> {
    match operator(sign) {
        Some((op, count)) => operation(alloc, pile, op, count),
        None => number(sign),
    }
}

fn read(alloc: Global, pile: &mut Vec<Term>, sign: u8) -> Option<Term> {
    match sign {
        b'T' => Some(Term::Lit(Literal::Bool(true))),
        b'F' => Some(Term::Lit(Literal::Bool(false))),
        b'\'' => tag(name_of(pile.pop())),
        b'A' => binding(alloc, pile, Binder::All),
        b'S' => binding(alloc, pile, Binder::Some),
        _ => if sign.is_ascii_lowercase() {
            name(alloc, sign)
        } else {
            headed(alloc, pile, sign)
        },
    }
}

fn put(alloc: Global, pile: &mut Vec<Term>, head: u8) -> Option<()> {
    let term = read(alloc, pile, head)?;
    pile.push(term).ok()
}

// the terms that the text spells one behind the other, the first on top
fn piled(alloc: Global, text: &str) -> Option<Vec<Term>> {
    let mut pile = Vec::new(alloc);
    for head in text.as_bytes().iter().rev() {
        put(alloc, &mut pile, *head)?;
    }
    Some(pile)
}

fn last_of(pile: Option<Vec<Term>>) -> Option<Term> {
    let mut pile = pile?;
    let term = pile.pop();
    if pile.is_empty() { term } else { None }
}

fn all_of(alloc: Global, pile: Option<Vec<Term>>) -> Option<Terms> {
    let mut pile = pile?;
    let count = pile.len();
    taken(alloc, &mut pile, count)
}

/// The term that the text spells.
pub fn single(alloc: Global, text: &str) -> Option<Term> {
    last_of(piled(alloc, text))
}

/// The terms that the text spells one behind the other.
pub fn terms(alloc: Global, text: &str) -> Option<Terms> {
    all_of(alloc, piled(alloc, text))
}

/// The names, one for each letter.
pub fn letters(alloc: Global, names: &str) -> Option<Texts> {
    let mut texts = Texts::new(alloc);
    for letter in names.as_bytes() {
        texts.push(Text::from_slice(alloc, &[*letter]).ok()?).ok()?;
    }
    Some(texts)
}

fn add(alloc: Global, subst: &mut Subst, letter: u8, term: Option<Term>) -> Option<()> {
    let name = Text::from_slice(alloc, &[letter]).ok()?;
    subst.push(name, term?).ok()
}

fn paired(alloc: Global, letters: &[u8], terms: &str) -> Option<Subst> {
    let mut pile = piled(alloc, terms)?;
    let mut subst = Subst::new(alloc);
    for letter in letters {
        add(alloc, &mut subst, *letter, pile.pop())?;
    }
    Some(subst)
}

/// The names with the terms that the text spells one behind the other; terms beyond the names are left out.
pub fn substitution(alloc: Global, names: &str, terms: &str) -> Option<Subst> {
    paired(alloc, names.as_bytes(), terms)
}

/// The same without the first of the names.
pub fn lacking(alloc: Global, names: &str, terms: &str) -> Option<Subst> {
    match names.as_bytes().split_first() {
        Some((_, rest)) => paired(alloc, rest, terms),
        None => None,
    }
}

/// Whether the text spells the term.
pub fn is_spelled(alloc: Global, found: &Term, want: &str) -> bool {
    match single(alloc, want) {
        Some(want) => same(found, &want),
        None => false,
    }
}

fn are_same(found: &[Term], want: &[Term]) -> bool {
    if found.len() != want.len() {
        return false;
    }
    for (i, term) in found.iter().enumerate() {
        if !same(term, &want[i]) {
            return false;
        }
    }
    true
}

/// Whether the text spells the terms, one behind the other.
pub fn are_spelled(alloc: Global, found: &Terms, want: &str) -> bool {
    match terms(alloc, want) {
        Some(want) => are_same(found.items(), want.items()),
        None => false,
    }
}

/// Whether these are the names, one for each letter.
pub fn are_names(found: &Texts, want: &str) -> bool {
    let letters = want.as_bytes();
    if found.items().len() != letters.len() {
        return false;
    }
    for (i, name) in found.items().iter().enumerate() {
        if !name.is(&[letters[i]]) {
            return false;
        }
    }
    true
}

fn are_pairs(found: &[(Text, Term)], want: &[(Text, Term)]) -> bool {
    if found.len() != want.len() {
        return false;
    }
    for (i, pair) in found.iter().enumerate() {
        if !pair.0.same(&want[i].0) || !same(&pair.1, &want[i].1) {
            return false;
        }
    }
    true
}

/// Whether just these names have just these terms, in this order.
pub fn has_terms(alloc: Global, found: &Subst, names: &str, terms: &str) -> bool {
    match substitution(alloc, names, terms) {
        Some(want) => are_pairs(found.items(), want.items()),
        None => false,
    }
}

fn with_all(
    alloc: Global,
    pattern: Option<Term>,
    variables: Option<Texts>,
    term: Option<Term>,
    subst: Option<Subst>,
) -> Option<Option<Subst>> {
    match (pattern, variables, term, subst) {
        (Some(pattern), Some(variables), Some(term), Some(subst)) => {
            match_term(alloc, &pattern, &variables, &term, &subst).ok()
        }
        _ => None,
    }
}

/// The terms with which the pattern is the term, beside those that the names have.
pub fn matched(
    alloc: Global,
    pattern: &str,
    variables: &str,
    term: &str,
    names: &str,
    terms: &str,
) -> Option<Option<Subst>> {
    let pattern = single(alloc, pattern);
    let term = single(alloc, term);
    with_all(
        alloc,
        pattern,
        letters(alloc, variables),
        term,
        substitution(alloc, names, terms),
    )
}
