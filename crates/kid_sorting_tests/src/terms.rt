//! Terms with binders, calls and casts, and the limits of terms.
use crate::built::{
    arguments, bind, call, cast, definition, headed, names, negations, push, tag, text,
};
use crate::over::{fails, has_sort, put_found, put_sort, refuses_all, spells_all};
use crate::sort_words::sorts;
use kid_sorting::{Signature, SortFault, sort_of, sort_over};
use kid_term::{Binder, Def, Head, LogicOp, NumberOp, Op, SetOp, Term};
use kid_value::{Names, Sort, Text};
use std::alloc::Global;
use std::process::Abort;

fn add_definition(signature: &mut Signature, definition: Option<Def>) -> Option<()> {
    signature.add_definition(definition?).ok()
}

fn add_input(alloc: Global, signature: &mut Signature, word: &str, sort: &str) -> Option<()> {
    let mut sorts = sorts(alloc, sort)?;
    let name = text(alloc, word.as_bytes())?;
    match sorts.pop() {
        Some(sort) => signature.add_input(name, sort).ok(),
        None => None,
    }
}

// (def f ((x (int 0 9))) (int 0 9) x), and an input s, which is a set of numbers from 1 to 3
fn signature(alloc: Global) -> Option<Signature> {
    let mut signature = Signature::new(alloc);
    let definition = definition(alloc, "int 0 9", "int 0 9", "x", 0);
    add_definition(&mut signature, definition)?;
    add_input(alloc, &mut signature, "s", "set int 1 3")?;
    Some(signature)
}

fn gives_digits(signature: &Signature, name: &Option<Text>) -> bool {
    match name {
        Some(name) => matches!(
            signature.find_definition(name),
            Some(Def {
                sort: Sort::Int { lo: 0, hi: 9 },
                ..
            })
        ),
        None => false,
    }
}

fn is_undefined(signature: &Signature, name: &Option<Text>) -> bool {
    match name {
        Some(name) => signature.find_definition(name).is_none(),
        None => false,
    }
}

fn is_input(signature: &Signature) -> bool {
    match signature.inputs() {
        [input] => input.0.is(b"s"),
        _ => false,
    }
}

fn keeps(alloc: Global, signature: &Option<Signature>) -> bool {
    match signature {
        Some(signature) => gives_digits(signature, &text(alloc, b"f"))
            && is_undefined(signature, &text(alloc, b"s"))
            && is_input(signature)
            && signature.definitions().len() == 1,
        None => false,
    }
}

#[test]
fn keeps_definitions_and_inputs(rt: HostRuntime) {
    assert!(rt; keeps(rt.alloc(), &signature(rt.alloc())));
}

// s is a set of numbers from 1 to 3, w one of 17 numbers, and p a truth value
const KNOWN: [(&str, &str); 3] = [("s", "set int 1 3"), ("w", "set int 1 17"), ("p", "bool")];

// these two have no clause, so that no proof above opens the definition of least sorts
fn by_signature(
    alloc: Global,
    signature: &Signature,
    names: &Names,
    term: &Term,
) -> Result<Sort, SortFault> {
    sort_of(alloc, signature, names, term)
}

fn by_parts(
    alloc: Global,
    signature: &Signature,
    names: &Names,
    term: &Term,
) -> Result<Sort, SortFault> {
    sort_over(alloc, signature.definitions(), names.items(), term)
}

// puts the sort of a term in the signature, and then that over its parts
fn put_both(
    alloc: Global,
    signature: &Option<Signature>,
    names: &Option<Names>,
    term: &Term,
    sorts: &mut Vec<Sort>,
) -> Result<(), SortFault> {
    match (signature, names) {
        (Some(signature), Some(names)) => {
            put_sort(sorts, by_signature(alloc, signature, names, term))?;
            put_sort(sorts, by_parts(alloc, signature, names, term))
        }
        _ => Err(SortFault::Memory),
    }
}

fn put_known(
    alloc: Global,
    terms: &Option<Vec<Term>>,
    sorts: &mut Vec<Sort>,
) -> Result<(), SortFault> {
    match terms {
        Some(terms) => match terms.as_slice() {
            [term] => put_both(alloc, &signature(alloc), &names(alloc, &KNOWN), term, sorts),
            _ => Err(SortFault::Memory),
        },
        None => Err(SortFault::Memory),
    }
}

fn are_sums(sorts: &[Sort]) -> bool {
    matches!(
        sorts,
        [Sort::Int { lo: 0, hi: 81 }, Sort::Int { lo: 0, hi: 81 }]
    )
}

fn is_sum(alloc: Global, terms: &Option<Vec<Term>>) -> bool {
    let mut sorts = Vec::new(alloc);
    put_known(alloc, terms, &mut sorts).is_ok() && are_sums(&sorts)
}

// (sumof x s (mul x (f x)))
fn sum(alloc: Global) -> Option<Vec<Term>> {
    let mut factors = arguments(alloc, "x")?;
    let mut values = call(alloc, "f", "x")?;
    push(&mut factors, values.pop())?;
    let mut products = headed(alloc, Head::Op(Op::Number(NumberOp::Mul)), factors)?;
    let mut parts = arguments(alloc, "s")?;
    push(&mut parts, products.pop())?;
    bind(alloc, Binder::SumOf, "x", parts)
}

// at most three summands from 1 * 0 to 3 * 9
#[test]
fn sorts_a_sum(rt: HostRuntime) {
    assert!(rt; is_sum(rt.alloc(), &sum(rt.alloc())));
}

const NUMBERS: [(&str, &str); 3] = [("a", "int -7 7"), ("b", "int 2 3"), ("c", "int -4 3")];

const BOUNDS: [(Op, &str, &str); 10] = [
    (Op::Number(NumberOp::Add), "a b", "int -5 10"),
    (Op::Number(NumberOp::Sub), "a b", "int -10 5"),
    (Op::Number(NumberOp::Mul), "a b", "int -21 21"),
    (Op::Number(NumberOp::Mul), "a c", "int -28 28"),
    (Op::Number(NumberOp::Div), "a b", "int -4 3"),
    (Op::Number(NumberOp::Div), "a c", "int -7 7"),
    (Op::Number(NumberOp::Mod), "a b", "int 0 2"),
    (Op::Number(NumberOp::Mod), "a c", "int 0 3"),
    (Op::Number(NumberOp::Min), "a b", "int -7 3"),
    (Op::Number(NumberOp::Max), "a b", "int 2 7"),
];

#[test]
fn bounds_each_operator(rt: HostRuntime) {
    spells_all(&rt, rt.alloc(), &names(rt.alloc(), &NUMBERS), &BOUNDS);
}

fn none(alloc: Global) -> Option<Names> {
    Some(Names::new(alloc))
}

fn fault_of(alloc: Global, count: u32) -> Option<SortFault> {
    let mut sorts = Vec::new(alloc);
    put_found(alloc, &none(alloc), &negations(alloc, count), &mut sorts).err()
}

fn counts_all(rt: &impl Abort, alloc: Global, rows: &[(u32, Option<SortFault>)]) {
    for row in rows {
        let (count, want) = *row;
        assert!(rt; fault_of(alloc, count) == want, "at {count}");
    }
}

const SIZES: [(u32, Option<SortFault>); 4] = [
    (127, None),
    (128, Some(SortFault::TermDeep)),
    (4095, Some(SortFault::TermDeep)),
    (4096, Some(SortFault::Size)),
];

#[test]
fn counts_nodes_before_depth(rt: HostRuntime) {
    counts_all(&rt, rt.alloc(), &SIZES);
}

fn fails_in_signature(alloc: Global, terms: &Option<Vec<Term>>, want: SortFault) -> bool {
    let mut sorts = Vec::new(alloc);
    put_known(alloc, terms, &mut sorts) == Err(want)
}

fn bound(alloc: Global, binder: Binder, word: &str, parts: &str) -> Option<Vec<Term>> {
    bind(alloc, binder, word, arguments(alloc, parts)?)
}

fn bound_fails(alloc: Global, binder: Binder, word: &str, parts: &str, want: SortFault) -> bool {
    fails_in_signature(alloc, &bound(alloc, binder, word, parts), want)
}

fn binders_fail(rt: &impl Abort, alloc: Global, rows: &[(Binder, &str, &str, SortFault)]) {
    for row in rows {
        let (binder, word, parts, want) = *row;
        assert!(rt;
            bound_fails(alloc, binder, word, parts, want),
            "at {word} {parts}"
        );
    }
}

// a binder, its name, its set and its body
const BINDERS: [(Binder, &str, &str, SortFault); 8] = [
    // a set is asked for before the body is looked at
    (Binder::All, "x", "p q", SortFault::Kind),
    (Binder::All, "x", "q p", SortFault::Unknown),
    (Binder::All, "x", "s q", SortFault::Unknown),
    (Binder::All, "x", "s x", SortFault::Kind),
    // the sets of 17 numbers are too many
    (Binder::Image, "s", "s w", SortFault::Bounds),
    (Binder::All, "s", "s q", SortFault::Unknown),
    (Binder::All, "p", "s p", SortFault::Kind),
    (Binder::Image, "s", "w s", SortFault::Shadow),
];

#[test]
fn tells_the_first_fault_of_a_binder(rt: HostRuntime) {
    binders_fail(&rt, rt.alloc(), &BINDERS);
}

#[test]
fn tells_the_fault_of_a_call(rt: HostRuntime) {
    let known = call(rt.alloc(), "f", "10");
    assert!(rt; fails_in_signature(rt.alloc(), &known, SortFault::Kind));
    let unknown = call(rt.alloc(), "g", "9");
    assert!(rt; fails_in_signature(rt.alloc(), &unknown, SortFault::Unknown));
}

const FAULTS: [(Op, &str, SortFault); 4] = [
    (Op::Logic(LogicOp::And), "p", SortFault::Kind),
    (
        Op::Number(NumberOp::Add),
        "4611686018427387904 1",
        SortFault::Bounds,
    ),
    (Op::Number(NumberOp::Lt), "'a 'b", SortFault::Kind),
    (Op::Number(NumberOp::Add), "'a 1", SortFault::Kind),
];

#[test]
fn tells_the_fault_of_an_operator(rt: HostRuntime) {
    refuses_all(&rt, rt.alloc(), &names(rt.alloc(), &KNOWN), &FAULTS);
}

// sets of no value
#[test]
fn tells_the_fault_of_a_cast(rt: HostRuntime) {
    let cast = cast(rt.alloc(), "set never", "9");
    assert!(rt; fails(rt.alloc(), &none(rt.alloc()), &cast, SortFault::Bounds));
}

const TAGS: [(Op, &str, &str); 2] = [
    (Op::Set(SetOp::Set), "'red 'blue 'red", "set blue|red"),
    (Op::Logic(LogicOp::Eq), "'red 'blue", "bool"),
];

#[test]
fn sorts_tags(rt: HostRuntime) {
    let tag = arguments(rt.alloc(), "'red");
    assert!(rt; has_sort(rt.alloc(), &none(rt.alloc()), &tag, "red"));
    spells_all(&rt, rt.alloc(), &none(rt.alloc()), &TAGS);
}

// the set of the tags whose names are one byte each, so many
fn many_tags(alloc: Global, count: u8) -> Option<Vec<Term>> {
    let mut args = Vec::new(alloc);
    for byte in 0..count {
        push(&mut args, tag(text(alloc, &[byte])))?;
    }
    headed(alloc, Head::Op(Op::Set(SetOp::Set)), args)
}

fn is_set(sorts: &[Sort]) -> bool {
    matches!(sorts, [Sort::Set(_)])
}

fn many_are_sorted(alloc: Global, count: u8) -> Result<bool, SortFault> {
    let mut sorts = Vec::new(alloc);
    put_found(alloc, &none(alloc), &many_tags(alloc, count), &mut sorts)?;
    Ok(is_set(&sorts))
}

#[test]
fn sorts_at_most_64_tags(rt: HostRuntime) {
    assert!(rt; many_are_sorted(rt.alloc(), 64) == Ok(true));
    assert!(rt; many_are_sorted(rt.alloc(), 65) == Err(SortFault::Bounds));
}
