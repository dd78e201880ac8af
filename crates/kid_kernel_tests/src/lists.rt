//! Lists of laws and of axioms, also long ones.
use kid_kernel::{Axiom, Axioms, Conclusion, Law, Laws};
use kid_term::{Literal, Term, Terms};
use kid_value::{Memory, Names, Text};
use std::alloc::Global;

fn text(alloc: Global, word: &str) -> Result<Text, Memory> {
    Ok(Text::from_slice(alloc, word.as_bytes())?)
}

fn one() -> Term {
    Term::Lit(Literal::Int(1))
}

// 1 equals 1
fn law(alloc: Global, word: &str) -> Result<Law, Memory> {
    Ok(Law {
        name: text(alloc, word)?,
        variables: Names::new(alloc),
        conditions: Terms::new(alloc),
        conclusion: Conclusion::Equal(one(), one()),
    })
}

// false holds
fn axiom(alloc: Global, word: &str) -> Result<Axiom, Memory> {
    Ok(Axiom {
        name: text(alloc, word)?,
        variables: Names::new(alloc),
        conditions: Terms::new(alloc),
        conclusion: Conclusion::Holds(Term::Lit(Literal::Bool(false))),
    })
}

fn add_law(alloc: Global, laws: &mut Laws, word: &str) -> Result<(), Memory> {
    laws.push(law(alloc, word)?)
}

fn add_axiom(alloc: Global, axioms: &mut Axioms, word: &str) -> Result<(), Memory> {
    axioms.push(axiom(alloc, word)?)
}

// so many laws, and one with the name last
fn laws(alloc: Global, count: u32) -> Result<Laws, Memory> {
    let mut laws = Laws::new(alloc);
    for _ in 0..count {
        add_law(alloc, &mut laws, "same")?;
    }
    add_law(alloc, &mut laws, "last")?;
    Ok(laws)
}

// so many axioms, and one with the name last
fn axioms(alloc: Global, count: u32) -> Result<Axioms, Memory> {
    let mut axioms = Axioms::new(alloc);
    for _ in 0..count {
        add_axiom(alloc, &mut axioms, "no")?;
    }
    add_axiom(alloc, &mut axioms, "last")?;
    Ok(axioms)
}

fn ends_with_law(laws: &Laws, count: usize) -> bool {
    let items = laws.items();
    items.len() == count && matches!(items.last(), Some(law) if law.name.is(b"last"))
}

fn ends_with_axiom(axioms: &Axioms, count: usize) -> bool {
    let items = axioms.items();
    items.len() == count && matches!(items.last(), Some(axiom) if axiom.name.is(b"last"))
}

fn are_laws(laws: Result<Laws, Memory>, count: usize) -> bool {
    match laws {
        Ok(laws) => ends_with_law(&laws, count),
        Err(Memory) => false,
    }
}

fn are_axioms(axioms: Result<Axioms, Memory>, count: usize) -> bool {
    match axioms {
        Ok(axioms) => ends_with_axiom(&axioms, count),
        Err(Memory) => false,
    }
}

#[test]
fn begins_empty(rt: HostRuntime) {
    assert!(rt; Laws::new(rt.alloc()).items().is_empty());
    assert!(rt; Axioms::new(rt.alloc()).items().is_empty());
}

#[test]
fn lists_laws(rt: HostRuntime) {
    assert!(rt; are_laws(laws(rt.alloc(), 0), 1));
    assert!(rt; are_laws(laws(rt.alloc(), 1000), 1001));
}

#[test]
fn lists_axioms(rt: HostRuntime) {
    assert!(rt; are_axioms(axioms(rt.alloc(), 0), 1));
    assert!(rt; are_axioms(axioms(rt.alloc(), 1000), 1001));
}
