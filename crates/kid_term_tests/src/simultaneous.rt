//! Terms in the places of several names at once.
use crate::notation::{are_alike, name_of, push, terms};
use kid_term::{Subst, SubstFault, Term};
use kid_value::Text;
use std::alloc::Global;
use std::process::Abort;

fn add(subst: &mut Subst, name: Option<Text>, new: Option<Term>) -> Option<()> {
    let name = name?;
    match new {
        Some(new) => subst.push(name, new).ok(),
        None => None,
    }
}

// the names with their terms, which are on top of a term and what is made of it
fn paired(alloc: Global, terms: &mut Vec<Term>) -> Option<Subst> {
    let mut subst = Subst::new(alloc);
    for _ in 0..terms.len().saturating_sub(1) / 2 {
        let name = name_of(terms.pop());
        add(&mut subst, name, terms.pop())?;
    }
    Some(subst)
}

fn put_substituted(alloc: Global, terms: &mut Vec<Term>, subst: &Subst) -> Option<()> {
    match terms.as_slice() {
        [_, term] => {
            let made = term.substitute_all(alloc, subst).ok();
            push(terms, made)
        }
        _ => None,
    }
}

fn substituted(alloc: Global, text: &str) -> Option<bool> {
    let mut terms = terms(alloc, text)?;
    let subst = paired(alloc, &mut terms)?;
    put_substituted(alloc, &mut terms, &subst)?;
    Some(are_alike(&terms))
}

fn is_substituted(alloc: Global, text: &str) -> bool {
    matches!(substituted(alloc, text), Some(true))
}

fn substitutes(rt: &impl Abort, alloc: Global, rows: &[&str]) {
    for row in rows {
        assert!(rt; is_substituted(alloc, row), "at {row}");
    }
}

// names before their terms, then the term in which they stand, and what is made
const SUBSTITUTED: [&str; 10] = [
    "+xy +xy",
    "xy yx +xy +yx",
    "xy yz zx +x+yz +y+zx",
    // what was put in is not looked at again
    "x+xx x +xx",
    "yz xy !x !y",
    // the first for a name counts
    "xy xz +xx +yy",
    "xy 3 3",
    "xy ,'xx ,'xy",
    // what is called is no name of the environment
    "fy xf @fx @ff",
    "y1 zT x!x :9?xyz :9?!x1T",
];

#[test]
fn substitutes_several_names(rt: HostRuntime) {
    substitutes(&rt, rt.alloc(), &SUBSTITUTED);
}

const SUBSTITUTED_BELOW_BINDERS: [&str; 8] = [
    // a binder's own name keeps its places
    "xz sr yw Axs<xy Axr<xw",
    "x1 y2 AxsAyr<xy AxsAyr<xy",
    "xy Axs<xx Axs<xx",
    // its set stands outside
    "xs Axx<xy Axs<xy",
    "xy Ayx<yz Ayy<yz",
    "xy +xUxsx +yUxsx",
    // a name may be bound where no term that mentions it is put in
    "xy zw Ays<yz Ays<yw",
    "xz xy Ays<xy Ays<zy",
];

#[test]
fn substitutes_below_binders(rt: HostRuntime) {
    substitutes(&rt, rt.alloc(), &SUBSTITUTED_BELOW_BINDERS);
}

fn fault_among(alloc: Global, terms: &[Term], subst: &Subst) -> Option<SubstFault> {
    match terms {
        [term] => term.substitute_all(alloc, subst).err(),
        _ => None,
    }
}

fn fault_of(alloc: Global, text: &str) -> Option<SubstFault> {
    let mut terms = terms(alloc, text)?;
    let subst = paired(alloc, &mut terms)?;
    fault_among(alloc, &terms, &subst)
}

fn is_captured(alloc: Global, text: &str) -> bool {
    matches!(fault_of(alloc, text), Some(SubstFault::Capture))
}

fn captures(rt: &impl Abort, alloc: Global, rows: &[&str]) {
    for row in rows {
        assert!(rt; is_captured(alloc, row), "at {row}");
    }
}

const CAPTURED: [&str; 6] = [
    "xy Ays<xy",
    "xy yx Ays<xy",
    "z1 x+yz Ays<xy",
    "w1 xy Ays<xw",
    "xy AysAzr<xz",
    "x!y AzrOys<xz",
];

#[test]
fn lets_no_name_be_captured(rt: HostRuntime) {
    captures(&rt, rt.alloc(), &CAPTURED);
}
