//! Sorts from short texts. A text is words in Polish notation: `never`, `bool`, `int 1 3`, `pair bool bool`, `set bool`, `seq bool 4`
//! and `map bool bool`; `a|b` is the enum of the names a and b, and `bytes 1 5` that of the names of one byte from 1 on and before 5.
//!
//! `None` is want of memory, or a text that is no sort.
use kid_value::{Sort, Text, Texts};
use std::alloc::Global;

fn int(lo: Option<i64>, hi: Option<i64>) -> Option<Sort> {
    Some(Sort::Int { lo: lo?, hi: hi? })
}

fn boxed(alloc: Global, sort: Option<Sort>) -> Option<Box<Sort>> {
    Box::new(alloc, sort?).ok()
}

fn set(member: Option<Box<Sort>>) -> Option<Sort> {
    Some(Sort::Set(member?))
}

fn sequence(item: Option<Box<Sort>>, bound: Option<i64>) -> Option<Sort> {
    let bound = u32::try_from(bound?).ok();
    match (item, bound) {
        (Some(item), Some(bound)) => Some(Sort::Seq { item, bound }),
        _ => None,
    }
}

fn pair(first: Option<Box<Sort>>, second: Option<Box<Sort>>) -> Option<Sort> {
    match (first, second) {
        (Some(first), Some(second)) => Some(Sort::Pair(first, second)),
        _ => None,
    }
}

fn map(key: Option<Box<Sort>>, value: Option<Box<Sort>>) -> Option<Sort> {
    match (key, value) {
        (Some(key), Some(value)) => Some(Sort::Map(key, value)),
        _ => None,
    }
}

fn add(alloc: Global, names: &mut Texts, name: &[u8]) -> Option<()> {
    names.push(Text::from_slice(alloc, name).ok()?).ok()
}

fn bytes(alloc: Global, first: Option<i64>, end: Option<i64>) -> Option<Sort> {
    let first = u8::try_from(first?).ok()?;
    let end = u8::try_from(end?).ok()?;
    let mut names = Texts::new(alloc);
    for byte in first..end {
        add(alloc, &mut names, &[byte])?;
    }
    Some(Sort::Enum(names))
}

fn enumeration(alloc: Global, word: &str) -> Option<Sort> {
    let mut names = Texts::new(alloc);
    for name in word.split('|') {
        add(alloc, &mut names, name.as_bytes())?;
    }
    Some(Sort::Enum(names))
}

fn read(alloc: Global, numbers: &mut Vec<i64>, sorts: &mut Vec<Sort>, word: &str) -> Option<Sort> {
    match word {
        "never" => Some(Sort::Never),
        "bool" => Some(Sort::Bool),
        "int" => int(numbers.pop(), numbers.pop()),
        "bytes" => bytes(alloc, numbers.pop(), numbers.pop()),
        "set" => set(boxed(alloc, sorts.pop())),
        "seq" => sequence(boxed(alloc, sorts.pop()), numbers.pop()),
        "pair" => pair(boxed(alloc, sorts.pop()), boxed(alloc, sorts.pop())),
        "map" => map(boxed(alloc, sorts.pop()), boxed(alloc, sorts.pop())),
        _ => enumeration(alloc, word),
    }
}

fn put(alloc: Global, numbers: &mut Vec<i64>, sorts: &mut Vec<Sort>, word: &str) -> Option<()> {
    match word.parse::<i64>() {
        Ok(n) => numbers.push(n).ok(),
        Err(_) => {
            let sort = read(alloc, numbers, sorts, word)?;
            sorts.push(sort).ok()
        }
    }
}

/// The sorts that the text spells.
pub fn sorts(alloc: Global, text: &str) -> Option<Vec<Sort>> {
    let mut numbers = Vec::new(alloc);
    let mut sorts = Vec::new(alloc);
    for word in text.rsplit(' ') {
        put(alloc, &mut numbers, &mut sorts, word)?;
    }
    sorts.reverse();
    Some(sorts)
}
