//! Texts, names and sets, also many of them, and want of memory.
use kid_value::{Members, Memory, Names, Sort, Text, Texts, Value};
use std::alloc::Global;

fn pushed(alloc: Global, bytes: &[u8], last: u8) -> Option<Text> {
    let mut text = Text::from_slice(alloc, bytes).ok()?;
    text.push(last).ok()?;
    text.copy(alloc).ok()
}

fn is_text(text: Option<Text>, want: &[u8]) -> bool {
    match text {
        Some(text) => text.is(want),
        None => false,
    }
}

#[test]
fn lengthens_texts(rt: HostRuntime) {
    assert!(rt; is_text(pushed(rt.alloc(), b"hig", b'h'), b"high"));
}

fn one_name(alloc: Global, name: Option<Text>) -> Option<Names> {
    let mut names = Names::new(alloc);
    names.push(name?, Sort::Bool).ok()?;
    Some(names)
}

fn is_name(names: Option<Names>, want: &[u8]) -> bool {
    match names {
        Some(names) => match names.items() {
            [name] => name.0.is(want),
            _ => false,
        },
        None => false,
    }
}

#[test]
fn lists_names(rt: HostRuntime) {
    let names = one_name(rt.alloc(), pushed(rt.alloc(), b"hig", b'h'));
    assert!(rt; is_name(names, b"high"));
}

fn many_texts(alloc: Global, count: usize) -> Option<Texts> {
    let mut texts = Texts::new(alloc);
    for _ in 0..count {
        texts.push(Text::from_slice(alloc, b"a").ok()?).ok()?;
    }
    Some(texts)
}

/// So many numbers, the first of them put twice.
fn many_members(alloc: Global, count: i64) -> Option<Members> {
    let mut members = Members::new(alloc);
    for n in 0..count {
        members.put(Value::Int(n)).ok()?;
    }
    members.put(Value::Int(0)).ok()?;
    Some(members)
}

#[test]
fn holds_many(rt: HostRuntime) {
    assert!(rt; matches!(many_texts(rt.alloc(), 1000), Some(texts) if texts.items().len() == 1000));
    assert!(rt;
        matches!(many_members(rt.alloc(), 65536), Some(members) if members.items().len() == 65536)
    );
}

#[test]
fn tells_want_of_memory(rt: HostRuntime) {
    assert!(rt;
        matches!(format!(in rt.alloc(); "{}", Memory), Ok(told) if told.as_str() == "out of memory")
    );
}
