//! Values from short texts, which are read as those of terms are. A character is a head, and what it takes follows it:
//!
//! - `7` and each other digit: a number; `T` and `F`: the truth values; each small letter: the tag of that name; `,ab`: a pair;
//! - `&ab`: the set of two values; `;ab`: the sequence of two; `M`: the empty map; `=abc`: the map `a` with the value `c` at `b`.
//!
//! `None` is want of memory, or a text that is no value.
use kid_value::{Entries, Members, Text, Value, Values};
use std::alloc::Global;

fn paired(alloc: Global, first: Option<Value>, second: Option<Value>) -> Option<Value> {
    match (first, second) {
        (Some(first), Some(second)) => Value::pair(alloc, first, second).ok(),
        _ => None,
    }
}

fn join(members: &mut Members, member: Option<Value>) -> Option<()> {
    members.put(member?).ok()
}

fn set(alloc: Global, pile: &mut Vec<Value>) -> Option<Value> {
    let mut members = Members::new(alloc);
    join(&mut members, pile.pop())?;
    join(&mut members, pile.pop())?;
    Some(Value::Set(members))
}

fn append(items: &mut Values, item: Option<Value>) -> Option<()> {
    items.push(item?).ok()
}

fn sequence(alloc: Global, pile: &mut Vec<Value>) -> Option<Value> {
    let mut items = Values::new(alloc);
    append(&mut items, pile.pop())?;
    append(&mut items, pile.pop())?;
    Some(Value::Seq(items))
}

fn entries_of(map: Option<Value>) -> Option<Entries> {
    match map {
        Some(Value::Map(entries)) => Some(entries),
        _ => None,
    }
}

fn enter(entries: &mut Entries, key: Option<Value>, value: Option<Value>) -> Option<()> {
    match (key, value) {
        (Some(key), Some(value)) => entries.put(key, value).ok(),
        _ => None,
    }
}

fn put(pile: &mut Vec<Value>) -> Option<Value> {
    let mut entries = entries_of(pile.pop())?;
    let key = pile.pop();
    enter(&mut entries, key, pile.pop())?;
    Some(Value::Map(entries))
}

fn number(digit: u8) -> Option<Value> {
    if digit.is_ascii_digit() {
        Some(Value::Int(i64::from(digit - b'0')))
    } else {
        None
    }
}

fn tag(alloc: Global, letter: u8) -> Option<Value> {
    let name = Text::from_slice(alloc, &[letter]).ok()?;
    Some(Value::Tag(name))
}

fn read(alloc: Global, pile: &mut Vec<Value>, head: u8) -> Option<Value> {
    match head {
        b'T' => Some(Value::Bool(true)),
        b'F' => Some(Value::Bool(false)),
        b'M' => Some(Value::Map(Entries::new(alloc))),
        b',' => paired(alloc, pile.pop(), pile.pop()),
        b'&' => set(alloc, pile),
        b';' => sequence(alloc, pile),
        b'=' => put(pile),
        _ => if head.is_ascii_lowercase() {
            tag(alloc, head)
        } else {
            number(head)
        },
    }
}

fn push(pile: &mut Vec<Value>, value: Option<Value>) -> Option<()> {
    pile.push(value?).ok()
}

fn put_head(alloc: Global, pile: &mut Vec<Value>, head: u8) -> Option<()> {
    let value = read(alloc, pile, head);
    push(pile, value)
}

/// The values that the text spells, the last one first.
pub fn values(alloc: Global, text: &str) -> Option<Vec<Value>> {
    let mut pile = Vec::new(alloc);
    for head in text.as_bytes().iter().rev() {
        put_head(alloc, &mut pile, *head)?;
    }
    Some(pile)
}
