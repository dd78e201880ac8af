//! Values from short texts. A text is words, each of which is a value, or `pair`, which makes one of the two that follow it:
//!
//! - `-2`: a number; `true` and `false`: the truth values; `'ab`: the tag of that name;
//! - `{12`, `[12` and `=1529`: the set of 1 and 2, the sequence of both, and the map that has 5 at 1 and 9 at 2, of one digit each.
//!
//! `None` is want of memory, or a text that is no value.
use kid_value::{Entries, Members, Text, Value, Values};
use std::alloc::Global;

fn digit(byte: u8) -> Value {
    Value::Int(i64::from(byte) - 48)
}

fn set(alloc: Global, digits: &[u8]) -> Option<Value> {
    let mut members = Members::new(alloc);
    for byte in digits {
        members.put(digit(*byte)).ok()?;
    }
    Some(Value::Set(members))
}

fn sequence(alloc: Global, digits: &[u8]) -> Option<Value> {
    let mut items = Values::new(alloc);
    for byte in digits {
        items.push(digit(*byte)).ok()?;
    }
    Some(Value::Seq(items))
}

fn map(alloc: Global, digits: &[u8]) -> Option<Value> {
    let mut entries = Entries::new(alloc);
    for entry in digits.chunks_exact(2) {
        entries.put(digit(entry[0]), digit(entry[1])).ok()?;
    }
    Some(Value::Map(entries))
}

fn tag(alloc: Global, name: &[u8]) -> Option<Value> {
    let name = Text::from_slice(alloc, name).ok()?;
    Some(Value::Tag(name))
}

fn paired(alloc: Global, first: Option<Value>, second: Option<Value>) -> Option<Value> {
    match (first, second) {
        (Some(first), Some(second)) => Value::pair(alloc, first, second).ok(),
        _ => None,
    }
}

fn number(word: &str) -> Option<Value> {
    match word.parse::<i64>() {
        Ok(n) => Some(Value::Int(n)),
        Err(_) => None,
    }
}

fn of_parts(alloc: Global, word: &str) -> Option<Value> {
    let (head, parts) = word.as_bytes().split_first()?;
    match *head {
        b'{' => set(alloc, parts),
        b'[' => sequence(alloc, parts),
        b'=' => map(alloc, parts),
        b'\'' => tag(alloc, parts),
        _ => number(word),
    }
}

fn read(alloc: Global, pile: &mut Vec<Value>, word: &str) -> Option<Value> {
    match word {
        "true" => Some(Value::Bool(true)),
        "false" => Some(Value::Bool(false)),
        "pair" => paired(alloc, pile.pop(), pile.pop()),
        _ => of_parts(alloc, word),
    }
}

fn put(alloc: Global, pile: &mut Vec<Value>, word: &str) -> Option<()> {
    let value = read(alloc, pile, word)?;
    pile.push(value).ok()
}

/// The values that the text spells.
pub fn values(alloc: Global, text: &str) -> Option<Vec<Value>> {
    let mut pile = Vec::new(alloc);
    for word in text.rsplit(' ') {
        put(alloc, &mut pile, word)?;
    }
    pile.reverse();
    Some(pile)
}
