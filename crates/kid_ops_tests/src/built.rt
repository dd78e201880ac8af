//! The values of the cases. A small one is a letter, so that a case is a text: the digits are numbers, and `values` tells the others.
use kid_value::{Entries, LIMIT, Members, Memory, Value, Values};
use std::alloc::Global;

const MOST: i64 = 9223372036854775807;

fn set(alloc: Global, items: &[i64]) -> Result<Value, Memory> {
    let mut members = Members::new(alloc);
    for n in items {
        members.put(Value::Int(*n))?;
    }
    Ok(Value::Set(members))
}

fn seq(alloc: Global, items: &[i64]) -> Result<Value, Memory> {
    let mut values = Values::new(alloc);
    for n in items {
        values.push(Value::Int(*n))?;
    }
    Ok(Value::Seq(values))
}

fn map(alloc: Global, items: &[(i64, i64)]) -> Result<Value, Memory> {
    let mut entries = Entries::new(alloc);
    for item in items {
        entries.put(Value::Int(item.0), Value::Int(item.1))?;
    }
    Ok(Value::Map(entries))
}

// the map of a number to a set
fn allowed(alloc: Global, key: i64, members: Result<Value, Memory>) -> Result<Value, Memory> {
    let mut entries = Entries::new(alloc);
    entries.put(Value::Int(key), members?)?;
    Ok(Value::Map(entries))
}

fn push(values: &mut Values, value: Result<Value, Memory>) -> Result<(), Memory> {
    values.push(value?)
}

fn row(alloc: Global, items: &[&[i64]]) -> Result<Value, Memory> {
    let mut values = Values::new(alloc);
    for item in items {
        push(&mut values, seq(alloc, item))?;
    }
    Ok(Value::Seq(values))
}

fn number(letter: u8) -> Option<i64> {
    match letter {
        b'0'..=b'9' => Some(i64::from(letter - b'0')),
        b'-' => Some(-1),
        b'N' => Some(-9),
        b'x' => Some(62),
        b'm' => Some(-MOST - 1),
        b'n' => Some(MOST - 1),
        b'M' => Some(MOST),
        // the greatest word, its highest bit, the next number, and those that are 1 and 61 above
        b'A' => Some(4611686018427387903),
        b'B' => Some(2305843009213693952),
        b'L' => Some(LIMIT),
        b'l' => Some(LIMIT + 1),
        b'b' => Some(LIMIT + 61),
        _ => None,
    }
}

fn small_set(alloc: Global, letter: u8) -> Result<Value, Memory> {
    match letter {
        b'e' => set(alloc, &[]),
        b'i' => set(alloc, &[1]),
        b'j' => set(alloc, &[3]),
        b'k' => set(alloc, &[4]),
        b'r' => set(alloc, &[1, 2]),
        b't' => set(alloc, &[1, 3]),
        b's' => set(alloc, &[-3, 0, 7]),
        b'f' => set(alloc, &[MOST - 1, MOST]),
        b'g' => set(alloc, &[LIMIT, LIMIT + 1]),
        b'h' => set(alloc, &[LIMIT + 1]),
        _ => Err(Memory),
    }
}

fn small_seq(alloc: Global, letter: u8) -> Result<Value, Memory> {
    match letter {
        b'q' => seq(alloc, &[]),
        b'o' => seq(alloc, &[4]),
        b'u' => seq(alloc, &[7]),
        b'v' => seq(alloc, &[7, 8]),
        b'w' => seq(alloc, &[1, 2]),
        b'y' => seq(alloc, &[1, 3]),
        b'p' => seq(alloc, &[4, 2, 4]),
        b'P' => row(alloc, &[&[5], &[], &[6]]),
        b'Q' => row(alloc, &[&[4], &[5]]),
        b'U' => row(alloc, &[&[7, 8]]),
        b'V' => row(alloc, &[&[9]]),
        b'W' => row(alloc, &[&[]]),
        _ => small_set(alloc, letter),
    }
}

fn small_map(alloc: Global, letter: u8) -> Result<Value, Memory> {
    match letter {
        b'd' => map(alloc, &[]),
        b'c' => map(alloc, &[(1, 5), (3, 5)]),
        b'C' => map(alloc, &[(1, 5), (3, 6)]),
        b'D' => map(alloc, &[(1, 7)]),
        b'E' => map(alloc, &[(LIMIT, 4), (LIMIT + 1, 5)]),
        b'G' => allowed(alloc, 1, set(alloc, &[4, 5])),
        b'T' => Ok(Value::Bool(true)),
        b'F' => Ok(Value::Bool(false)),
        _ => small_seq(alloc, letter),
    }
}

fn small(alloc: Global, letter: u8) -> Result<Value, Memory> {
    match number(letter) {
        Some(n) => Ok(Value::Int(n)),
        None => small_map(alloc, letter),
    }
}

/// The values of the letters, in their order.
pub fn smalls(alloc: Global, letters: &str) -> Result<Values, Memory> {
    let mut values = Values::new(alloc);
    for letter in letters.as_bytes() {
        push(&mut values, small(alloc, *letter))?;
    }
    Ok(values)
}

/// A value of many parts, or a number or truth value beside it.
#[derive(Clone, Copy)]
pub enum Large {
    Bool(bool),
    Int(i64),
    /// The numbers from the first to the second as a set and as a sequence, and the map that has the third at each.
    Set(i64, i64),
    Seq(i64, i64),
    Map(i64, i64, i64),
    /// The row that has a value at each of so many places.
    Row(u32, i64),
    /// The map of a number to the set of another.
    Allowed(i64, i64),
}

fn set_of(alloc: Global, from: i64, to: i64) -> Result<Value, Memory> {
    let mut members = Members::new(alloc);
    for n in from..=to {
        members.put(Value::Int(n))?;
    }
    Ok(Value::Set(members))
}

fn seq_of(alloc: Global, from: i64, to: i64) -> Result<Value, Memory> {
    let mut values = Values::new(alloc);
    for n in from..=to {
        values.push(Value::Int(n))?;
    }
    Ok(Value::Seq(values))
}

fn map_of(alloc: Global, from: i64, to: i64, held: i64) -> Result<Value, Memory> {
    let mut entries = Entries::new(alloc);
    for n in from..=to {
        entries.put(Value::Int(n), Value::Int(held))?;
    }
    Ok(Value::Map(entries))
}

fn row_of(alloc: Global, count: u32, held: i64) -> Result<Value, Memory> {
    let mut values = Values::new(alloc);
    for _ in 0..count {
        push(&mut values, seq(alloc, &[held]))?;
    }
    Ok(Value::Seq(values))
}

fn value_of(alloc: Global, made: Large) -> Result<Value, Memory> {
    match made {
        Large::Bool(b) => Ok(Value::Bool(b)),
        Large::Int(n) => Ok(Value::Int(n)),
        Large::Set(from, to) => set_of(alloc, from, to),
        Large::Seq(from, to) => seq_of(alloc, from, to),
        Large::Map(from, to, held) => map_of(alloc, from, to, held),
        Large::Row(count, held) => row_of(alloc, count, held),
        Large::Allowed(key, member) => allowed(alloc, key, set(alloc, &[member])),
    }
}

/// The values that are made so, in their order.
pub fn larges(alloc: Global, mades: &[Option<Large>]) -> Result<Values, Memory> {
    let mut values = Values::new(alloc);
    for made in mades {
        if let Some(made) = made {
            push(&mut values, value_of(alloc, *made))?;
        }
    }
    Ok(values)
}
