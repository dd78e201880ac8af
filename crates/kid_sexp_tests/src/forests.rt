use kid_sexp::{Forest, PrintFault, ReadFault, Tree, print, read};
use kid_value::Text;
use std::alloc::{AllocError, Global};
use std::test::Fail;

#[test]
fn reads_and_prints(rt: HostRuntime) -> Result<(), Fail> {
    let cases = [
        ("", ""),
        ("a;c\nb", "a\nb\n"),
        ("a(b)c", "a\n(b)\nc\n"),
        ("a ; (", "a\n"),
        (";a\rb\nc", "c\n"),
        ("\t(\r\na  ( )b;)\n)", "(a () b)\n"),
    ];
    for (text, want) in cases {
        let forest = read(rt.alloc(), text.as_bytes())?;
        let printed = print(rt.alloc(), &forest)?;
        assert_eq!(rt; printed.as_slice(), want.as_bytes(), "at {text}");
        let again = read(rt.alloc(), printed.as_slice())?;
        assert_eq!(rt; again.len(), forest.len(), "at {text}");
        let printed = print(rt.alloc(), &again)?;
        assert_eq!(rt; printed.as_slice(), want.as_bytes(), "at {text}");
    }
    Ok(())
}

#[test]
fn refuses(rt: HostRuntime) {
    let cases = [
        ([0].as_slice(), ReadFault::BadByte { at: 0 }),
        ([b'a', 128].as_slice(), ReadFault::BadByte { at: 1 }),
        (b"\t\n\r \x7f".as_slice(), ReadFault::BadByte { at: 4 }),
        (b") ;\x0b".as_slice(), ReadFault::BadByte { at: 3 }),
        (b"a)".as_slice(), ReadFault::Unbalanced { at: 1 }),
        (b"(a))(".as_slice(), ReadFault::Unbalanced { at: 3 }),
        (b"((a)".as_slice(), ReadFault::Unbalanced { at: 4 }),
        (b"(;)\n".as_slice(), ReadFault::Unbalanced { at: 4 }),
    ];
    for (text, want) in cases {
        assert_eq!(rt; read(rt.alloc(), text).err(), Some(want), "at {text:?}");
    }
}

#[test]
fn nests_to_the_limit(rt: HostRuntime) -> Result<(), Fail> {
    let mut text = Vec::new(rt.alloc());
    for _ in 0..250 {
        text.push(b'(')?;
    }
    let fault = read(rt.alloc(), text.as_slice()).err();
    assert_eq!(rt; fault, Some(ReadFault::Unbalanced { at: 250 }));
    text.push(b'(')?;
    let fault = read(rt.alloc(), text.as_slice()).err();
    assert_eq!(rt; fault, Some(ReadFault::Deep { at: 250 }));
    text.pop();
    for _ in 0..250 {
        text.push(b')')?;
    }
    text.push(b'\n')?;
    let forest = read(rt.alloc(), text.as_slice())?;
    let printed = print(rt.alloc(), &forest)?;
    assert_eq!(rt; printed.as_slice(), text.as_slice());
    Ok(())
}

#[test]
fn builds_a_forest(rt: HostRuntime) -> Result<(), Fail> {
    let mut inner = Forest::new(rt.alloc());
    assert!(rt; inner.is_empty());
    inner.push(Tree::Atom(Text::from_slice(rt.alloc(), b"b")?))?;
    inner.push(Tree::List(Forest::new(rt.alloc())))?;
    let mut trees = Vec::new(rt.alloc());
    trees.push(Tree::List(inner))?;
    trees.push(Tree::Atom(Text::from_slice(rt.alloc(), b"c")?))?;
    let forest = Forest::from_vec(trees);
    assert_eq!(rt; forest.len(), 2);
    assert!(rt; forest.is_printable());
    let printed = print(rt.alloc(), &forest)?;
    assert_eq!(rt; printed.as_slice(), b"(b ())\nc\n".as_slice());
    let mut trees = forest.into_vec();
    assert_eq!(rt; trees.len(), 2);
    trees.push(Tree::Atom(Text::new(rt.alloc())))?;
    assert!(rt; !Forest::from_vec(trees).is_printable());
    Ok(())
}

#[test]
fn tells_its_faults(rt: HostRuntime) -> Result<(), Fail> {
    let cases = [
        (
            ReadFault::BadByte { at: 7 },
            "byte 7 is outside the alphabet",
        ),
        (
            ReadFault::Deep { at: 7 },
            "the bracket at byte 7 opens more than 250 lists",
        ),
        (
            ReadFault::Unbalanced { at: 7 },
            "a bracket has no partner at byte 7",
        ),
        (ReadFault::Memory, "out of memory"),
    ];
    for (fault, want) in cases {
        assert_eq!(rt; format!(in rt.alloc(); "{fault}")?.as_str(), want);
    }
    assert_eq!(rt;
        format!(in rt.alloc(); "{}", PrintFault::Memory)?.as_str(),
        "out of memory"
    );
    Ok(())
}

/// The piece so many times.
fn repeated(alloc: Global, piece: &[u8], count: usize) -> Result<Vec<u8>, AllocError> {
    let mut text = Vec::new(alloc);
    for _ in 0..count {
        text.extend_from_slice(piece)?;
    }
    Ok(text)
}

fn is_printed_as_read(alloc: Global, text: &[u8]) -> Result<bool, Fail> {
    let forest = read(alloc, text)?;
    let printed = print(alloc, &forest)?;
    Ok(printed.as_slice() == text)
}

#[test]
fn reads_many_trees_and_long_words(rt: HostRuntime) -> Result<(), Fail> {
    let trees = repeated(rt.alloc(), b"a\n", 5000)?;
    assert!(rt; is_printed_as_read(rt.alloc(), &trees)?);
    let mut word = repeated(rt.alloc(), b"a", 5000)?;
    word.push(b'\n')?;
    assert!(rt; is_printed_as_read(rt.alloc(), &word)?);
    Ok(())
}
