//! Files that memory holds.
use kid_outer::{LoadAnswer, MemoryStore, SaveAnswer, SteadyStore, Store};
use std::test::Fail;

fn holds(store: &MemoryStore, name: &str, bytes: &[u8]) -> bool {
    match store.held(name) {
        Some(held) => held == bytes,
        None => false,
    }
}

#[test]
fn holds_what_was_saved_last(rt: HostRuntime) -> Result<(), Fail> {
    let alloc = rt.alloc();
    let mut store = SteadyStore::new(alloc);
    store.hold("a", b"first")?;
    store.hold("a", b"second")?;
    store.save(alloc, "b", b"third")?;
    assert_eq!(rt; store.load(alloc, "a", 6)?.as_slice(), b"second".as_slice());
    assert_eq!(rt; store.held("b"), Some(b"third".as_slice()));
    Ok(())
}

#[test]
fn holds_many_names(rt: HostRuntime) -> Result<(), Fail> {
    let alloc = rt.alloc();
    let mut store = MemoryStore::new(alloc, Vec::new(alloc));
    for number in 0..40u8 {
        let name = format!(in alloc; "{number}")?;
        store.save(alloc, &name, name.as_bytes())?;
    }
    assert!(rt; holds(&store, "0", b"0") && holds(&store, "39", b"39"));
    Ok(())
}

#[test]
fn fails_at_the_listed_calls(rt: HostRuntime) -> Result<(), Fail> {
    let alloc = rt.alloc();
    let mut store = MemoryStore::new(alloc, vec![in alloc; 1, 3]?);
    store.hold("a", b"first")?;
    assert!(rt; matches!(store.load(alloc, "a", 5), Err(LoadAnswer::Failed)));
    assert_eq!(rt; store.load(alloc, "a", 5)?.as_slice(), b"first".as_slice());
    assert!(rt; matches!(store.save(alloc, "a", b"second"), Err(SaveAnswer::Failed)));
    assert_eq!(rt; store.held("a"), Some(b"first".as_slice()));
    store.save(alloc, "a", b"second")?;
    assert_eq!(rt; store.held("a"), Some(b"second".as_slice()));
    Ok(())
}
