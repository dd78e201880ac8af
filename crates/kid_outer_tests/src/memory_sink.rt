//! What is put into memory.
use kid_outer::{MemorySink, PutAnswer, Sink, SteadySink};
use std::test::Fail;

#[test]
fn keeps_what_was_put(rt: HostRuntime) -> Result<(), Fail> {
    let mut sink = SteadySink::new(rt.alloc());
    sink.put(rt.alloc(), b"one")?;
    sink.put(rt.alloc(), b"two")?;
    assert_eq!(rt; sink.written(), b"onetwo".as_slice());
    Ok(())
}

#[test]
fn keeps_a_front_at_the_listed_calls(rt: HostRuntime) -> Result<(), Fail> {
    let alloc = rt.alloc();
    let failing = vec![in alloc; (2, 2), (3, 9), (2, 0)]?;
    let mut sink = MemorySink::new(alloc, failing);
    sink.put(alloc, b"one")?;
    assert!(rt; matches!(sink.put(alloc, b"two"), Err(PutAnswer::Failed)));
    assert!(rt; matches!(sink.put(alloc, b"three"), Err(PutAnswer::Failed)));
    sink.put(alloc, b"four")?;
    assert_eq!(rt; sink.written(), b"onetwthreefour".as_slice());
    Ok(())
}
