//! The files of the system.
use kid_outer::{Files, LoadAnswer, SaveAnswer, Store};
use std::test::Fail;
use std::{fs, process};

#[test]
fn loads_what_was_saved(rt: HostRuntime) -> Result<(), Fail> {
    let alloc = rt.alloc();
    let name = format!(in alloc; "/tmp/kid-outer-{}", process::id(rt.process()))?;
    let mut files = Files::new(&rt);
    files.save(alloc, &name, b"a longer text")?;
    files.save(alloc, &name, b"four")?;
    assert_eq!(rt; files.load(alloc, &name, 4)?.as_slice(), b"four".as_slice());
    assert!(rt; matches!(files.load(alloc, &name, 3), Err(LoadAnswer::Large)));
    fs::remove_file(&rt, name.as_str())?;
    assert!(rt; matches!(files.load(alloc, &name, 4), Err(LoadAnswer::Absent)));
    Ok(())
}

#[test]
fn counts_each_fault(rt: HostRuntime) {
    let alloc = rt.alloc();
    let mut files = Files::new(&rt);
    assert!(rt; matches!(files.load(alloc, "/tmp", 4), Err(LoadAnswer::Failed)));
    assert!(rt; matches!(files.save(alloc, "/tmp", b"four"), Err(SaveAnswer::Failed)));
}

#[test]
fn stops_beyond_the_limit(rt: HostRuntime) {
    let mut files = Files::new(&rt);
    let endless = files.load(rt.alloc(), "/dev/zero", 100_000);
    assert!(rt; matches!(endless, Err(LoadAnswer::Large)));
}
