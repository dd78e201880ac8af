//! Sizes at which a limit that nobody wrote down would show.
use crate::built::{add_name, add_number, var};
use crate::over::{is_number, over};
use kid_sorting::SortFault;
use kid_value::{Names, Values};
use std::alloc::Global;

// so many times the name a, and then z
fn names(alloc: Global, count: u32) -> Result<Names, SortFault> {
    let mut names = Names::new(alloc);
    for _ in 0..count {
        add_name(alloc, &mut names, "a")?;
    }
    add_name(alloc, &mut names, "z")?;
    Ok(names)
}

// so many times 1, and then 7
fn values(alloc: Global, count: u32) -> Result<Values, SortFault> {
    let mut values = Values::new(alloc);
    for _ in 0..count {
        add_number(&mut values, 1)?;
    }
    add_number(&mut values, 7)?;
    Ok(values)
}

fn is_last_found(alloc: Global, count: u32) -> bool {
    let (names, values) = (names(alloc, count), values(alloc, count));
    is_number(&over(alloc, &names, &values, &var(alloc, "z")), 7)
}

#[test]
fn finds_the_last_of_many_names(rt: HostRuntime) {
    assert!(rt; is_last_found(rt.alloc(), 1000));
}
