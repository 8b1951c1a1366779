use book_rule_tests::{alone, many};
use std::alloc::AllocError;
use std::test::Fail;

/// The roll has each thread's lines.
#[test]
fn eight_threads(rt: HostRuntime) -> Result<(), Fail> {
    for _ in 0..20 {
        match many(&rt, rt.alloc(), 8, 2000, 0) {
            Some(whole) => {
                let told = (whole.roll.len(), whole.roll.callers());
                drop(whole);
                assert!(rt; told == (16016, 8));
            }
            None => return Err(AllocError.into()),
        }
    }
    Ok(())
}

#[test]
fn one_thread(rt: HostRuntime) -> Result<(), Fail> {
    match alone(&rt, rt.alloc(), 7, 1000, 0) {
        Some(roll) => assert_eq!(rt; roll.len(), 1002),
        None => return Err(AllocError.into()),
    }
    Ok(())
}
