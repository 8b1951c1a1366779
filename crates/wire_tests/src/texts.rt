use crate::bytes::{text, units};
use scm_text::{TextRoom, WText, read_multi};
use std::alloc::Global;
use std::test::Fail;

/// Appends a name, in brackets.
fn show(alloc: Global, name: &WText, all: &mut String) -> Result<(), Fail> {
    let inside = String::from_utf16_lossy(alloc, name.units())?;
    all.push_str("[")?;
    all.push_str(inside.as_str())?;
    all.push_str("]")?;
    Ok(())
}

/// The names of a list, or why it is none.
fn told(alloc: Global, list: &str) -> Result<String, Fail> {
    match read_multi(alloc, units(alloc, list)?.as_slice()) {
        Ok(names) => {
            let mut all = String::new(alloc);
            for name in names.as_slice() {
                show(alloc, name, &mut all)?;
            }
            Ok(all)
        }
        Err(fault) => Ok(format!(in alloc; "{fault}")?),
    }
}

#[test]
fn names_are_read_up_to_the_empty_one(rt: HostRuntime) -> Result<(), Fail> {
    let rows = [
        ("A\0+b\0\0?", "[A][+b]"),
        ("\0", ""),
        ("A\0+\0\0", "the name at 2 is `+` alone"),
        ("A\0+b\0", "the list isn't terminated"),
    ];
    for (list, want) in rows {
        assert_eq!(rt; told(rt.alloc(), list)?.as_str(), want);
    }
    Ok(())
}

#[test]
fn a_text_is_set_within_its_room(rt: HostRuntime) -> Result<(), Fail> {
    let long = text(rt.alloc(), "abc")?;
    let short = text(rt.alloc(), "+")?;
    let mut room = TextRoom::new(rt.alloc(), 3).ok().ok_or("memory")?;
    assert_eq!(rt; room.units(), [].as_slice());
    assert!(rt; long.units().len() <= 3 && short.units().len() <= 3);
    room.set(&long);
    assert_eq!(rt; room.units(), long.units());
    room.set(&short);
    assert_eq!(rt; room.into_text().units(), short.units());
    Ok(())
}
