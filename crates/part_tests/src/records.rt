use crate::values::{Needed, append_units, needs};
use scm_model::{Config, Trigger};
use scm_text::{Items, OutOfMemory};
use service_record::{
    RecordFault, check_change, check_new, read_record, read_record_1, record_bytes,
};
use std::alloc::{AllocError, Global};
use std::mem::replace;
use std::test::Fail;
use test_values::{append_ascii, restart, text, unnamed};

/// The configuration of a service `x` that runs `y z`, needs the group `g`, is restarted a second
/// after a failure, and is stopped by a trigger.
const RECORD: [u8; 105] = [
    1, 0, 0, 0, 0x78, 0, // name
    0, 0, 0, 0, // display name
    0x10, 0, 0, 0, // type
    3, 0, 0, 0, // start
    1, 0, 0, 0, // error control
    3, 0, 0, 0, 0x79, 0, 0x20, 0, 0x7A, 0, // path
    1, 0, 0, 0, 0x68, 0, // group
    5, 1, 0, 0, // tag
    1, 0, 0, 0, 1, 1, 0, 0, 0, 0x67, 0, // needs
    0, 0, 0, 0, // description
    0xFF, 0xFF, 0xFF, 0xFF, // reset period
    1, 0, 0, 0, 1, 0, 0, 0, 0xE8, 3, 0, 0, // actions
    1, 0, 0, 0, 0x63, 1, // command
    1, // whether a stop with an error is a failure
    1, // whether the start is delayed
    1, 0, 0, 0, 2, 0, 0, 0, // triggers: how many, and what the first does
    0, 1, 2, 3, 4, 5, 6, 7, 8, 9, 10, 11, 12, 13, 14, 15, // its subtype
];

/// How many of its bytes form 1 has.
const OLD: usize = 80;

/// What stops it.
const TRIGGER: Trigger = Trigger {
    action: 2,
    subtype: [0, 1, 2, 3, 4, 5, 6, 7, 8, 9, 10, 11, 12, 13, 14, 15],
};

/// The configuration, but for its texts, its delayed start and its trigger.
fn untold(alloc: Global) -> Result<Config, OutOfMemory> {
    let (Ok(needs), Ok(actions)) = (needs(alloc, &[Needed::Group("g")]), restart(alloc)) else {
        return Err(OutOfMemory);
    };
    let mut config = unnamed(alloc);
    config.on_exit = true;
    config.tag = 0x105;
    config.reset = 0xFFFF_FFFF;
    drop(replace(&mut config.needs, needs));
    drop(replace(&mut config.actions, actions));
    Ok(config)
}

/// Its texts: a name, and a path that ends in units.
fn fill(config: &mut Config, name: &str, path: &str, more: &[u16]) -> Result<(), OutOfMemory> {
    append_ascii(&mut config.name, name)?;
    append_ascii(&mut config.path, path)?;
    append_units(&mut config.path, more)?;
    append_ascii(&mut config.group, "h")?;
    append_units(&mut config.command, &[0x163])
}

/// The configuration of a service with this name that runs this path, and else the same.
fn configured(alloc: Global, name: &str, path: &str, more: &[u16]) -> Result<Config, OutOfMemory> {
    let mut config = untold(alloc)?;
    match fill(&mut config, name, path, more) {
        Ok(()) => Ok(config),
        Err(why) => {
            drop(config);
            Err(why)
        }
    }
}

/// The same configuration, but for its name.
fn sample(alloc: Global, name: &str) -> Result<Config, OutOfMemory> {
    configured(alloc, name, "y z", &[])
}

/// Delays its start, and has a trigger stop it.
fn extend(alloc: Global, config: &mut Config) -> Result<(), OutOfMemory> {
    let Ok(triggers) = Vec::from_array(alloc, [TRIGGER]) else {
        return Err(OutOfMemory);
    };
    config.delayed = true;
    drop(replace(&mut config.triggers, Items::from_vec(triggers)));
    Ok(())
}

/// Whether a configuration has the stated bytes.
fn is_stated(alloc: Global, config: &Config) -> bool {
    match record_bytes(alloc, config) {
        Ok(bytes) => bytes.as_slice() == RECORD.as_slice(),
        Err(_) => false,
    }
}

fn is_written(alloc: Global) -> bool {
    match sample(alloc, "x") {
        Ok(mut config) => {
            let is_stated = extend(alloc, &mut config).is_ok() && is_stated(alloc, &config);
            drop(config);
            is_stated
        }
        Err(_) => false,
    }
}

fn is_read(alloc: Global) -> bool {
    match read_record(alloc, &RECORD) {
        Ok(config) => {
            let is_stated = is_stated(alloc, &config);
            drop(config);
            is_stated
        }
        Err(_) => false,
    }
}

/// Whether the bytes of form 1 are read, without a delayed start and without triggers.
fn is_read_in_form_1(alloc: Global) -> bool {
    match read_record_1(alloc, &RECORD[..OLD]) {
        Ok(config) => {
            let is_old = !config.delayed && config.triggers.len() == 0 && config.on_exit;
            drop(config);
            is_old
        }
        Err(_) => false,
    }
}

#[test]
fn a_configuration_has_the_stated_bytes_and_they_are_read(rt: HostRuntime) {
    assert!(rt; is_written(rt.alloc()));
    assert!(rt; is_read(rt.alloc()));
    assert!(rt; is_read_in_form_1(rt.alloc()));
}

/// Where the first wrong item of these bytes begins.
fn first_wrong(alloc: Global, bytes: &[u8]) -> Option<usize> {
    match read_record(alloc, bytes) {
        Ok(config) => {
            drop(config);
            None
        }
        Err(RecordFault::Bad(place)) => Some(place),
        Err(RecordFault::OutOfMemory) => None,
    }
}

/// The record in so many bytes, of which one is another.
fn change(bytes: &mut Vec<u8>, length: usize, place: usize, byte: u8) -> Result<(), AllocError> {
    bytes.resize(length, 0)?;
    if place < bytes.len() {
        bytes[place] = byte;
    }
    Ok(())
}

/// Where the first wrong item of a record begins that is changed so.
fn wrong(alloc: Global, length: usize, place: usize, byte: u8) -> Result<Option<usize>, Fail> {
    let mut bytes = RECORD.to_vec(alloc)?;
    change(&mut bytes, length, place, byte)?;
    Ok(first_wrong(alloc, bytes.as_slice()))
}

#[test]
fn the_first_wrong_item_is_told(rt: HostRuntime) -> Result<(), Fail> {
    // How many bytes, a byte that is another, and where the wrong item begins.
    let rows = [
        (105, 0, 1, None),
        (104, 0, 1, Some(89)),
        (88, 0, 1, Some(85)),
        (84, 0, 1, Some(81)),
        (80, 0, 1, Some(80)),
        (79, 0, 1, Some(79)),
        (78, 0, 1, Some(73)),
        (106, 0, 1, Some(105)),
        // A 0 in the name, a third kind of need, and a start that is neither delayed nor not.
        (105, 4, 0, Some(0)),
        (105, 46, 2, Some(46)),
        (105, 80, 2, Some(80)),
    ];
    for (length, place, byte, want) in rows {
        assert_eq!(rt; wrong(rt.alloc(), length, place, byte)?, want, "{length}");
    }
    Ok(())
}

/// A name, a path and the units at its end, an account, and what they are refused with.
type Row = (
    &'static str,
    &'static str,
    &'static [u16],
    &'static str,
    u32,
);

const REFUSED: [Row; 9] = [
    ("x", "y z", &[], "", 0),
    // Accounts are compared after folding.
    ("x", "y z", &[], "localsystem", 0),
    ("x", "y z", &[], "x", 1057),
    // A backslash is no part of a name, which is looked at before the account.
    ("a\\b", "y z", &[], "", 123),
    ("a\\b", "y z", &[], "x", 123),
    // A path has a first word, which may be quoted.
    ("x", "\"\" x", &[], "", 87),
    ("x", " \" \"", &[], "", 0),
    // A first half of a pair needs its second.
    ("x", "x", &[0xD800], "", 87),
    ("x", "x", &[0xD83D, 0xDE00], "", 0),
];

/// What such a configuration is refused with. `None` if out of memory.
fn refusal_of(alloc: Global, row: Row) -> Option<u32> {
    let (name, path, more, account, _) = row;
    match (configured(alloc, name, path, more), text(alloc, account)) {
        (Ok(config), Ok(account)) => {
            let refusal = check_new(&config, Some(&account));
            drop(config);
            drop(account);
            Some(refusal)
        }
        _ => None,
    }
}

#[test]
fn configurations_are_refused_with_their_codes(rt: HostRuntime) {
    for row in REFUSED {
        assert_eq!(rt; refusal_of(rt.alloc(), row), Some(row.4));
    }
}

/// What changes from a configuration to one with a bad name and back are answered.
fn judged(good: &Config, bad: &Config) -> (u32, u32) {
    (check_change(good, bad, None), check_change(bad, good, None))
}

fn judged_from_the_sample(alloc: Global) -> Option<(u32, u32)> {
    match (sample(alloc, "x"), sample(alloc, "a\\b")) {
        (Ok(good), Ok(bad)) => {
            let judged = judged(&good, &bad);
            drop(good);
            drop(bad);
            Some(judged)
        }
        _ => None,
    }
}

#[test]
fn a_change_is_judged_by_what_it_leads_to(rt: HostRuntime) {
    assert_eq!(rt; judged_from_the_sample(rt.alloc()), Some((123, 0)));
}
