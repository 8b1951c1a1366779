use crate::values::{append, keeper, name, plain};
use record_journal::{Journal, MemoryKeeper};
use scm_model::{Change, Config, Need, Trigger};
use scm_text::{Items, OutOfMemory};
use std::alloc::Global;
use std::mem::replace;
use std::test::*;
use test_values::{append_ascii, restart, text, unnamed};

/// What a journal begins with.
pub const HEADER: &[u8] = &[0x53, 0x43, 0x4D, 0x4A, 2, 0, 0, 0];

/// What a journal of form 1 begins with.
pub const HEADER_1: &[u8] = &[0x53, 0x43, 0x4D, 0x4A, 1, 0, 0, 0];

/// What ends form 1.
pub const SWITCH: &[u8] = &[4, 0, 0, 0, 0];

/// The header, and the removal of `Db`.
const HEADER_AND_REMOVED: &[u8] = &[
    0x53, 0x43, 0x4D, 0x4A, 2, 0, 0, 0, // header
    3, 8, 0, 0, 0, // a removal, and how many bytes follow
    2, 0, 0, 0, 0x44, 0, 0x62, 0, // name
];

/// The creation of `A`.
pub const CREATED: &[u8] = &[
    1, 0x42, 0, 0, 0, // a creation, and how many bytes follow
    1, 0, 0, 0, 0x41, 0, // name
    1, 0, 0, 0, 0x41, 0, // display name
    0x10, 0, 0, 0, // type
    3, 0, 0, 0, // start
    1, 0, 0, 0, // error control
    2, 0, 0, 0, 0x2F, 0, 0x61, 0, // path
    0, 0, 0, 0, // group
    0, 0, 0, 0, // tag
    0, 0, 0, 0, // needs
    0, 0, 0, 0, // description
    0, 0, 0, 0, // reset period
    0, 0, 0, 0, // actions
    0, 0, 0, 0, // command
    0, // whether a stop with an error is a failure
    0, // whether the start is delayed
    0, 0, 0, 0, // triggers
];

/// The change of `W`.
const CHANGED: &[u8] = &[
    2, 0x76, 0, 0, 0, // a change, and how many bytes follow
    1, 0, 0, 0, 0x57, 0, // name
    1, 0, 0, 0, 0x57, 0, // display name
    0x10, 0, 0, 0, // type
    3, 0, 0, 0, // start
    1, 0, 0, 0, // error control
    3, 0, 0, 0, 0x78, 0, 0x20, 0, 0x79, 0, // path
    1, 0, 0, 0, 0x47, 0, // group
    5, 1, 0, 0, // tag
    2, 0, 0, 0, // needs: a service and a group
    0, 2, 0, 0, 0, 0x44, 0, 0x62, 0, //
    1, 1, 0, 0, 0, 0x4E, 0, //
    1, 0, 0, 0, 0x64, 0, // description
    0xFF, 0xFF, 0xFF, 0xFF, // reset period
    1, 0, 0, 0, 1, 0, 0, 0, 0xE8, 3, 0, 0, // actions
    1, 0, 0, 0, 0x63, 0, // command
    1, // whether a stop with an error is a failure
    1, // whether the start is delayed
    1, 0, 0, 0, 1, 0, 0, 0, // triggers: how many, and what the first does
    0xF, 0xE, 0xD, 0xC, 0xB, 0xA, 9, 8, 7, 6, 5, 4, 3, 2, 1, 0, // its subtype
];

/// What starts `W`.
const TRIGGER: Trigger = Trigger {
    action: 1,
    subtype: [0xF, 0xE, 0xD, 0xC, 0xB, 0xA, 9, 8, 7, 6, 5, 4, 3, 2, 1, 0],
};

fn removed(alloc: Global) -> Result<Change, OutOfMemory> {
    Ok(Change::Removed(text(alloc, "Db")?))
}

fn created(alloc: Global) -> Result<Change, OutOfMemory> {
    Ok(Change::Created(plain(alloc)?))
}

/// The service `Db` and the group `N`.
fn needs(alloc: Global) -> Result<Items<Need>, OutOfMemory> {
    let (Ok(service), Ok(group)) = (text(alloc, "Db"), text(alloc, "N")) else {
        return Err(OutOfMemory);
    };
    match Vec::from_array(alloc, [Need::Service(service), Need::Group(group)]) {
        Ok(needs) => Ok(Items::from_vec(needs)),
        Err(_) => Err(OutOfMemory),
    }
}

/// A service that needs another and a group, is restarted at failures and has a trigger, but for
/// its texts.
fn needing(alloc: Global) -> Result<Config, OutOfMemory> {
    let (Ok(needs), Ok(actions)) = (needs(alloc), restart(alloc)) else {
        return Err(OutOfMemory);
    };
    let Ok(triggers) = Vec::from_array(alloc, [TRIGGER]) else {
        return Err(OutOfMemory);
    };
    let mut config = unnamed(alloc);
    config.tag = 0x105;
    config.reset = 0xFFFF_FFFF;
    config.on_exit = true;
    config.delayed = true;
    drop(replace(&mut config.needs, needs));
    drop(replace(&mut config.actions, actions));
    drop(replace(&mut config.triggers, Items::from_vec(triggers)));
    Ok(config)
}

/// Its texts.
fn fill(config: &mut Config) -> Result<(), OutOfMemory> {
    name(config, "W", "x y")?;
    append_ascii(&mut config.group, "G")?;
    append_ascii(&mut config.description, "d")?;
    append_ascii(&mut config.command, "c")
}

fn changed(alloc: Global) -> Result<Change, OutOfMemory> {
    let mut config = needing(alloc)?;
    match fill(&mut config) {
        Ok(()) => Ok(Change::Changed(config)),
        Err(why) => {
            drop(config);
            Err(why)
        }
    }
}

/// Appends a change, and says whether these bytes are more then.
fn adds(
    alloc: Global,
    journal: &mut Journal,
    keeper: &mut MemoryKeeper,
    change: Change,
    want: &[u8],
) -> bool {
    let before = keeper.bytes().len();
    append(alloc, journal, keeper, change).is_ok() && keeper.bytes().get(before..) == Some(want)
}

/// Whether the entries of three changes have the stated bytes.
fn are_stated(alloc: Global, keeper: &mut MemoryKeeper) -> Result<bool, OutOfMemory> {
    let mut journal = Journal::empty();
    let is_removed = adds(
        alloc,
        &mut journal,
        keeper,
        removed(alloc)?,
        HEADER_AND_REMOVED,
    );
    let is_created = adds(alloc, &mut journal, keeper, created(alloc)?, CREATED);
    let is_changed = adds(alloc, &mut journal, keeper, changed(alloc)?, CHANGED);
    Ok(is_removed && is_created && is_changed)
}

#[test]
fn entries_have_the_stated_bytes(rt: HostRuntime) -> Result<(), Fail> {
    let mut keeper = keeper(rt.alloc(), &[], 0, &[])?;
    let are_stated = are_stated(rt.alloc(), &mut keeper);
    drop(keeper);
    assert!(rt; are_stated?);
    Ok(())
}
