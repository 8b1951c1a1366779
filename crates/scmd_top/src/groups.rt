//! The groups whose services start first.
ghost use Rattle.std.specs.Prelude.{◌≡◌, ◌++◌, [], IfOk, OnOk};
ghost use Rattle.scmd_top.specs.Groups.{group_named, groups_in, groups_of};
ghost use Rattle.scmd_top.specs.Parts.{lent};

use sc_words::word_text;
use scm_text::{Items, OutOfMemory, WText};
use std::alloc::Global;

/// Adds the group with a name.
fn add_group(alloc: Global, groups: &mut Items<WText>, name: &str) -> Result<(), OutOfMemory>
    ensures { OnOk result (groups.new ≡ groups.old ++ group_named name.now) }
{
    match word_text(alloc, name)? {
        Some(group) => match groups.push(group) {
            Ok(()) => Ok(()),
            Err(full) => {
                drop(full);
                Err(OutOfMemory)
            }
        },
        None => Ok(()),
    }
}

/// Adds the groups of a list, in order, to none.
fn add_groups(alloc: Global, groups: &mut Items<WText>, list: &str) -> Result<(), OutOfMemory>
    requires none { groups.old ≡ [] }
    ensures { OnOk result (groups.new ≡ groups_of list.now) }
{
    for name in list.split(',') {
        add_group(alloc, groups, name)?;
    }
    Ok(())
}

/// The groups of a list, in order.
fn groups_of(alloc: Global, list: &str) -> Result<Items<WText>, OutOfMemory>
    ensures { IfOk result (λ groups. groups ≡ groups_of list.now) }
{
    let mut groups = Items::new(alloc);
    match add_groups(alloc, &mut groups, list) {
        Ok(()) => Ok(groups),
        Err(fault) => {
            drop(groups);
            Err(fault)
        }
    }
}

/// The groups of a list, if there is one.
pub fn groups_in(alloc: Global, list: Option<&str>) -> Result<Items<WText>, OutOfMemory>
    ensures { IfOk result (λ groups. groups ≡ groups_in (lent list.entry)) }
{
    match list {
        Some(list) => groups_of(alloc, list),
        None => Ok(Items::new(alloc)),
    }
}
