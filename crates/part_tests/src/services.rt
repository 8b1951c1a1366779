//! Services that come, get other texts, and leave.
ghost use Rattle.std.specs.Prelude.{◌≡◌, ◌<◌, ◌++◌, ◌∷◌, [], IfOk, OnOk};
ghost use Rattle.std.specs.List.{AllByRecursion};

use record_table::RecordTable;
use scm_model::{Config, Service, zero_status};
use scm_text::OutOfMemory;
use std::alloc::Global;
use std::mem::replace;
use std::test::Fail;
use test_values::{text, unnamed};

/// The name, the display name and the group of a service.
type Texts = (&'static str, &'static str, &'static str);

fn config(alloc: Global, (name, display, group): Texts) -> Result<Config, OutOfMemory> {
    let (Ok(name), Ok(display), Ok(group)) = (
        text(alloc, name),
        text(alloc, display),
        text(alloc, group),
    ) else {
        return Err(OutOfMemory);
    };
    let mut config = unnamed(alloc);
    drop(replace(&mut config.name, name));
    drop(replace(&mut config.display, display));
    drop(replace(&mut config.group, group));
    Ok(config)
}

/// A service with these texts.
fn made(alloc: Global, number: u64, texts: Texts) -> Result<Service, OutOfMemory>
    ensures { IfOk result (λ row. row.number ≡ number) }
{
    Ok(Service::new(alloc, number, config(alloc, texts)?, zero_status()))
}

/// A service comes.
fn put(table: &mut RecordTable, row: Service) -> Result<(), OutOfMemory>
    requires { AllByRecursion (λ other. other.number < row.number) table.old.services }
    ensures { OnOk result (table.new.services ≡ table.old.services ++ row ∷ []) }
{
    match table.reserve(&row.config) {
        Ok(()) => {
            table.insert(row);
            Ok(())
        }
        Err(why) => {
            drop(row);
            Err(why)
        }
    }
}

/// A service comes into an empty table and leaves. Whether it was found while it was there, and not
/// after that.
fn comes_and_leaves(table: &mut RecordTable, row: Service) -> Result<bool, OutOfMemory>
    requires { table.old.services ≡ [] }
    ensures { OnOk result (table.new.services ≡ []) }
{
    let number = row.number;
    put(table, row)?;
    let was_there = table.get(number).is_some() && table.len() == 1;
    let gone = table.remove(number);
    let left = gone.is_some();
    drop(gone);
    Ok(was_there && left && table.get(number).is_none())
}

/// Whether so many services in turn are found while they are there, and not after that.
fn are_found_in_turn(
    alloc: Global,
    table: &mut RecordTable,
    turns: u64,
) -> Result<bool, OutOfMemory>
    requires { table.old.services ≡ [] }
{
    for number in 1..turns {
        let row = made(alloc, number, ("Web", "Shop", "front"))?;
        if !comes_and_leaves(table, row)? {
            return Ok(false);
        }
    }
    Ok(true)
}

fn so(is_so: Result<bool, OutOfMemory>) -> Result<(), Fail> {
    match is_so {
        Ok(true) => Ok(()),
        Ok(false) => Err("one isn't found, or another is".into()),
        Err(_) => Err("no memory".into()),
    }
}

#[test]
fn who_left_is_found_no_more(rt: HostRuntime) -> Result<(), Fail> {
    match RecordTable::new(rt.alloc()) {
        Ok(mut table) => {
            let told = are_found_in_turn(rt.alloc(), &mut table, 513);
            drop(table);
            so(told)
        }
        Err(_) => so(Err(OutOfMemory)),
    }
}

/// What a table is asked.
#[derive(Clone, Copy)]
enum Look {
    Name(&'static str),
    Display(&'static str),
    /// A place in a group.
    Member(&'static str, usize),
    After(u64),
}

/// The service that a look finds.
fn found(alloc: Global, table: &RecordTable, look: Look) -> Result<Option<u64>, OutOfMemory> {
    Ok(match look {
        Look::Name(name) => table.by_name(&text(alloc, name)?),
        Look::Display(display) => table.by_display(&text(alloc, display)?),
        Look::Member(group, place) => table.member_at(&text(alloc, group)?, place),
        Look::After(number) => table.after(number),
    })
}

/// Three services of one group come, of which the first is renamed and leaves the group, and the
/// second leaves.
fn rename_one(alloc: Global, table: &mut RecordTable) -> Result<(), OutOfMemory>
    requires { table.old.services ≡ [] }
{
    put(table, made(alloc, 1, ("Web", "Shop", "front"))?)?;
    put(table, made(alloc, 2, ("Mail", "Post", "Front"))?)?;
    put(table, made(alloc, 3, ("Db", "Store", "FRONT"))?)?;
    rename(table, 1, config(alloc, ("Site", "SHOP", ""))?)?;
    drop(table.remove(2));
    Ok(())
}

/// A service gets other texts.
fn rename(table: &mut RecordTable, number: u64, config: Config) -> Result<(), OutOfMemory> {
    match table.reserve(&config) {
        Ok(()) => {
            drop(table.replace(number, config));
            Ok(())
        }
        Err(why) => {
            drop(config);
            Err(why)
        }
    }
}

/// A look, and the service that is found.
const LOOKS: [(Look, Option<u64>); 11] = [
    (Look::Name("site"), Some(1)),
    (Look::Name("Web"), None),
    (Look::Name("DB"), Some(3)),
    (Look::Name("Mail"), None),
    (Look::Display("shop"), Some(1)),
    (Look::Display("Post"), None),
    (Look::Member("front", 0), Some(3)),
    (Look::Member("front", 1), None),
    (Look::Member("", 0), Some(1)),
    (Look::After(1), Some(3)),
    (Look::After(3), None),
];

fn are_found(alloc: Global, table: &RecordTable) -> Result<bool, OutOfMemory> {
    for (look, want) in LOOKS {
        if found(alloc, table, look)? != want {
            return Ok(false);
        }
    }
    Ok(true)
}

fn are_found_by_texts(alloc: Global, table: &mut RecordTable) -> Result<bool, OutOfMemory>
    requires { table.old.services ≡ [] }
{
    rename_one(alloc, table)?;
    are_found(alloc, table)
}

#[test]
fn a_service_is_found_by_the_texts_that_it_has(rt: HostRuntime) -> Result<(), Fail> {
    match RecordTable::new(rt.alloc()) {
        Ok(mut table) => {
            let told = are_found_by_texts(rt.alloc(), &mut table);
            drop(table);
            so(told)
        }
        Err(_) => so(Err(OutOfMemory)),
    }
}
