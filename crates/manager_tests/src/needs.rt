//! Whom the manager's index lends, and how many services are looked at, where a few of many name
//! one.
ghost use Rattle.std.specs.Prelude.{◌≡◌};
ghost use Rattle.scm_replay.specs.Replay.{IsFresh};

use crate::limits::{LIMITS, new_manager};
use crate::replays::run;
use dependency_index::{DependencyIndex, StateLook, Steps};
use outside::MemorySink;
use scm_core::Manager;
use scm_replay::Replayed;
use scm_text::WText;
use std::alloc::{AllocError, Global};
use std::cell::Cell;
use std::marker::Brand;
use std::sync::ledger::{Blank, Ledger};
use std::test::Fail;

/// An administrator joins and opens the manager.
const BEGIN: &str = "0 join admin\n0 call 1 15 00000000000000003f000f00\n";

/// The creation of a service, up to its name, whose one unit follows.
const CREATE: &str = "0 call 1 12 0000000001000000000000000000000000000000020000000000000002000000";

/// After the name: an own process, started on demand, its path, no group and no tag.
const PATH: &str = "000000000000ff010f0010000000030000000100000002000000000000000200000070000000\
    0000000000000000";

/// It needs nothing, and has no account.
const FREE: &str = "0000000000000000000000000000000000000000\n";

/// It needs the service `B`, and has no account.
const NEEDS_B: &str = "000002000600000042000000000000000600000000000000\
    0000000000000000\n";

/// The services that need `B`, among 512 of which `B` is the first.
const NAMING: [u64; 3] = [101, 202, 512];

const DIGITS: [&str; 16] = [
    "0", "1", "2", "3", "4", "5", "6", "7", "8", "9", "a", "b", "c", "d", "e", "f",
];

fn push_byte(lines: &mut String, byte: u64) -> Result<(), AllocError> {
    lines.push_str(DIGITS[(byte / 16 % 16) as usize])?;
    lines.push_str(DIGITS[(byte % 16) as usize])
}

/// The creation of the service with a number, whose name is a letter of its own.
fn push_creation(lines: &mut String, number: u64) -> Result<(), AllocError> {
    let unit = if number == 1 {
        0x42
    } else {
        number.wrapping_add(0x4100)
    };
    lines.push_str(CREATE)?;
    push_byte(lines, unit)?;
    push_byte(lines, unit >> 8)?;
    lines.push_str(PATH)?;
    lines.push_str(if NAMING.contains(&number) {
        NEEDS_B
    } else {
        FREE
    })
}

fn push_creations(lines: &mut String) -> Result<(), AllocError> {
    lines.push_str(BEGIN)?;
    for number in 1..513 {
        push_creation(lines, number)?;
    }
    Ok(())
}

/// Each service runs. Looks are counted.
#[derive(Drop)]
struct AllRun {
    looks: Cell<u32>,
}

impl StateLook for AllRun {
    ghost state_of = { λ self service. 4 };

    fn state_of<L: Ledger>(&self, _service: u64, steps: &mut Steps<L>) -> u32 {
        steps.tick();
        self.looks.set(self.looks.get().wrapping_add(1));
        4
    }
}

/// How many services keep a STOP of the first one away, and how many were looked at for it.
fn active<L: Ledger>(index: &DependencyIndex, blank: Blank) -> (u32, u32)
    requires name { blank.name ≡ L.name }
    requires parts { blank.parts ≡ L.parts }
    requires one { blank.parts ≡ 1 }
{
    let states = AllRun {
        looks: Cell::new(0),
    };
    let mut steps = Steps::<L>::open(blank);
    let active = index.active_dependents(1, &states, &mut steps);
    (active, states.looks.get())
}

/// Makes the steps of the lines. The answers are let go.
fn has_run(alloc: Global, manager: &mut Manager, lines: &str) -> Result<bool, AllocError>
    requires { IsFresh manager.old }
{
    let mut output = MemorySink::new(alloc, Vec::new(alloc));
    let ended = run(alloc, manager, lines, &mut output);
    drop(output);
    Ok(ended? == Replayed::Ended)
}

fn is_lent(manager: &Manager, name: &WText) -> bool {
    let index = manager.index();
    index.named_by(name) == NAMING.as_slice()
        && index.members(name).is_empty()
        && active::<Brand>(index, Blank::new(1)) == (3, 3)
}

/// Whether a manager that makes the steps of the lines lends what it should then.
fn lends(
    alloc: Global,
    manager: &mut Manager,
    lines: &str,
    name: &WText,
) -> Result<bool, AllocError>
    requires { IsFresh manager.old }
{
    let ended = has_run(alloc, manager, lines)?;
    Ok(ended && is_lent(manager, name))
}

/// Fails unless a new manager does so.
fn expect(alloc: Global, lines: &str, name: &WText) -> Result<(), Fail> {
    match new_manager(alloc, LIMITS) {
        Ok(mut manager) => {
            let lent = lends(alloc, &mut manager, lines, name);
            manager.close();
            so(lent)
        }
        Err(_) => Err("no memory".into()),
    }
}

fn so(is_lent: Result<bool, AllocError>) -> Result<(), Fail> {
    match is_lent {
        Ok(true) => Ok(()),
        Ok(false) => Err("others are lent, or more are looked at".into()),
        Err(_) => Err("no memory".into()),
    }
}

#[test]
fn three_of_many_name_a_service_and_no_more_are_looked_at(rt: HostRuntime) -> Result<(), Fail> {
    let mut lines = String::new(rt.alloc());
    push_creations(&mut lines)?;
    let Ok(name) = WText::from_units(rt.alloc(), &[0x62]) else {
        return Err("no memory".into());
    };
    let expected = expect(rt.alloc(), lines.as_str(), &name);
    drop(name);
    expected
}
