//! Handles that callers get, close and lose.

use handle_table::HandleTable;
use scm_model::{HandleKind, HandleRow};
use scm_text::OutOfMemory;
use std::test::Fail;

/// Two handles of caller 7, of the manager and of service 4, and one of caller 8 of that service.
fn add_three(table: &mut HandleTable) -> Result<(), OutOfMemory> {
    for (caller, kind) in [
        (7, HandleKind::Manager),
        (7, HandleKind::Service(4)),
        (8, HandleKind::Service(4)),
    ] {
        table.reserve()?;
        if table.next() < 1024 {
            let _number = table.add(caller, kind, 0x14);
        }
    }
    Ok(())
}

/// What is known of the table: how many handles callers 7 and 8 have, how many are of service 4,
/// who has handle 3, and what caller 7 was granted by handle 2.
#[derive(Clone, Copy, Debug, PartialEq, Eq)]
struct Known {
    held: (usize, usize),
    of_service: usize,
    owner: Option<u64>,
    granted: Option<u32>,
}

fn granted(row: Option<&HandleRow>) -> Option<u32> {
    match row {
        Some(row) => Some(row.granted),
        None => None,
    }
}

fn seen_in(table: &HandleTable) -> Known {
    Known {
        held: (table.held_by(7), table.held_by(8)),
        of_service: table.count_of(4),
        owner: table.owner(3),
        granted: granted(table.find(7, 2)),
    }
}

/// What takes place.
#[derive(Clone, Copy)]
enum Event {
    Nothing,
    /// A caller closes a handle.
    Closes(u64, u64),
    /// A caller goes.
    Goes(u64),
}

fn take_place(table: &mut HandleTable, event: Event) {
    match event {
        Event::Nothing => {}
        Event::Closes(caller, number) => {
            let _row = table.close(caller, number);
        }
        Event::Goes(caller) => table.run_down(caller),
    }
}

/// An event, and what is known then: a caller that closes another's handle closes nothing.
const EVENTS: [(Event, (usize, usize), usize, Option<u64>, Option<u32>); 4] = [
    (Event::Nothing, (2, 1), 2, Some(8), Some(0x14)),
    (Event::Closes(8, 2), (2, 1), 2, Some(8), Some(0x14)),
    (Event::Closes(7, 2), (1, 1), 1, Some(8), None),
    (Event::Goes(8), (1, 0), 0, None, None),
];

/// Whether what is stated is known after each event.
fn is_so(table: &mut HandleTable) -> bool {
    for (event, held, of_service, owner, granted) in EVENTS {
        take_place(table, event);
        let stated = Known {
            held,
            of_service,
            owner,
            granted,
        };
        if seen_in(table) != stated {
            return false;
        }
    }
    true
}

#[test]
fn a_caller_has_its_own_handles_until_it_goes(rt: HostRuntime) -> Result<(), Fail> {
    let mut table = HandleTable::new(rt.alloc());
    let is_well = add_three(&mut table).is_ok() && is_so(&mut table);
    drop(table);
    if is_well {
        Ok(())
    } else {
        Err("something else is known".into())
    }
}
