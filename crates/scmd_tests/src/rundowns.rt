//! A caller starts T, which needs D and E, and another one deletes D meanwhile and makes it anew.
//! Either of them goes after any step. The others then go on with theirs, and a third caller looks
//! at what stands.
ghost use Rattle.scm_core.specs.Managed.{AreSmall};
ghost use Rattle.scm_rules.specs.Opening.{IsOpening};
ghost use Rattle.scm_rules.specs.Valid.{IsValid};
ghost use Rattle.scm_replay.specs.Replay.{IsFresh};

use crate::runs::{PIPE, Run, ends};
use book_calls::new_manager;
use outside::{MemorySink, MemorySource};
use scm_core::Manager;
use scm_model::Limits;
use scm_replay::{Replayed, replay};
use std::alloc::Global;
use std::sync::Wait;
use std::thread::Threads;
use std::time;
use svcctl_words::{Sheet, Side};

/// The three callers.
const CALLERS: &str = "administrator
| join admin; call 2 manager - - #F003F | caller 2; reply h2 0
| join admin; call 3 manager - - #F003F | caller 3; reply h3 0
";

/// The caller that makes a step, 0 where none does, and its row.
type Step = (u8, &'static str);

const STEPS: &[Step] = &[
    (
        1,
        "| call 1 create h1 'D' - own '/bin/d' plain | reply - h4 0",
    ),
    (
        1,
        "| call 1 create h1 'E' - own '/bin/e' plain | reply - h5 0",
    ),
    (
        1,
        "| call 1 create h1 'T' - own '/bin/t' - - * [D/E] 10 - - 0 | reply - h6 0",
    ),
    (1, "| call 1 close h4 | reply h0 0"),
    (2, "| call 2 open h2 'D' #F01FF | reply h7 0"),
    // D is entered first.
    (1, "| call 1 start h6 0 - | plan 1"),
    (0, "| take | launch 1"),
    (0, "| launched 1 101 | done"),
    (2, "| call 2 delete h7 | reply 0"),
    (2, "| call 2 close h7 | reply h0 0"),
    // D fails and leaves, and E is entered.
    (0, "| ended 1 | done"),
    (0, "| take | launch 2"),
    (0, "| launched 2 102 | done"),
    (
        2,
        "| call 2 create h2 'D' - own '/bin/d' plain | reply - h8 0",
    ),
    (2, "| call 2 start h8 0 - | plan 2"),
    (0, "| take | launch 3"),
    (0, "| launched 3 103 | done"),
    (2, "| end 2 2 | reply 0"),
    (0, "| report 3 16 4 0 0 0 0 0 | done"),
    // D and E run, and T is entered.
    (0, "| report 2 16 4 0 0 0 0 0 | done"),
    (0, "| take | launch 4"),
    (0, "| launched 4 104 | done"),
    (1, "| end 1 1 | reply 0"),
];

/// A caller goes once so many steps are made, at the least `first` and fewer than `end`. The others
/// make theirs of the first `until`, and then the rest takes place.
struct Rundown {
    caller: u8,
    first: usize,
    end: usize,
    until: usize,
    rest: &'static str,
}

const RUNDOWNS: &[Rundown] = &[
    Rundown {
        caller: 1,
        first: 0,
        end: 1,
        until: 0,
        rest: "none active, none stopped",
    },
    // No handle but that of the other one keeps D.
    Rundown {
        caller: 1,
        first: 1,
        end: 2,
        until: 1,
        rest: "| call 2 open h2 'D' #F01FF; call 2 delete h5; call 2 close h5 \
               | reply h5 0; reply 0; reply h0 0
none active, none stopped",
    },
    Rundown {
        caller: 1,
        first: 2,
        end: 3,
        until: 2,
        rest: "| call 2 open h2 'D' #F01FF; call 2 delete h6; call 2 close h6 \
               | reply h6 0; reply 0; reply h0 0
none active, one stopped",
    },
    Rundown {
        caller: 1,
        first: 3,
        end: 6,
        until: 5,
        rest: "| call 2 delete h7; call 2 close h7 | reply 0; reply h0 0
none active, two stopped",
    },
    // D is stopped, and E isn't started.
    Rundown {
        caller: 1,
        first: 6,
        end: 11,
        until: 11,
        rest: "none active, two stopped",
    },
    // D and E run, and T isn't started.
    Rundown {
        caller: 1,
        first: 11,
        end: 20,
        until: 20,
        rest: "two active, one stopped",
    },
    Rundown {
        caller: 1,
        first: 20,
        end: 24,
        until: 23,
        rest: "three active, none stopped",
    },
    // D isn't deleted and is stopped, and E runs.
    Rundown {
        caller: 2,
        first: 0,
        end: 9,
        until: 11,
        rest: "| take; launched 2 102; report 2 16 4 0 0 0 0 0 | launch 2; done; done
| end 1 1 | reply 1068
one active, two stopped",
    },
    // D is deleted, and E runs.
    Rundown {
        caller: 2,
        first: 9,
        end: 14,
        until: 13,
        rest: "| report 2 16 4 0 0 0 0 0 | done
| end 1 1 | reply 1068
one active, one stopped",
    },
    // D is made anew and isn't started.
    Rundown {
        caller: 2,
        first: 14,
        end: 15,
        until: 14,
        rest: "| report 2 16 4 0 0 0 0 0 | done
| end 1 1 | reply 1068
one active, two stopped",
    },
    Rundown {
        caller: 2,
        first: 15,
        end: 24,
        until: 23,
        rest: "three active, none stopped",
    },
];

/// Puts the rows of steps, but for those of a caller.
fn put_steps(rows: &mut String, steps: &[Step], but: u8) -> Option<()> {
    for (caller, row) in steps {
        if *caller == 0 || *caller != but {
            rows.push_str(row).ok()?;
            rows.push_str("\n").ok()?;
        }
    }
    Some(())
}

/// Puts the rows of a run in which a caller goes once so many steps are made.
fn put_run(rows: &mut String, rundown: &Rundown, place: usize) -> Option<()> {
    rows.push_str(CALLERS).ok()?;
    put_steps(rows, STEPS.get(..place)?, 0)?;
    let goes = match rundown.caller {
        1 => "| gone 1 | done\n",
        _ => "| gone 2 | done\n",
    };
    rows.push_str(goes).ok()?;
    put_steps(rows, STEPS.get(place..rundown.until)?, rundown.caller)?;
    rows.push_str(rundown.rest).ok()
}

/// Limits with room for all that a run does.
fn limits() -> Limits
    ensures { AreSmall result }
{
    Limits {
        services: 8,
        handles: 16,
        registrations: 0,
        callers: 4,
        processes: 8,
        controls: 4,
        steps: 1024,
        text: 4096,
    }
}

/// Makes the steps of lines at a manager in which nothing took place. The state that they leave is
/// valid.
fn replay_validly(
    alloc: Global,
    manager: &mut Manager,
    input: &mut MemorySource,
    output: &mut MemorySink,
) -> Replayed
    requires fresh { IsFresh manager.old }
    requires begins { IsOpening manager.old.limits manager.old.flat }
    ensures valid { IsValid manager.new.limits manager.new.flat }
{
    replay(alloc, manager, input, output)
}

/// How many lines end in these bytes.
fn lines_in(bytes: &[u8]) -> u64 {
    let mut lines = 0u64;
    for byte in bytes {
        if *byte == b'\n' {
            lines = lines.wrapping_add(1);
        }
    }
    lines
}

/// Whether a manager answers lines as a text begins, with as many lines.
fn is_answered(alloc: Global, manager: &mut Manager, lines: Vec<u8>, told: &[u8]) -> bool
    requires fresh { IsFresh manager.old }
    requires begins { IsOpening manager.old.limits manager.old.flat }
{
    let asked = lines_in(lines.as_slice());
    let mut input = MemorySource::new(lines, Vec::new(alloc));
    let mut output = MemorySink::new(alloc, Vec::new(alloc));
    let how = replay_validly(alloc, manager, &mut input, &mut output);
    let is_told = told.starts_with(output.bytes()) && lines_in(output.bytes()) == asked;
    drop(output);
    drop(input);
    is_told && how == Replayed::Ended
}

/// Whether a new manager does.
fn is_front_answered(alloc: Global, lines: &[u8], told: &[u8]) -> bool {
    let Ok(lines) = Vec::from_slice(alloc, lines) else {
        return false;
    };
    match new_manager(alloc, limits()) {
        Ok(mut manager) => {
            let is_answered = is_answered(alloc, &mut manager, lines, told);
            manager.close();
            is_answered
        }
        Err(_) => {
            drop(lines);
            false
        }
    }
}

/// Whether the front of some lines that ends at this place is so answered.
fn is_answered_to(alloc: Global, asked: &[u8], place: usize, told: &[u8]) -> bool {
    match asked.get(..place) {
        Some(front) => is_front_answered(alloc, front, told),
        None => false,
    }
}

/// Whether each front of some lines that ends with one is so answered.
fn is_each_answered(alloc: Global, asked: &[u8], told: &[u8]) -> bool {
    for (place, byte) in asked.iter().enumerate() {
        let end = place.saturating_add(1);
        if *byte == b'\n' && !is_answered_to(alloc, asked, end, told) {
            return false;
        }
    }
    true
}

/// Puts one side of rows after other bytes.
fn put_side(sheet: &mut Sheet, rows: &str, side: Side, bytes: &mut Vec<u8>) -> Option<()> {
    sheet.put("replay", rows, side)?;
    bytes.extend_from_slice(sheet.bytes()).ok()
}

/// Whether each front of the lines of rows is answered as they say.
fn are_fronts_answered(alloc: Global, sheet: &mut Sheet, rows: &str) -> bool {
    let mut asked = Vec::new(alloc);
    let mut told = Vec::new(alloc);
    let are_put = put_side(sheet, rows, Side::Asks, &mut asked).is_some()
        && put_side(sheet, rows, Side::Tells, &mut told).is_some();
    let are_answered = is_each_answered(alloc, asked.as_slice(), told.as_slice());
    drop(told);
    drop(asked);
    are_put && are_answered
}

/// Whether the program's replay answers as its rows do, and each front of it leaves a valid state.
fn is_replayed<R>(rt: &R, alloc: Global, sheet: &mut Sheet, rows: &str) -> bool
where
    R: Threads + Wait + time::Clock + Sync,
{
    let run = Run {
        words: "replay",
        asked: rows,
        told: rows,
        ..PIPE
    };
    ends(rt, alloc, sheet, &run).is_ok() && are_fronts_answered(alloc, sheet, rows)
}

/// Whether a run is as it is to be in which a caller goes once so many steps are made.
fn goes_after<R>(rt: &R, alloc: Global, sheet: &mut Sheet, rundown: &Rundown, place: usize) -> bool
where
    R: Threads + Wait + time::Clock + Sync,
{
    let mut rows = String::new(alloc);
    let is_put = put_run(&mut rows, rundown, place).is_some();
    let is_replayed = is_replayed(rt, alloc, sheet, rows.as_str());
    drop(rows);
    is_put && is_replayed
}

/// The first place of a rundown at which it isn't.
fn first_wrong_place<R>(
    rt: &R,
    alloc: Global,
    sheet: &mut Sheet,
    rundown: &Rundown,
) -> Option<usize>
where
    R: Threads + Wait + time::Clock + Sync,
{
    for place in rundown.first..rundown.end {
        if !goes_after(rt, alloc, sheet, rundown, place) {
            return Some(place);
        }
    }
    None
}

/// The first place of any rundown at which it isn't.
pub fn first_wrong_rundown<R>(rt: &R, alloc: Global, sheet: &mut Sheet) -> Option<usize>
where
    R: Threads + Wait + time::Clock + Sync,
{
    for rundown in RUNDOWNS {
        if let Some(place) = first_wrong_place(rt, alloc, sheet, rundown) {
            return Some(place);
        }
    }
    None
}
