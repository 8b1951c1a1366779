//! `scmd pipe`.
ghost use Rattle.std.specs.Prelude.{◌≡◌, ◌≤◌, is_some};
ghost use Rattle.outside.specs.Asked.{text_of};
ghost use Rattle.scmd_top.specs.Files.{OpensFile};
ghost use Rattle.scmd_top.specs.Opening.{LeavesSettled};
ghost use Rattle.scmd_top.specs.Pipe.{HasPiped, IsComplete, status_of};
ghost use Rattle.scmd_top.specs.Sides.{LeavesPorts, sides_of};

use crate::opening::{open_at, status_of_fault};
use crate::world::JobWorld;
use outside::{Clock, Sink, Source};
use process_runner::Spawner;
use record_journal::Keeper;
use scm_listener::Listener;
use scm_model::Principal;
use scm_pipe::{Piped, Served, serve_alone};
use scm_restored::Opened;
use std::alloc::Global;
use std::sync::Wait;

/// The status of a program that served one connection.
fn status_of(how: Served) -> u8
    ensures { result ≡ status_of how }
{
    match how {
        Served::Ended => 0,
        Served::ReadFault => 1,
        Served::WriteFault => 2,
        Served::Truncated => 6,
        Served::BadPdu(_, _) | Served::TooLong(_) => 7,
        Served::OutOfMemory => 8,
        Served::Full => 9,
        Served::Worn => 12,
    }
}

/// Serves one connection from the input to the output over what stands under the path, and gives
/// the status of the program. Without a path the journal begins empty, and is kept in memory.
pub fn pipe_main<R: Wait, I: Source, O: Sink, K: Keeper, N: Listener, P: Spawner, C: Clock>(
    rt: &R,
    alloc: Global,
    principal: Principal,
    path: Option<&str>,
    world: JobWorld<I, O, K, N, P, C>,
) -> (u8, JobWorld<I, O, K, N, P, C>)
    ensures clock { result.1.clock ≡ world.clock }
    ensures ports { LeavesPorts world result.1 }
    ensures input { I.faults world.input ≤ I.faults result.1.input }
    ensures output { O.faults world.output ≤ O.faults result.1.output }
    // What was read, answered, written and kept, and why the run ended.
    ensures run { HasPiped (C.tells world.clock) (is_some path.entry) principal
        (sides_of I.left I.faults O.held O.faults K.held K.faults world result.1)
        (K.crashes result.1.keeper) result.0 }
    // Which file the keeper opened.
    ensures file { OpensFile (text_of path.entry)
        (K.asked world.keeper) (K.asked result.1.keeper) result.0 }
    // A crash after it leaves what was kept, unless the keeper failed.
    ensures settled { LeavesSettled (K.settled world.keeper)
        (K.faults world.keeper) (K.faults result.1.keeper) result.0 (K.settled result.1.keeper) }
    // Nothing else ends a run without faults.
    ensures complete { IsComplete (is_some path.entry) principal
        (sides_of I.left I.faults O.held O.faults K.held K.faults world result.1) result.0 }
{
    let mut world = world;
    let moment = world.clock.now();
    match open_at(alloc, &mut world.keeper, path, None, moment, false) {
        Ok(
            Opened {
                manager,
                journal,
                configs,
            },
        ) => {
            drop(configs);
            let keeper = world.keeper;
            let Piped { how, keeper } = serve_alone(
                rt,
                alloc,
                manager,
                journal,
                keeper,
                principal,
                &mut world.input,
                &mut world.output,
                &world.clock,
            );
            world.keeper = keeper;
            (status_of(how), world)
        }
        Err(fault) => (status_of_fault(fault), world),
    }
}
