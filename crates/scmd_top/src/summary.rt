//! `scmd generate`, which may not wait: it returns.
ghost use Rattle.std.specs.Prelude.{◌≡◌, ◌≤◌};
ghost use Rattle.scmd_top.specs.Jobs.{HasPrinted, HasSummedUp, status_of_generate};
ghost use Rattle.scmd_top.specs.Sides.{LeavesPorts, side};

use crate::limits::LIMITS;
use crate::world::JobWorld;
use outside::{Clock, Sink, Source};
use process_runner::Spawner;
use record_journal::Keeper;
use scm_generate::{Generated, generate};
use scm_listener::Listener;
use std::alloc::Global;

/// The status of a program that printed a summary.
fn status_of_generate(how: Generated) -> u8
    ensures { result ≡ status_of_generate how }
{
    match how {
        Generated::Ended => 0,
        Generated::WriteFault => 2,
        Generated::OutOfMemory => 8,
    }
}

/// Makes the stated list of steps for so many services, prints its summary, and gives the status of
/// the program.
pub fn generate_main<I: Source, O: Sink, K: Keeper, N: Listener, P: Spawner, C: Clock>(
    alloc: Global,
    services: u32,
    world: JobWorld<I, O, K, N, P, C>,
) -> (u8, JobWorld<I, O, K, N, P, C>)
    requires few { services ≤ 512 }
    ensures unread { result.1.input ≡ world.input }
    ensures keeper { result.1.keeper ≡ world.keeper }
    ensures clock { result.1.clock ≡ world.clock }
    ensures ports { LeavesPorts world result.1 }
    ensures output { O.faults world.output ≤ O.faults result.1.output }
    ensures run { HasPrinted services
        (side O.held O.faults world.output result.1.output) result.0 }
    // Nothing else ends a run without faults.
    ensures complete { HasSummedUp (side O.held O.faults world.output result.1.output) result.0 }
{
    let mut world = world;
    let how = generate(alloc, LIMITS, services, &mut world.output);
    (status_of_generate(how), world)
}
