//! `scmd replay`, which may not wait: it returns.
ghost use Rattle.std.specs.Prelude.{◌≡◌, ◌≤◌, [], Some, true, is_some};
ghost use Rattle.outside.specs.Asked.{text_of};
ghost use Rattle.scm_replay.specs.Replay.{IsReplayCaused};
ghost use Rattle.scmd_top.specs.Files.{OpensFile, OpensFor};
ghost use Rattle.scmd_top.specs.Jobs.{HasAllReplayed, HasReplayed, LeavesKeeper, LeavesReplayed};
ghost use Rattle.scmd_top.specs.Jobs.{SettlesKeeper, status_of_replay};
ghost use Rattle.scmd_top.specs.Opening.{LeavesSettled};
ghost use Rattle.scmd_top.specs.Sides.{LeavesPorts, side, sides_of};
ghost use Rattle.scmd_top.specs.declared.words.Job.TheVariants as jobs;

use crate::opening::{new_manager, open_stored, status_of_fault};
use crate::world::JobWorld;
use outside::{Clock, Sink, Source};
use process_runner::Spawner;
use record_journal::Keeper;
use scm_listener::Listener;
use scm_replay::{Replayed, replay};
use scm_restored::Opened;
use std::alloc::Global;

/// The status of a program that answered lines.
fn status_of_replay(how: Replayed) -> u8
    ensures { result ≡ status_of_replay how }
{
    match how {
        Replayed::Ended => 0,
        Replayed::ReadFault => 1,
        Replayed::WriteFault => 2,
        Replayed::Truncated => 6,
        Replayed::OutOfMemory => 8,
        Replayed::BadLine => 11,
        Replayed::Worn => 12,
    }
}

/// Answers the lines of the input, over a manager in which nobody and nothing is there at moment 0.
fn answer_lines<I: Source, O: Sink>(alloc: Global, input: &mut I, output: &mut O) -> Replayed
    ensures replayed { LeavesReplayed []
        (I.left input.old) (I.left input.new) (O.held output.old) (O.held output.new) result }
    ensures input { I.faults input.old ≤ I.faults input.new }
    ensures output { O.faults output.old ≤ O.faults output.new }
    ensures cause { IsReplayCaused result
        (I.faults input.old) (I.faults input.new) (O.faults output.old) (O.faults output.new) }
{
    let Ok(mut manager) = new_manager(alloc, None, 0) else {
        return Replayed::OutOfMemory;
    };
    let how = replay(alloc, &mut manager, input, output);
    manager.close();
    how
}

/// Answers the lines of the input over what stands under a path, and gives the status of the
/// program. The keeper is opened at moment 0, and nothing is kept of the changes.
fn answer_over<I: Source, O: Sink, K: Keeper>(
    alloc: Global,
    path: &str,
    keeper: &mut K,
    input: &mut I,
    output: &mut O,
) -> u8
    ensures input { I.faults input.old ≤ I.faults input.new }
    ensures output { O.faults output.old ≤ O.faults output.new }
    ensures run { HasReplayed true (record {
      input = side I.left I.faults input.old input.new;
      output = side O.held O.faults output.old output.new;
      keeper = side K.held K.faults keeper.old keeper.new;
    }) result }
    ensures settled { LeavesSettled (K.settled keeper.old)
        (K.faults keeper.old) (K.faults keeper.new) result (K.settled keeper.new) }
    ensures file { OpensFile (Some path.now) (K.asked keeper.old) (K.asked keeper.new) result }
    ensures complete { HasAllReplayed true (record {
      input = side I.left I.faults input.old input.new;
      output = side O.held O.faults output.old output.new;
      keeper = side K.held K.faults keeper.old keeper.new;
    }) result }
{
    match open_stored(alloc, keeper, path, None, 0, false) {
        Ok(
            Opened {
                mut manager,
                journal: _,
                configs,
            },
        ) => {
            drop(configs);
            let how = replay(alloc, &mut manager, input, output);
            manager.close();
            status_of_replay(how)
        }
        Err(fault) => status_of_fault(fault),
    }
}

/// The same, and without a path over nothing.
fn answer<I: Source, O: Sink, K: Keeper>(
    alloc: Global,
    path: Option<&str>,
    keeper: &mut K,
    input: &mut I,
    output: &mut O,
) -> u8
    ensures keeper { LeavesKeeper (is_some path.entry) jobs.Replay keeper.old keeper.new }
    ensures settled { SettlesKeeper (is_some path.entry) jobs.Replay (K.settled keeper.old)
        (K.faults keeper.old) (K.faults keeper.new) result (K.settled keeper.new) }
    ensures file { OpensFor (text_of path.entry) jobs.Replay
        (K.asked keeper.old) (K.asked keeper.new) result }
    ensures input { I.faults input.old ≤ I.faults input.new }
    ensures output { O.faults output.old ≤ O.faults output.new }
    ensures run { HasReplayed (is_some path.entry) (record {
      input = side I.left I.faults input.old input.new;
      output = side O.held O.faults output.old output.new;
      keeper = side K.held K.faults keeper.old keeper.new;
    }) result }
    ensures complete { HasAllReplayed (is_some path.entry) (record {
      input = side I.left I.faults input.old input.new;
      output = side O.held O.faults output.old output.new;
      keeper = side K.held K.faults keeper.old keeper.new;
    }) result }
{
    match path {
        Some(path) => answer_over(alloc, path, keeper, input, output),
        None => status_of_replay(answer_lines(alloc, input, output)),
    }
}

/// Answers the lines of the input over what stands under the path, and gives the status of the
/// program. Without a path nothing is asked of the keeper.
pub fn replay_main<I: Source, O: Sink, K: Keeper, N: Listener, P: Spawner, C: Clock>(
    alloc: Global,
    path: Option<&str>,
    world: JobWorld<I, O, K, N, P, C>,
) -> (u8, JobWorld<I, O, K, N, P, C>)
    ensures keeper { LeavesKeeper (is_some path.entry) jobs.Replay world.keeper result.1.keeper }
    ensures settled { SettlesKeeper (is_some path.entry) jobs.Replay (K.settled world.keeper)
        (K.faults world.keeper) (K.faults result.1.keeper) result.0 (K.settled result.1.keeper) }
    ensures file { OpensFor (text_of path.entry) jobs.Replay
        (K.asked world.keeper) (K.asked result.1.keeper) result.0 }
    ensures clock { result.1.clock ≡ world.clock }
    ensures ports { LeavesPorts world result.1 }
    ensures input { I.faults world.input ≤ I.faults result.1.input }
    ensures output { O.faults world.output ≤ O.faults result.1.output }
    // What was read, answered and written, and why the run ended.
    ensures run { HasReplayed (is_some path.entry)
        (sides_of I.left I.faults O.held O.faults K.held K.faults world result.1) result.0 }
    // Nothing else ends a run without faults.
    ensures complete { HasAllReplayed (is_some path.entry)
        (sides_of I.left I.faults O.held O.faults K.held K.faults world result.1) result.0 }
{
    let mut world = world;
    let status = answer(
        alloc,
        path,
        &mut world.keeper,
        &mut world.input,
        &mut world.output,
    );
    (status, world)
}
