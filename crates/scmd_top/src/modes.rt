//! The modes of the program: a job over the keeper or over the store, a compaction, or a move.
ghost use Rattle.std.specs.Prelude.{◌≡◌, ◌≢◌, ◌≤◌, ◌↔◌, IfSome, IsNone, Some, is_some, true};
ghost use Rattle.journal_store.specs.Compacting.{IsOnly};
ghost use Rattle.outside.specs.Asked.{text_of};
ghost use Rattle.scmd_top.specs.Files.{OpensFiles, OpensFor};
ghost use Rattle.scmd_top.specs.Groups.{groups_in};
ghost use Rattle.scmd_top.specs.Jobs.{HasAllDone, HasRun, LeavesKeeper, LeavesOthers};
ghost use Rattle.scmd_top.specs.Jobs.{SettlesKeeper};
ghost use Rattle.scmd_top.specs.Modes.{HasAllDoneAs, HasRunAs, LeavesWorld, SettlesKeeperAs};
ghost use Rattle.scmd_top.specs.Modes.{SettlesStoreAs, keeper_world, store_world};
ghost use Rattle.scmd_top.specs.Parts.{lent};
ghost use Rattle.scmd_top.specs.Sides.{ports_of, side, sides_of};
ghost use Rattle.scmd_top.specs.Words.{HasFew, IsFew, mode_by};

use crate::stores::{compact_store, move_to_store};
use crate::words::{Job, Task};
use crate::world::{JobWorld, World};
use child_link::{Feed, Link};
use journal_store::Compactor;
use outside::{Clock, Sink, Source};
use process_runner::Spawner;
use record_journal::Keeper;
use scm_listener::Listener;
use std::alloc::Global;
use std::sync::Wait;
use std::thread::Threads;
use std::time;

impl<I, O, K, Q, N, NI, NO, A, P, L, F, C> World<I, O, K, Q, N, P, C>
where
    I: Source,
    O: Sink,
    K: Keeper + Send,
    Q: Compactor + Send,
    NI: Source + Send + Drop,
    NO: Sink + Send + Drop,
    A: Send + Drop,
    N: Listener<In = NI, Out = NO, Past = A> + Send + Drop,
    L: Link + Send + Drop,
    F: Feed + Send + Drop,
    P: Spawner<Link = L, Feed = F> + Send + Drop,
    C: Clock + Sync,
{
    /// Does a job over the keeper.
    fn over_keeper<R: Threads + Wait + time::Clock + Sync>(
        self,
        rt: &R,
        alloc: Global,
        job: Job,
        path: Option<&str>,
        names: Option<&str>,
    ) -> (u8, World<I, O, K, Q, N, P, C>)
        requires { IsFew job }
        ensures ran { result.0 ≢ 5 }
        ensures run { HasRun (C.tells self.clock)
            (is_some path.entry) (groups_in (lent names.entry)) job
            (sides_of I.left I.faults O.held O.faults K.held K.faults
            (keeper_world self) (keeper_world result.1)) (K.crashes result.1.keeper)
            (ports_of N.left N.accepted N.noted N.listened N.faults
            (keeper_world self) (keeper_world result.1)) result.0 }
        ensures file { OpensFor (text_of path.entry) job
            (K.asked self.keeper) (K.asked result.1.keeper) result.0 }
        ensures clock { result.1.clock ≡ self.clock }
        ensures input { I.faults self.input ≤ I.faults result.1.input }
        ensures output { O.faults self.output ≤ O.faults result.1.output }
        ensures store { result.1.store ≡ self.store }
        ensures keeper { LeavesKeeper (is_some path.entry) job self.keeper result.1.keeper }
        ensures settled { SettlesKeeper (is_some path.entry) job (K.settled self.keeper)
            (K.faults self.keeper) (K.faults result.1.keeper) result.0 (K.settled result.1.keeper) }
        ensures ports { LeavesOthers job (keeper_world self) (keeper_world result.1) }
        ensures complete { HasAllDone (is_some path.entry) job
            (sides_of I.left I.faults O.held O.faults K.held K.faults
            (keeper_world self) (keeper_world result.1))
            (ports_of N.left N.accepted N.noted N.listened N.faults
            (keeper_world self) (keeper_world result.1)) result.0 }
    {
        let world = JobWorld {
            input: self.input,
            output: self.output,
            keeper: self.keeper,
            admin: self.admin,
            user: self.user,
            spawner: self.spawner,
            clock: self.clock,
        };
        let (status, world) = world.run(rt, alloc, job, path, names);
        let world = World {
            input: world.input,
            output: world.output,
            keeper: world.keeper,
            store: self.store,
            admin: world.admin,
            user: world.user,
            spawner: world.spawner,
            clock: world.clock,
        };
        (status, world)
    }

    /// Does a job over the store, under a path.
    fn over_store<R: Threads + Wait + time::Clock + Sync>(
        self,
        rt: &R,
        alloc: Global,
        job: Job,
        path: &str,
        names: Option<&str>,
    ) -> (u8, World<I, O, K, Q, N, P, C>)
        requires { IsFew job }
        ensures ran { result.0 ≢ 5 }
        ensures run { HasRun (C.tells self.clock) true (groups_in (lent names.entry)) job
            (sides_of I.left I.faults O.held O.faults Q.held Q.faults
            (store_world self) (store_world result.1)) (Q.crashes result.1.store)
            (ports_of N.left N.accepted N.noted N.listened N.faults
            (store_world self) (store_world result.1)) result.0 }
        ensures file { OpensFor (Some path.now) job
            (Q.asked self.store) (Q.asked result.1.store) result.0 }
        ensures clock { result.1.clock ≡ self.clock }
        ensures input { I.faults self.input ≤ I.faults result.1.input }
        ensures output { O.faults self.output ≤ O.faults result.1.output }
        ensures keeper { result.1.keeper ≡ self.keeper }
        ensures store { LeavesKeeper true job self.store result.1.store }
        ensures settled { SettlesKeeper true job (Q.settled self.store)
            (Q.faults self.store) (Q.faults result.1.store) result.0 (Q.settled result.1.store) }
        ensures ports { LeavesOthers job (store_world self) (store_world result.1) }
        ensures complete { HasAllDone true job
            (sides_of I.left I.faults O.held O.faults Q.held Q.faults
            (store_world self) (store_world result.1))
            (ports_of N.left N.accepted N.noted N.listened N.faults
            (store_world self) (store_world result.1)) result.0 }
    {
        let world = JobWorld {
            input: self.input,
            output: self.output,
            keeper: self.store,
            admin: self.admin,
            user: self.user,
            spawner: self.spawner,
            clock: self.clock,
        };
        let (status, world) = world.run(rt, alloc, job, Some(path), names);
        let world = World {
            input: world.input,
            output: world.output,
            keeper: self.keeper,
            store: world.keeper,
            admin: world.admin,
            user: world.user,
            spawner: world.spawner,
            clock: world.clock,
        };
        (status, world)
    }

    /// Does a task over what its words name, and answers the status of the program: 5 exactly if
    /// they don't fit the task.
    pub(crate) fn run_task<R: Threads + Wait + time::Clock + Sync>(
        self,
        rt: &R,
        alloc: Global,
        task: Task,
        path: Option<&str>,
        store: Option<&str>,
        names: Option<&str>,
    ) -> (u8, World<I, O, K, Q, N, P, C>)
        requires { HasFew task }
        ensures words { result.0 ≡ 5 ↔
            IsNone (mode_by task (is_some path.entry) (is_some store.entry)) }
        ensures untouched { result.0 ≡ 5 → result.1 ≡ self }
        ensures clock { result.1.clock ≡ self.clock }
        ensures input { I.faults self.input ≤ I.faults result.1.input }
        ensures output { O.faults self.output ≤ O.faults result.1.output }
        ensures run { IfSome (mode_by task (is_some path.entry) (is_some store.entry)) (λ mode.
            HasRunAs (C.tells self.clock) (is_some path.entry) (groups_in (lent names.entry)) mode
            (sides_of I.left I.faults O.held O.faults K.held K.faults
            (keeper_world self) (keeper_world result.1)) (K.crashes result.1.keeper)
            (side Q.held Q.faults self.store result.1.store) (Q.crashes result.1.store)
            (ports_of N.left N.accepted N.noted N.listened N.faults
            (keeper_world self) (keeper_world result.1)) result.0) }
        ensures leaves { IfSome (mode_by task (is_some path.entry) (is_some store.entry)) (λ mode.
            LeavesWorld (is_some path.entry) mode self result.1) }
        ensures keeper { IfSome (mode_by task (is_some path.entry) (is_some store.entry)) (λ mode.
            SettlesKeeperAs (is_some path.entry) mode (K.settled self.keeper)
            (K.faults self.keeper) (K.faults result.1.keeper) result.0
            (K.settled result.1.keeper)) }
        ensures store { IfSome (mode_by task (is_some path.entry) (is_some store.entry)) (λ mode.
            SettlesStoreAs mode (Q.settled self.store)
            (Q.faults self.store) (Q.faults result.1.store) result.0
            (IsOnly (Q.held result.1.store) (Q.crashes result.1.store).leaves)
            (Q.settled result.1.store)) }
        ensures files { IfSome (mode_by task (is_some path.entry) (is_some store.entry)) (λ mode.
            OpensFiles mode (text_of path.entry) (text_of store.entry)
            (K.asked self.keeper) (K.asked result.1.keeper)
            (Q.asked self.store) (Q.asked result.1.store) result.0) }
        ensures complete { IfSome (mode_by task (is_some path.entry) (is_some store.entry))
            (λ mode. HasAllDoneAs (is_some path.entry) mode
            (sides_of I.left I.faults O.held O.faults K.held K.faults
            (keeper_world self) (keeper_world result.1))
            (side Q.held Q.faults self.store result.1.store)
            (ports_of N.left N.accepted N.noted N.listened N.faults
            (keeper_world self) (keeper_world result.1)) result.0) }
    {
        match (task, path, store) {
            (Task::Run(job), path, None) => self.over_keeper(rt, alloc, job, path, names),
            (Task::Run(job), None, Some(path)) => self.over_store(rt, alloc, job, path, names),
            (Task::Compact, None, Some(path)) => {
                let mut world = self;
                let status = compact_store(alloc, &mut world.store, path);
                (status, world)
            }
            (Task::Move, Some(from), Some(to)) => {
                let mut world = self;
                let status = move_to_store(alloc, &mut world.keeper, from, &mut world.store, to);
                (status, world)
            }
            _ => (5, self),
        }
    }
}
