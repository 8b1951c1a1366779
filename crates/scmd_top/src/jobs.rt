//! The jobs of the program, and `scmd serve`.
ghost use Rattle.std.specs.Prelude.{◌≡◌, ◌≤◌, is_some};
ghost use Rattle.outside.specs.Asked.{text_of};
ghost use Rattle.record_journal.specs.Bearing.{Bears, StandsIn, stood_in};
ghost use Rattle.scm_book.specs.Ghosts.{ghosts_of};
ghost use Rattle.scm_core.specs.Managed.{AreSmall};
ghost use Rattle.scm_rules.specs.Opening.{IsOpening};
ghost use Rattle.scm_serving.specs.Listening.{told_by};
ghost use Rattle.scm_serving.specs.Serving.{ServesBook};
ghost use Rattle.scmd_top.specs.Files.{OpensFile, OpensFor};
ghost use Rattle.scmd_top.specs.Groups.{groups_in};
ghost use Rattle.scmd_top.specs.Jobs.{HasAllDone, HasRun, LeavesKeeper, LeavesOthers};
ghost use Rattle.scmd_top.specs.Jobs.{SettlesKeeper};
ghost use Rattle.scmd_top.specs.Opening.{LeavesSettled};
ghost use Rattle.scmd_top.specs.Parts.{lent};
ghost use Rattle.scmd_top.specs.Serving.{HasServed, IsServingComplete};
ghost use Rattle.scmd_top.specs.Sides.{ports_of, side, sides_of};
ghost use Rattle.scmd_top.specs.Words.{IsFew};

use crate::auditing::audit_main;
use crate::histories::put_end;
use crate::lines::replay_main;
use crate::opening::{Begun, begin_at, status_of_fault};
use crate::pipe::pipe_main;
use crate::summary::generate_main;
use crate::words::Job;
use crate::world::JobWorld;
use child_link::{Feed, Link};
use outside::{Clock, Sink, Source};
use process_runner::Spawner;
use record_journal::{Journal, Keeper};
use scm_core::Manager;
use scm_listener::{Listener, Listening};
use scm_serving::{BookEnd, listen_both, serve_book};
use std::alloc::Global;
use std::sync::Wait;
use std::thread::Threads;
use std::time;

impl<I, O, K, N, NI, NO, A, P, L, F, C> JobWorld<I, O, K, N, P, C>
where
    I: Source,
    O: Sink,
    K: Keeper + Send,
    NI: Source + Send + Drop,
    NO: Sink + Send + Drop,
    A: Send + Drop,
    N: Listener<In = NI, Out = NO, Past = A> + Send + Drop,
    L: Link + Send + Drop,
    F: Feed + Send + Drop,
    P: Spawner<Link = L, Feed = F> + Send + Drop,
    C: Clock + Sync,
{
    /// Serves listeners that listen over a book of its own, which opens with this manager and this
    /// journal.
    fn serve_over<R: Threads + Wait + time::Clock + Sync>(
        self,
        rt: &R,
        alloc: Global,
        manager: Manager,
        journal: Journal,
    ) -> (BookEnd, JobWorld<I, O, K, N, P, C>)
        requires begins { IsOpening manager.limits manager.flat }
        requires small { AreSmall manager.limits }
        requires steps { manager.steps ≡ 0 }
        requires text { manager.text ≡ 0 }
        requires journal { Bears (stood_in journal.form (K.held self.keeper)) journal
            (K.held self.keeper) }
        requires stands { StandsIn (stood_in journal.form (K.held self.keeper))
            (K.crashes self.keeper) }
        requires settled { K.settled self.keeper }
        ensures input { result.1.input ≡ self.input }
        ensures output { result.1.output ≡ self.output }
        ensures clock { result.1.clock ≡ self.clock }
        ensures serves { ServesBook
            (ghosts_of K.held K.faults K.settled K.crashes K.are_crashes K.asked)
            (C.tells self.clock) manager.limits manager.flat journal
            (told_by N.left N.accepted N.noted N.listened N.faults self.admin)
            (told_by N.left N.accepted N.noted N.listened N.faults result.1.admin)
            (told_by N.left N.accepted N.noted N.listened N.faults self.user)
            (told_by N.left N.accepted N.noted N.listened N.faults result.1.user)
            self.keeper result.1.keeper result.0 }
    {
        let JobWorld {
            input,
            output,
            keeper,
            admin,
            user,
            spawner,
            clock,
        } = self;
        let served = serve_book(
            rt, alloc, manager, journal, keeper, admin, user, spawner, &clock,
        );
        let world = JobWorld {
            input,
            output,
            keeper: served.keeper,
            admin: served.admin,
            user: served.user,
            spawner: served.spawner,
            clock,
        };
        (served.end, world)
    }

    /// Serves the connections of two ports, writes the summary of their history once both listeners
    /// are closed, and before it the history if it is to be exported, and gives the status of the
    /// program. What starts by itself does so in the order of the groups of a list. Without a path
    /// the journal begins empty, and is kept in memory.
    fn serve<R: Threads + Wait + time::Clock + Sync>(
        self,
        rt: &R,
        alloc: Global,
        admin_at: Listening,
        user_at: Listening,
        export: bool,
        path: Option<&str>,
        names: Option<&str>,
    ) -> (u8, JobWorld<I, O, K, N, P, C>)
        ensures input { result.1.input ≡ self.input }
        ensures clock { result.1.clock ≡ self.clock }
        ensures output { O.faults self.output ≤ O.faults result.1.output }
        // Which history the connections and the keeper are of, what was written, and why it ended.
        ensures run { HasServed (C.tells self.clock)
            (is_some path.entry) (groups_in (lent names.entry)) export admin_at user_at
            (sides_of I.left I.faults O.held O.faults K.held K.faults self result.1)
            (K.crashes result.1.keeper)
            (ports_of N.left N.accepted N.noted N.listened N.faults self result.1) result.0 }
        // Which file the keeper opened.
        ensures file { OpensFile (text_of path.entry)
            (K.asked self.keeper) (K.asked result.1.keeper) result.0 }
        // A crash after it leaves what was kept, unless the keeper failed.
        ensures settled { LeavesSettled (K.settled self.keeper)
            (K.faults self.keeper) (K.faults result.1.keeper) result.0 (K.settled result.1.keeper) }
        // Nothing else ends a server without faults.
        ensures complete { IsServingComplete (is_some path.entry)
            (sides_of I.left I.faults O.held O.faults K.held K.faults self result.1)
            (ports_of N.left N.accepted N.noted N.listened N.faults self result.1) result.0 }
    {
        let mut world = self;
        let moment = world.clock.now();
        match begin_at(alloc, &mut world.keeper, path, names, moment, export) {
            Ok(
                Begun {
                    manager,
                    journal,
                    opening,
                },
            ) => {
                let Ok(()) = listen_both(&mut world.admin, admin_at, &mut world.user, user_at)
                else {
                    drop(opening);
                    manager.close();
                    return (10, world);
                };
                let (end, mut world) = world.serve_over(rt, alloc, manager, journal);
                let status = put_end(alloc, opening, end, &mut world.output);
                (status, world)
            }
            Err(fault) => (status_of_fault(fault), world),
        }
    }

    /// Does a job, and answers the status of the program, which isn't that of words that are no
    /// job.
    pub(crate) fn run<R: Threads + Wait + time::Clock + Sync>(
        self,
        rt: &R,
        alloc: Global,
        job: Job,
        path: Option<&str>,
        names: Option<&str>,
    ) -> (u8, JobWorld<I, O, K, N, P, C>)
        requires { IsFew job }
        ensures run { HasRun (C.tells self.clock)
            (is_some path.entry) (groups_in (lent names.entry)) job
            (sides_of I.left I.faults O.held O.faults K.held K.faults self result.1)
            (K.crashes result.1.keeper)
            (ports_of N.left N.accepted N.noted N.listened N.faults self result.1) result.0 }
        ensures file { OpensFor (text_of path.entry) job
            (K.asked self.keeper) (K.asked result.1.keeper) result.0 }
        ensures clock { result.1.clock ≡ self.clock }
        ensures input { I.faults self.input ≤ I.faults result.1.input }
        ensures output { O.faults self.output ≤ O.faults result.1.output }
        ensures keeper { LeavesKeeper (is_some path.entry) job self.keeper result.1.keeper }
        ensures settled { SettlesKeeper (is_some path.entry) job (K.settled self.keeper)
            (K.faults self.keeper) (K.faults result.1.keeper) result.0 (K.settled result.1.keeper) }
        ensures ports { LeavesOthers job self result.1 }
        ensures complete { HasAllDone (is_some path.entry) job
            (sides_of I.left I.faults O.held O.faults K.held K.faults self result.1)
            (ports_of N.left N.accepted N.noted N.listened N.faults self result.1) result.0 }
    {
        match job {
            Job::Pipe { principal } => pipe_main(rt, alloc, principal, path, self),
            Job::Replay => replay_main(alloc, path, self),
            Job::Generate { services } => generate_main(alloc, services, self),
            Job::Audit => audit_main(alloc, self),
            Job::Serve {
                admin,
                user,
                export,
            } => self.serve(rt, alloc, admin, user, export, path, names),
        }
    }
}
