// All launches of a book, and a thread for each child.
ghost use Rattle.std.specs.Prelude.{◌≡◌, ◌≤◌, All, IfNone, IfSome};
ghost use Rattle.std.specs.Thread.{IsSend, IsSync};
ghost use Rattle.scm_book.specs.Passes.{IsOf};
ghost use Rattle.scm_launcher.specs.Past.{IfReady, IsPast, IsReady, SawLegal, SeesOn};

use crate::children::{Child, ChildPast, Next, launch_next, run_child};
use child_link::{Feed, Link};
use child_runner::{ChildEnded, ControlsEnded};
use outside::Clock;
use process_runner::{Quit, Spawner};
use record_journal::Keeper;
use scm_book::{Book, LaunchRoom, Pass, Spent};
use std::alloc::{AllocError, Global};
use std::sync::atomic::{AtomicBool, Ordering};
use std::sync::{Arc, Wait};
use std::thread::{self, Promise, PromisedHandle, Scope, Threads};

/// What a launcher leaves: its spent pass, and what started its children.
#[derive(Drop)]
pub struct Launched<P> {
    pub spent: Spent,
    pub spawner: P,
}

/// The spent passes of a child that is past: the one that served it, and the one for its controls.
#[derive(Drop)]
struct SpentPasses {
    child: Spent,
    controls: Spent,
}

/// The book of the passes that a child's thread gives back.
#[derive(Drop)]
struct OfBook<'a, K: Keeper> {
    book: &'a Book<K>,
}

impl<'a, K: Keeper> Promise<SpentPasses> for OfBook<'a, K> {
    ghost kept_by = { λ p past. IsPast p.book.now past };
}

/// A child's thread, and whether it is about to end.
#[derive(Drop)]
struct Runner<'a, K: Keeper> {
    handle: PromisedHandle<SpentPasses, OfBook<'a, K>>,
    is_done: Arc<AtomicBool>,
}

/// A flag, for two threads.
fn flag(alloc: Global) -> Result<(Arc<AtomicBool>, Arc<AtomicBool>), AllocError> {
    let one = Arc::new(alloc, AtomicBool::new(false))?;
    let other = Arc::try_clone(&one)?;
    Ok((one, other))
}

#[tactic(auto, using(crate::proofs::Seeing::of_in, crate::proofs::Seeing::sees_in))]
/// Takes a spent pass in.
fn take_in<K: Keeper>(book: &Book<K>, by: &mut Pass, spent: Spent)
    requires by { IsOf book.now by.old }
    requires nobody { by.old.caller ≡ 0 }
    requires spent { IsOf book.now spent }
    requires legal { SawLegal book.now.opening spent }
    ensures book { IsOf book.now by.new }
    ensures sees { SeesOn book.now.opening by.old by.new }
{
    book.leave(by, spent);
}

#[tactic(auto, using(crate::proofs::Seeing::sees_then))]
/// Takes both passes of a child in that is past.
fn take_both<K: Keeper>(book: &Book<K>, by: &mut Pass, past: SpentPasses)
    requires by { IsOf book.now by.old }
    requires nobody { by.old.caller ≡ 0 }
    requires past { IsPast book.now past }
    ensures book { IsOf book.now by.new }
    ensures sees { SeesOn book.now.opening by.old by.new }
{
    take_in(book, by, past.child);
    take_in(book, by, past.controls);
}

/// Waits for a child's thread.
fn join<'a, R: Threads, K: Keeper>(rt: &R, book: &Book<K>, by: &mut Pass, runner: Runner<'a, K>)
    requires by { IsOf book.now by.old }
    requires nobody { by.old.caller ≡ 0 }
    requires runner { runner.handle.promise.book.now ≡ book.now }
    ensures book { IsOf book.now by.new }
    ensures sees { SeesOn book.now.opening by.old by.new }
{
    let Runner { handle, is_done } = runner;
    drop(is_done);
    take_both(book, by, handle.join(rt));
}

/// Takes a thread out that is about to end, if there is one.
#[tactic(auto, using(crate::proofs::Lists::all_but_one, crate::proofs::Lists::any_one))]
fn take_done<'a, K: Keeper>(
    book: &Book<K>,
    runners: &mut Vec<Runner<'a, K>>,
) -> Option<Runner<'a, K>>
    requires all { All (λ r. r.handle.promise.book.now ≡ book.now) runners.old.items }
    ensures all { All (λ r. r.handle.promise.book.now ≡ book.now) runners.new.items }
    ensures one { IfSome result (λ r. r.handle.promise.book.now ≡ book.now) }
{
    let _ = book;
    for at in 0..runners.len() {
        if runners[at].is_done.load(Ordering::SeqCst) {
            return Some(runners.swap_remove(at));
        }
    }
    None
}

#[tactic(auto, using(crate::proofs::Seeing::sees_none, crate::proofs::Seeing::sees_then))]
/// Joins the threads that are about to end, so that their stacks are given back.
fn reap<'a, R: Threads, K: Keeper>(
    rt: &R,
    book: &Book<K>,
    by: &mut Pass,
    runners: &mut Vec<Runner<'a, K>>,
)
    requires by { IsOf book.now by.old }
    requires nobody { by.old.caller ≡ 0 }
    requires all { All (λ r. r.handle.promise.book.now ≡ book.now) runners.old.items }
    ensures all { All (λ r. r.handle.promise.book.now ≡ book.now) runners.new.items }
    ensures book { IsOf book.now by.new }
    ensures sees { SeesOn book.now.opening by.old by.new }
{
    for _ in 0..runners.len() {
        match take_done(book, runners) {
            Some(runner) => join(rt, book, by, runner),
            None => return,
        }
    }
}

#[tactic(auto, using(crate::proofs::Seeing::sees_none, crate::proofs::Seeing::sees_then))]
/// Waits for all threads.
fn join_all<'a, R: Threads, K: Keeper>(
    rt: &R,
    book: &Book<K>,
    by: &mut Pass,
    runners: &mut Vec<Runner<'a, K>>,
)
    requires by { IsOf book.now by.old }
    requires nobody { by.old.caller ≡ 0 }
    requires all { All (λ r. r.handle.promise.book.now ≡ book.now) runners.old.items }
    ensures book { IsOf book.now by.new }
    ensures sees { SeesOn book.now.opening by.old by.new }
{
    for _ in 0..runners.len() {
        match runners.pop() {
            Some(runner) => join(rt, book, by, runner),
            None => return,
        }
    }
}

#[tactic(auto, using(crate::proofs::Seeing::sees_none))]
/// Keeps a thread, or waits for it where there is no memory to keep it.
fn keep<'a, R: Threads, K: Keeper>(
    rt: &R,
    book: &Book<K>,
    by: &mut Pass,
    runner: Runner<'a, K>,
    runners: &mut Vec<Runner<'a, K>>,
)
    requires by { IsOf book.now by.old }
    requires nobody { by.old.caller ≡ 0 }
    requires runner { runner.handle.promise.book.now ≡ book.now }
    requires all { All (λ r. r.handle.promise.book.now ≡ book.now) runners.old.items }
    ensures all { All (λ r. r.handle.promise.book.now ≡ book.now) runners.new.items }
    ensures book { IsOf book.now by.new }
    ensures sees { SeesOn book.now.opening by.old by.new }
{
    if let Err(full) = runners.push(runner) {
        join(rt, book, by, full.value);
    }
}

#[tactic(auto, using(crate::proofs::Seeing::served_legal, crate::proofs::Seeing::sent_legal))]
/// Runs a child that was launched to its end, and gives back its passes.
fn run<R, K, L, F, C, Q>(
    rt: &R,
    alloc: Global,
    book: &Book<K>,
    child: Child<L, F>,
    clock: &C,
    quit: &Q,
) -> SpentPasses
where
    R: Threads + Wait + Sync,
    K: Keeper + Send,
    L: Link + Drop,
    F: Feed + Drop + Send,
    C: Clock + Sync,
    Q: Quit + Sync,
    requires { IsReady book.now child }
    ensures { IsPast book.now result }
{
    let Child {
        process,
        link,
        feed,
        taken,
        other,
    } = child;
    let ChildPast { child, controls } = run_child(
        rt, alloc, book, taken, other, process, link, feed, clock, quit,
    );
    let ChildEnded { spent: child, .. } = child;
    let ControlsEnded {
        spent: controls,
        past,
        ..
    } = controls;
    drop(past);
    SpentPasses { child, controls }
}

#[tactic(auto, using(crate::proofs::Seeing::sees_looked, crate::proofs::Seeing::if_ready))]
/// Launches what is wanted first, and hands the child out with what its passes have seen.
fn look<R: Wait, K: Keeper, P: Spawner, C: Clock>(
    rt: &R,
    alloc: Global,
    book: &Book<K>,
    by: &mut Pass,
    room: &mut LaunchRoom,
    spawner: &mut P,
    clock: &C,
) -> Next<P::Link, P::Feed>
    requires book { IsOf book.now by.old }
    requires nobody { by.old.caller ≡ 0 }
    requires path { 2048 ≤ room.old.path.room }
    ensures path { room.new.path.room ≡ room.old.path.room }
    ensures book { IsOf book.now by.new }
    ensures sees { SeesOn book.now.opening by.old by.new }
    ensures ready { IfReady book.now result }
{
    launch_next(rt, alloc, book, by, room, spawner, clock)
}

/// Makes room for a line. If there is no memory it tries again when the book's bell rings, which
/// entries do that may decide a plan or want a launch, until `quit` asks for the end.
fn make_room<R: Wait, K: Keeper, Q: Quit>(
    rt: &R,
    alloc: Global,
    book: &Book<K>,
    quit: &Q,
) -> Option<LaunchRoom>
    ensures room { IfSome result (λ room. 2048 ≤ room.path.room) }
    ensures asked { IfNone result (Q.may_ask quit.now) }
{
    for _ in rt.forever() {
        let seen = book.bell().count();
        if quit.asked() {
            return None;
        }
        if let Ok(room) = LaunchRoom::new(alloc) {
            return Some(room);
        }
        book.bell().wait(rt, seen);
    }
    unreachable!()
}

/// What all children of a launcher run with, and what ends them.
#[derive(Drop)]
struct Launcher<'s, R, K: Keeper, C, Q> {
    rt: &'s R,
    alloc: Global,
    book: &'s Book<K>,
    clock: &'s C,
    quit: &'s Q,
}

impl<'s, R, K, C, Q> Launcher<'s, R, K, C, Q>
where
    R: Threads + Wait + Sync + 's,
    K: Keeper + Send + 's,
    C: Clock + Sync + 's,
    Q: Quit + Sync + 's,
{
    /// Begins a thread in which a child runs. Where there is no memory or none can be started, the
    /// child runs here, and has ended on return.
    fn begin<E, L: Link + Send + Drop + 's, F: Feed + Send + Drop + 's>(
        &self,
        scope: &Scope<'s, E>,
        by: &mut Pass,
        child: Child<L, F>,
        runners: &mut Vec<Runner<'s, K>>,
    )
        requires by { IsOf self.now.book.now by.old }
        requires nobody { by.old.caller ≡ 0 }
        requires child { IsReady self.now.book.now child }
        requires all { All (λ r. r.handle.promise.book.now ≡ self.now.book.now) runners.old.items }
        ensures all { All (λ r. r.handle.promise.book.now ≡ self.now.book.now) runners.new.items }
        ensures book { IsOf self.now.book.now by.new }
        ensures sees { SeesOn self.now.book.now.opening by.old by.new }
    {
        let Launcher {
            rt,
            alloc,
            book,
            clock,
            quit,
        } = *self;
        let Ok((flag, is_done)) = flag(alloc) else {
            take_both(book, by, run(rt, alloc, book, child, clock, quit));
            return;
        };
        let worker = move || -> SpentPasses
            requires { IsReady book.now child }
            ensures { IsPast book.entry.now result }
        {
            let past = run(rt, alloc, book, child, clock, quit);
            flag.store(true, Ordering::SeqCst);
            drop(flag);
            past
        };
        match scope.spawn_with(OfBook { book }, worker) {
            Ok(handle) => keep(rt, book, by, Runner { handle, is_done }, runners),
            Err(refused) => {
                let worker = refused.value;
                take_both(book, by, worker());
            }
        }
    }

    #[tactic(auto, using(crate::proofs::Seeing::sees_none, crate::proofs::Seeing::sees_then))]
    /// Begins a child's thread for each launch that is wanted, until `quit` asks for the end. The
    /// bell's count is read before each look, so no launch that comes after the look is missed.
    fn launch_until<E, P, L: Link + Send + Drop + 's, F: Feed + Send + Drop + 's>(
        &self,
        scope: &Scope<'s, E>,
        by: &mut Pass,
        room: &mut LaunchRoom,
        spawner: &mut P,
        runners: &mut Vec<Runner<'s, K>>,
    )
    where
        P: Spawner<Link = L, Feed = F>,
        requires by { IsOf self.now.book.now by.old }
        requires nobody { by.old.caller ≡ 0 }
        requires path { 2048 ≤ room.old.path.room }
        requires all { All (λ r. r.handle.promise.book.now ≡ self.now.book.now) runners.old.items }
        ensures all { All (λ r. r.handle.promise.book.now ≡ self.now.book.now) runners.new.items }
        ensures book { IsOf self.now.book.now by.new }
        ensures sees { SeesOn self.now.book.now.opening by.old by.new }
        ensures asked { Q.may_ask self.now.quit.now }
    {
        for _ in self.rt.forever() {
            let seen = self.book.bell().count();
            if self.quit.asked() {
                return;
            }
            match look(
                self.rt, self.alloc, self.book, by, room, spawner, self.clock,
            ) {
                Next::Child(child) => {
                    reap(self.rt, self.book, by, runners);
                    self.begin(scope, by, child, runners);
                }
                Next::Failed { .. } => {}
                Next::Empty => {
                    self.book.bell().wait(self.rt, seen);
                }
            }
        }
        unreachable!()
    }

    #[tactic(auto, using(crate::proofs::Seeing::sees_none))]
    /// The same, once there is room for a line.
    fn launch_with_room<E, P, L: Link + Send + Drop + 's, F: Feed + Send + Drop + 's>(
        &self,
        scope: &Scope<'s, E>,
        by: &mut Pass,
        spawner: &mut P,
        runners: &mut Vec<Runner<'s, K>>,
    )
    where
        P: Spawner<Link = L, Feed = F>,
        requires by { IsOf self.now.book.now by.old }
        requires nobody { by.old.caller ≡ 0 }
        requires all { All (λ r. r.handle.promise.book.now ≡ self.now.book.now) runners.old.items }
        ensures all { All (λ r. r.handle.promise.book.now ≡ self.now.book.now) runners.new.items }
        ensures book { IsOf self.now.book.now by.new }
        ensures sees { SeesOn self.now.book.now.opening by.old by.new }
        ensures asked { Q.may_ask self.now.quit.now }
    {
        if let Some(mut room) = make_room(self.rt, self.alloc, self.book, self.quit) {
            self.launch_until(scope, by, &mut room, spawner, runners);
        }
    }
}

/// Looks for launches that are wanted, and starts each as `launch_next` does. A child runs as
/// `run_child` says, in threads of its own, or here where none can be started. Once `quit` asks for
/// the end no launch is looked for any more, and all children have ended on return; they lose their
/// inputs where `quit` asks for that too. Between looks it sleeps on the book's bell, so `quit` is
/// asked again where the bell rings or is shut.
pub fn launch_all<R, K, P, L, F, C, Q>(
    rt: &R,
    alloc: Global,
    book: &Book<K>,
    pass: Pass,
    spawner: P,
    clock: &C,
    quit: &Q,
) -> Launched<P>
where
    R: Threads + Wait + Sync,
    K: Keeper + Send,
    L: Link + Send + Drop,
    F: Feed + Send + Drop,
    P: Spawner<Link = L, Feed = F> + Drop,
    C: Clock + Sync,
    Q: Quit + Sync,
    requires book { IsOf book.now pass }
    requires nobody { pass.caller ≡ 0 }
    ensures book { IsOf book.now result.spent }
    ensures sees { SeesOn book.now.opening pass result.spent }
    ensures asked { Q.may_ask quit.now }
{
    thread::scope(
        thread::scope_env(),
        rt,
        move |scope| -> Launched<P>
            requires { IsSync R.row × IsSend K.row × IsSend L.row × IsSend F.row × IsSync C.row
                × IsSync Q.row × IsOf book.now pass × (pass.caller ≡ 0) }
            ensures book { IsOf book.entry.now result.spent }
            ensures sees { SeesOn book.entry.now.opening pass result.spent }
            ensures asked { Q.may_ask quit.entry.now }
        {
            let mut by = pass;
            let mut spawner = spawner;
            let mut runners = Vec::new(alloc);
            let launcher = Launcher {
                rt,
                alloc,
                book,
                clock,
                quit,
            };
            launcher.launch_with_room(scope, &mut by, &mut spawner, &mut runners);
            drop(launcher);
            join_all(rt, book, &mut by, &mut runners);
            drop(runners);
            let spent = book.gone(rt, by, clock.now());
            Launched { spent, spawner }
        },
    )
}
