// Connections and children of a server, side by side.
ghost use Rattle.std.specs.Prelude.{IfSome};
ghost use Rattle.scm_book.specs.Passes.{IsOf};

use crate::connections::{Held, HeldListener};
use crate::events::{Event, Events};
use crate::held::HeldSpawner;
use crate::histories::put_letters;
use crate::sessions::{FILLED, FILLS, LOOKS, STARTS};
use crate::stored::stored_book;
use book_calls::{close, limits, new_book};
use outside::FixedClock;
use process_runner::MemorySpawner;
use record_journal::MemoryKeeper;
use scm_book::{Opened, Pass};
use scm_listener::{MemoryListener, MemoryPeer, Noted};
use scm_server::{ServeEnd, ServedAll, serve_all};
use scm_text::{Items, Text};
use std::alloc::Global;
use std::collections::VecDeque;
use std::sync::Wait;
use std::test::Fail;
use std::thread::Threads;
use std::time;
use test_books::{Fates, MOMENT, TestBook, add_child};

/// What takes place at a server.
#[derive(Clone, Copy, PartialEq, Eq)]
enum Scene {
    /// A connection starts `T`, and another one looks at `D`, which `T` needs.
    Two,
    /// A connection goes on until twenty steps are used up.
    Twenty,
    /// A service starts by itself, and nobody comes.
    Nobody,
}

/// A child that tells that it runs, and nothing more.
const RUNS: &[u8] = b"STATUS 16 4 1 0 0 0 0\n";

/// What the listeners or their connections are held by.
fn held(scene: Scene) -> Held {
    match scene {
        Scene::Two => Held::Second,
        Scene::Twenty => Held::Started,
        Scene::Nobody => Held::Listener,
    }
}

/// Adds a peer that sends this. Whether there is memory for it.
fn add_peer(alloc: Global, waiting: &mut VecDeque<MemoryPeer>, bytes: &[u8]) -> bool {
    match Vec::from_slice(alloc, bytes) {
        Ok(bytes) => {
            let pushed = waiting.push_back(MemoryPeer {
                bytes,
                reads: Vec::new(alloc),
                writes: Vec::new(alloc),
            });
            let is_added = pushed.is_ok();
            drop(pushed);
            is_added
        }
        Err(_) => false,
    }
}

/// Adds the peers of the administrators' port: the one that starts `T`, and the one that looks at
/// `D`; or the one that goes on.
fn add_peers(alloc: Global, waiting: &mut VecDeque<MemoryPeer>, scene: Scene) -> bool {
    match scene {
        Scene::Two => add_peer(alloc, waiting, &STARTS) && add_peer(alloc, waiting, &LOOKS),
        Scene::Twenty => add_peer(alloc, waiting, &FILLS),
        Scene::Nobody => true,
    }
}

/// Adds `T`, which tells nothing, and `D`, which is started first and tells that it runs. Where
/// only one is to be started, another one could be.
fn add_children(alloc: Global, fates: &mut Fates, scene: Scene) -> bool {
    let last: &[u8] = match scene {
        Scene::Two => b"",
        Scene::Twenty | Scene::Nobody => RUNS,
    };
    add_child(alloc, fates, 2, last) && add_child(alloc, fates, 1, RUNS)
}

/// What was written to the connection of this number, of two that were noted.
fn written(noted: &Noted, number: u64) -> Option<&[u8]> {
    let Noted::Last(one, earlier) = noted else {
        return None;
    };
    let Noted::Last(other, _) = &**earlier else {
        return None;
    };
    if one.number == number {
        Some(one.output.bytes())
    } else {
        Some(other.output.bytes())
    }
}

/// The reply to the start, with code 0.
const STARTED: [u8; 28] = [
    5, 0, 2, 3, 0x10, 0, 0, 0, 28, 0, 0, 0, 5, 0, 0, 0, 4, 0, 0, 0, 0, 0, 0, 0, 0, 0, 0, 0,
];

/// The reply to the query: a process of its own in START_PENDING, and code 0.
const PENDING: [u8; 56] = [
    5, 0, 2, 3, 0x10, 0, 0, 0, 56, 0, 0, 0, 4, 0, 0, 0, 32, 0, 0, 0, 0, 0, 0, 0, 0x10, 0, 0, 0, 2,
    0, 0, 0, 0, 0, 0, 0, 0, 0, 0, 0, 0, 0, 0, 0, 0, 0, 0, 0, 0, 0, 0, 0, 0, 0, 0, 0,
];

/// Whether the last bytes that were written to a connection are these.
fn ends_with(noted: &Noted, number: u64, last: &[u8]) -> bool {
    match written(noted, number) {
        Some(bytes) => bytes.ends_with(last),
        None => false,
    }
}

/// Whether the connection that was noted last was answered just this.
fn is_told(noted: &Noted, told: &[u8]) -> bool {
    match noted {
        Noted::Last(ends, _) => ends.output.bytes() == told,
        Noted::Nothing => false,
    }
}

/// Whether one program was started, by its path alone.
fn is_started_once(started: &[Items<Text>]) -> bool {
    match started {
        [words] => match words.as_slice() {
            [word] => word.as_str() == "/a",
            _ => false,
        },
        _ => false,
    }
}

/// The outcome of serving over this book.
fn serve<'a, R: Threads + Wait + time::Clock + Sync>(
    rt: &R,
    alloc: Global,
    book: &TestBook,
    root: &mut Pass,
    admin: HeldListener<'a>,
    user: HeldListener<'a>,
    spawner: HeldSpawner<'a>,
) -> ServedAll<HeldListener<'a>, HeldSpawner<'a>>
    requires { IsOf book.now root.old }
    ensures { IsOf book.now root.new }
{
    let clock = FixedClock { moment: MOMENT };
    serve_all(rt, alloc, book, root, admin, user, spawner, &clock)
}

/// Whether it ended without a fault, and each connection and each start came to what it should.
fn is_served(served: &ServedAll<HeldListener<'_>, HeldSpawner<'_>>, scene: Scene) -> bool {
    let noted = served.admin.listener.noted();
    let is_so = match scene {
        Scene::Two => ends_with(noted, 0, &STARTED) && ends_with(noted, 1, &PENDING),
        Scene::Twenty => is_told(noted, &FILLED),
        Scene::Nobody => is_started_once(served.spawner.spawner.started()),
    };
    served.end == ServeEnd::Ended && is_so
}

/// Lets take place at once what nobody waits for.
fn release(events: &Events, scene: Scene) {
    if scene != Scene::Two {
        events.set(Event::Told);
    }
    if scene == Scene::Nobody {
        events.set(Event::Over);
    }
}

/// Whether all peers are so served beside their children.
fn are_served<R: Threads + Wait + time::Clock + Sync>(
    rt: &R,
    alloc: Global,
    book: &TestBook,
    root: &mut Pass,
    events: &Events,
    scene: Scene,
) -> bool
    requires { IsOf book.now root.old }
    ensures { IsOf book.now root.new }
{
    let mut waiting = VecDeque::new(alloc);
    let mut fates = Vec::new(alloc);
    let are_added = add_peers(alloc, &mut waiting, scene) && add_children(alloc, &mut fates, scene);
    let held = held(scene);
    let admin = HeldListener {
        listener: MemoryListener::new(alloc, waiting, Vec::new(alloc)),
        held,
        events,
    };
    let user = HeldListener {
        listener: MemoryListener::new(alloc, VecDeque::new(alloc), Vec::new(alloc)),
        held,
        events,
    };
    let spawner = MemorySpawner::new(alloc, fates);
    release(events, scene);
    let served = serve(
        rt,
        alloc,
        book,
        root,
        admin,
        user,
        HeldSpawner { spawner, events },
    );
    let are_served = is_served(&served, scene);
    drop(served);
    are_added && are_served
}

/// How many callers joined.
fn joined(letters: &[u8]) -> usize {
    letters.iter().filter(|letter| **letter == b'J').count()
}

/// Whether a history has these entries, at moments of the clock. In the second scene the start may
/// be answered before the report or after it.
fn is_history(letters: &[u8], scene: Scene) -> bool {
    match scene {
        Scene::Two => joined(letters) == 2,
        Scene::Twenty => {
            letters == b"JCCCTLSRCCCCCCCCCCGE".as_slice()
                || letters == b"JCCCTLRSCCCCCCCCCCGE".as_slice()
        }
        Scene::Nobody => letters == b"DTLRE".as_slice(),
    }
}

/// The same of the history of a book that is closed.
fn has_history<R: Wait>(rt: &R, alloc: Global, book: TestBook, root: Pass, scene: Scene) -> bool
    requires { IsOf book root }
{
    let last = book.gone(rt, root, MOMENT);
    let trail = close(rt, book, last);
    let mut letters = Vec::new(alloc);
    let are_put = put_letters(&trail, &mut letters);
    drop(trail);
    let is_so = is_history(letters.as_slice(), scene);
    drop(letters);
    are_put && is_so
}

/// The book of a scene.
fn book_of(alloc: Global, scene: Scene) -> Option<Opened<MemoryKeeper>>
    ensures { IfSome result (λ new. IsOf new.book new.pass) }
{
    match scene {
        Scene::Two => new_book(alloc, limits(256), Vec::new(alloc)),
        Scene::Twenty => new_book(alloc, limits(20), Vec::new(alloc)),
        Scene::Nobody => stored_book(alloc),
    }
}

/// Whether all of a scene takes place as it should.
fn takes_place<R: Threads + Wait + time::Clock + Sync>(
    rt: &R,
    alloc: Global,
    scene: Scene,
) -> bool {
    match book_of(alloc, scene) {
        Some(Opened { book, mut pass }) => {
            let events = Events::new();
            let are_served = are_served(rt, alloc, &book, &mut pass, &events, scene);
            let are_whole = events.are_whole();
            drop(events);
            let has_history = has_history(rt, alloc, book, pass, scene);
            are_served && are_whole && has_history
        }
        None => false,
    }
}

#[test]
fn connections_and_children_are_served_side_by_side(rt: HostRuntime) -> Result<(), Fail> {
    for scene in [Scene::Two, Scene::Twenty, Scene::Nobody] {
        assert!(rt; takes_place(&rt, rt.alloc(), scene));
    }
    Ok(())
}
