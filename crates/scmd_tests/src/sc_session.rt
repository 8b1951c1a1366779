//! `sc` at `scmd serve`, both in one process, over the loopback and with children that obey.
use crate::children::{ObedientSpawner, Told};
use crate::running::put_words;
use crate::sc_asking::{TAKE, session};
use crate::sc_rows::{GROUPS, JOURNAL};
use journal_disk::MemoryDisk;
use journal_store::JournalStore;
use outside::{MemorySink, MemorySource, SystemClock};
use process_runner::SpawnFaults;
use record_journal::MemoryKeeper;
use sc_dial::TcpDialer;
use scm_listener::PortListener;
use scm_text::{Items, Text};
use scmd_top::{World, scmd_main};
use std::alloc::Global;
use std::net::{Net, TcpListener, TcpStream};
use std::sync::Wait;
use std::test::*;
use std::thread::Threads;
use std::{thread, time};

/// The bytes of the journal, or none where there is no memory.
fn journal(alloc: Global) -> Vec<u8> {
    let mut bytes = Vec::new(alloc);
    let _is_whole = bytes.extend_from_slice(JOURNAL).is_ok();
    bytes
}

/// Serves ports by these words, with the system's clock and children that obey. Whether it ends
/// well, with as many services as the session leaves.
fn serves<R>(rt: &R, words: &Items<Text>, told: &Told) -> bool
where
    R: Net<Listener = TcpListener, Stream = TcpStream>
        + Threads
        + Wait
        + time::Clock
        + AllocGlobal
        + Copy
        + Send
        + Sync
        + Drop,
{
    let alloc = rt.alloc();
    let world = World {
        input: MemorySource::new(Vec::new(alloc), Vec::new(alloc)),
        output: MemorySink::new(alloc, Vec::new(alloc)),
        keeper: MemoryKeeper::new(journal(alloc), Vec::new(alloc)),
        store: JournalStore::new(alloc, MemoryDisk::new(alloc, Vec::new(alloc))),
        admin: PortListener::new(alloc, *rt, None),
        user: PortListener::new(alloc, *rt, None),
        spawner: ObedientSpawner {
            rt: *rt,
            told,
            next: 0,
            faults: SpawnFaults::NONE,
        },
        clock: SystemClock::new(*rt),
    };
    let (status, world) = scmd_main(rt, alloc, words, world);
    let is_so = status == 0 && world.output.bytes().ends_with(b"\nservices 6\n");
    drop(world);
    is_so
}

/// Two ports of the loopback at which nobody listens.
fn free_ports<R: Net<Listener = TcpListener, Stream = TcpStream>>(rt: &R) -> Option<(u16, u16)> {
    let one = TcpListener::bind(rt, "127.0.0.1:0").ok()?;
    let other = TcpListener::bind(rt, "127.0.0.1:0").ok()?;
    match (one.local_addr(), other.local_addr()) {
        (Ok(one), Ok(other)) => Some((one.port(), other.port())),
        _ => None,
    }
}

/// Puts the words of a server with these ports. `None` where there is no memory.
fn put_server(alloc: Global, words: &mut Vec<Text>, admin: u16, user: u16) -> Option<()> {
    put_words(alloc, words, "serve|--db|journal|--groups", '|')?;
    put_words(alloc, words, GROUPS, '|')?;
    let line = format!(in alloc;
        "--admin|{}|--user|{}|--take-admin|{}|--take-user|0",
        admin, user, TAKE
    );
    put_words(alloc, words, line.ok()?.as_str(), '|')
}

#[test]
fn sc_goes_through_the_usual_session(rt: HostRuntime) -> Result<(), Fail> {
    let alloc = rt.alloc();
    let (admin, user) = free_ports(&rt).ok_or("no ports")?;
    let address = format!(in alloc; "127.0.0.1:{}", admin)?;
    let mut words = Vec::new(alloc);
    let is_put = put_server(alloc, &mut words, admin, user).is_some();
    let words = Items::from_vec(words);
    let told = Told::nothing();
    let (is_served, is_held) = thread::join(
        &rt,
        || serves(&rt, &words, &told),
        || {
            let mut dialer = TcpDialer::new(rt);
            let is_held = session(&rt, alloc, &mut dialer, &address);
            told.end();
            is_held
        },
    );
    drop(words);
    drop(address);
    if is_put && is_served && is_held {
        Ok(())
    } else {
        Err("another session".into())
    }
}
