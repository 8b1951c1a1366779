// A book whose service starts by itself.
ghost use Rattle.std.specs.Prelude.{◌≡◌, ◌≤◌, IfSome};
ghost use Rattle.scm_core.specs.Managed.{AreSmall};
ghost use Rattle.scm_book.specs.Passes.{IsOf};

use record_journal::MemoryKeeper;
use scm_book::{Book, Opened};
use scm_model::Limits;
use scm_restored::open_manager;
use scm_text::Items;
use std::alloc::Global;

/// A journal in which `A` of `/a` was created, which starts by itself.
const JOURNAL: [u8; 74] = [
    0x53, 0x43, 0x4D, 0x4A, 1, 0, 0, 0, // header
    1, 0x3D, 0, 0, 0, 1, 0, 0, 0, 0x41, 0, 1, 0, 0, 0, 0x41, 0, // names
    0x10, 0, 0, 0, 2, 0, 0, 0, 1, 0, 0, 0, 2, 0, 0, 0, 0x2F, 0, 0x61, 0, // up to the path
    0, 0, 0, 0, 0, 0, 0, 0, 0, 0, 0, 0, 0, 0, 0, 0, 0, 0, 0, 0, 0, 0, 0, 0, 0, 0, 0, 0, 0, //
];

/// Limits with room for all that it does.
fn limits() -> Limits
    ensures small { AreSmall result }
    ensures places { 1024 ≤ result.services }
{
    Limits {
        services: 1024,
        handles: 2,
        registrations: 0,
        callers: 2,
        processes: 2,
        controls: 1,
        steps: 16_777_216,
        text: 4096,
    }
}

/// The same over a keeper that has that journal.
fn opened(alloc: Global, mut keeper: MemoryKeeper) -> Option<Opened<MemoryKeeper>>
    ensures { IfSome result (λ new. IsOf new.book new.pass) }
{
    let opened = open_manager(
        alloc,
        limits(),
        Items::new(alloc),
        &mut keeper,
        Some("a"),
        0,
        false,
    );
    match opened {
        Ok(
            scm_restored::Opened {
                manager,
                journal,
                configs,
            },
        ) => {
            drop(configs);
            match Book::new(alloc, manager, journal, keeper) {
                Ok(opened) => Some(opened),
                Err(keeper) => {
                    drop(keeper);
                    None
                }
            }
        }
        Err(_) => {
            drop(keeper);
            None
        }
    }
}

/// A book that opens with that service, at moment 0.
pub fn stored_book(alloc: Global) -> Option<Opened<MemoryKeeper>>
    ensures { IfSome result (λ new. IsOf new.book new.pass) }
{
    match Vec::from_slice(alloc, &JOURNAL) {
        Ok(bytes) => opened(alloc, MemoryKeeper::new(bytes, Vec::new(alloc))),
        Err(_) => None,
    }
}
