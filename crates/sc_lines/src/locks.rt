ghost use Rattle.std.specs.Prelude.{◌≡◌, ◌++◌, OnOk};
ghost use Rattle.sc_lines.specs.Locks.{lock_fields, lock_text};
ghost use Rattle.sc_lines.specs.Lines.{lines};

use super::levels::flag_name;
use super::lines::{Appended, Line, add_lines};
use scm_text::Items;
use std::alloc::Global;

fn add_fields<'a>(
    text: &mut Items<u8>,
    alloc: Global,
    held: &'a str,
    owner: &'a [u16],
    seconds: u32,
) -> Appended
    ensures { OnOk result (text.new ≡ text.old ++ lines (lock_fields held.now owner.now seconds)) }
{
    let fields = [
        Line::Word("IsLocked: ", held),
        Line::Text("LockOwner: ", owner),
        Line::Named("LockDuration: ", seconds, "(seconds since acquired)"),
    ];
    add_lines(text, alloc, &fields)
}

/// Appends whether the lock of the database is held, by whom and for how many seconds.
pub fn add_lock(
    text: &mut Items<u8>,
    alloc: Global,
    held: u32,
    owner: &[u16],
    seconds: u32,
) -> Appended
    ensures { OnOk result (text.new ≡ text.old ++ lock_text held owner.now seconds) }
{
    add_fields(text, alloc, flag_name(held != 0), owner, seconds)
}
