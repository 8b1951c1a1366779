//! Bytes are gathered in a vector beside a sink, which gets them in large pieces. What the sink
//! holds and then the vector is what was written.
ghost use Rattle.std.specs.Prelude.{◌≡◌, ◌≤◌, ◌++◌, [], IfOk, OnOk, drop, length, if◌then◌else◌};
ghost use Rattle.std.specs.Io.KnownBytes.{Keeps, append_known};
ghost use Rattle.outside.specs.Causes.{HasCause};
ghost use Rattle.trail_export.specs.Gathered.{Gathers, held_size};

use outside::{Failed, Sink, write_all};
use scm_text::OutOfMemory;
use std::alloc::Global;

/// A piece for the sink, in bytes.
const PIECE: usize = 65536;

/// An empty vector with room for a piece.
pub fn reserve_piece(alloc: Global) -> Result<Vec<u8>, OutOfMemory>
    ensures { IfOk result (λ buffer. buffer.items ≡ []) }
{
    match Vec::with_capacity(alloc, PIECE) {
        Ok(buffer) => Ok(buffer),
        Err(_) => Err(OutOfMemory),
    }
}

/// Appends bytes if there is room, and says whether there was.
fn add(bytes: &[u8], buffer: &mut Vec<u8>) -> bool
    ensures { buffer.new.items
        ≡ (if result then buffer.old.items ++ bytes.now else buffer.old.items) }
{
    if bytes.len() > buffer.capacity() - buffer.len() {
        return false;
    }
    buffer.extend_from_slice(bytes).is_ok()
}

/// Writes bytes, and says how many of them the sink took.
fn pass<T: Sink>(bytes: &[u8], sink: &mut T) -> (usize, Result<(), Failed>)
    ensures bound { result.0 ≤ length bytes.now }
    ensures kept { Keeps (append_known (T.held sink.old) bytes.now)
        (append_known (T.held sink.new) (drop result.0 bytes.now)) }
    ensures all { OnOk result.1 (length bytes.now ≤ result.0) }
    ensures longer { held_size (T.held sink.old) ≤ held_size (T.held sink.new) }
    ensures cause { HasCause (T.faults sink.old) (T.faults sink.new) result.1 }
{
    let mut count = 0;
    while count < bytes.len() {
        match sink.write(&bytes[count..]) {
            Ok(more) => count += more,
            Err(fault) => return (count, Err(fault)),
        }
    }
    (count, Ok(()))
}

/// Drops the front of this length.
fn remove_front(bytes: &mut Vec<u8>, front: usize)
    requires { front ≤ length bytes.old.items }
    ensures { bytes.new.items ≡ drop front bytes.old.items }
{
    let left = bytes.len() - front;
    bytes.copy_within(front.., 0);
    bytes.truncate(left);
}

/// Passes on what is gathered. What the sink didn't take stays.
pub fn pass_on<T: Sink>(buffer: &mut Vec<u8>, sink: &mut T) -> Result<(), Failed>
    ensures kept { Keeps (append_known (T.held sink.old) buffer.old.items)
        (append_known (T.held sink.new) buffer.new.items) }
    ensures all { OnOk result (buffer.new.items ≡ []) }
    ensures longer { held_size (T.held sink.old) ≤ held_size (T.held sink.new) }
    ensures cause { HasCause (T.faults sink.old) (T.faults sink.new) result }
{
    let (count, passed) = pass(buffer.as_slice(), sink);
    remove_front(buffer, count);
    passed
}

/// Puts bytes after what is gathered. That is passed on first if there is no room after it, and
/// bytes that no room is enough for go straight to the sink.
pub fn put<T: Sink>(bytes: &[u8], buffer: &mut Vec<u8>, sink: &mut T) -> Result<(), Failed>
    ensures written { Gathers (T.held sink.old) buffer.old.items
        (T.held sink.new) buffer.new.items result bytes.now }
    ensures longer { held_size (T.held sink.old) ≤ held_size (T.held sink.new) }
    ensures cause { HasCause (T.faults sink.old) (T.faults sink.new) result }
{
    if add(bytes, buffer) {
        return Ok(());
    }
    if let Err(fault) = pass_on(buffer, sink) {
        return Err(fault);
    }
    if add(bytes, buffer) {
        return Ok(());
    }
    write_all(sink, bytes)
}
