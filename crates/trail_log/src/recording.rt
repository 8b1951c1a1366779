// The codes of a trail go to a sink, segment after segment.
ghost use Rattle.std.specs.Prelude.{◌≡◌, ◌+◌, ◌≤◌, [], true, false, IfOk, OnOk, drop, length};
ghost use Rattle.std.specs.Io.KnownBytes.{Keeps, append_known};
ghost use Rattle.outside.specs.Causes.{HasCause};
ghost use Rattle.trail_log.specs.Recording.{IsWithin, LetsFrontGo, first_codes, unlogged};

use outside::{Failed, Sink};
use scm_trail::Trail;

/// Writes bytes, and says how many of them the sink took.
fn pass<T: Sink>(bytes: &[u8], sink: &mut T) -> (usize, Result<(), Failed>)
    ensures bound { result.0 ≤ length bytes.now }
    ensures kept { Keeps (append_known (T.held sink.old) bytes.now)
        (append_known (T.held sink.new) (drop result.0 bytes.now)) }
    ensures all { OnOk result.1 (length bytes.now ≤ result.0) }
    ensures cause { HasCause (T.faults sink.old) (T.faults sink.new) result.1 }
{
    let mut count = 0;
    while count < bytes.len() {
        match sink.write(&bytes[count..]) {
            Ok(more) => count += more,
            Err(fault) => return (count, Err(fault)),
        }
    }
    (count, Ok(()))
}

/// Writes what the log lacks of the first segment's codes, and says up to where it then has them.
fn record_first<T: Sink>(trail: &Trail, at: usize, sink: &mut T) -> (usize, Result<(), Failed>)
    requires { IsWithin at trail.now.parts }
    ensures within { IsWithin result.0 trail.now.parts }
    ensures kept { Keeps (append_known (T.held sink.old) (unlogged at trail.now.parts))
        (append_known (T.held sink.new) (unlogged result.0 trail.now.parts)) }
    ensures all { OnOk result.1 (length (first_codes trail.now.parts) ≤ result.0) }
    ensures cause { HasCause (T.faults sink.old) (T.faults sink.new) result.1 }
{
    let Some(codes) = trail.segment(0) else {
        return (at, Ok(()));
    };
    let (count, passed) = pass(&codes[at..], sink);
    (at + count, passed)
}

/// Writes what the log lacks of the first segment's codes, and lets that segment go if the last
/// entry lies in a later one. It says whether it did.
pub(crate) fn record_segment<T: Sink>(
    trail: &mut Trail,
    at: &mut usize,
    sink: &mut T,
) -> Result<bool, Failed>
    requires { IsWithin at.old trail.old.parts }
    ensures within { IsWithin at.new trail.new.parts }
    ensures kept { Keeps (append_known (T.held sink.old) (unlogged at.old trail.old.parts))
        (append_known (T.held sink.new) (unlogged at.new trail.new.parts)) }
    ensures all { IfOk result (λ more. more ≡ false → unlogged at.new trail.new.parts ≡ []) }
    ensures fewer { IfOk result (λ more. more ≡ true
        → length trail.new.parts + 1 ≡ length trail.old.parts) }
    ensures goes { LetsFrontGo trail.old trail.new }
    ensures cause { HasCause (T.faults sink.old) (T.faults sink.new) result }
{
    let (place, passed) = record_first(trail, *at, sink);
    *at = place;
    if let Err(fault) = passed {
        return Err(fault);
    }
    if !trail.let_go() {
        return Ok(false);
    }
    *at = 0;
    Ok(true)
}

/// Writes to the log all codes that it lacks, and lets go what it has, but not the segment of the
/// last entry. What the log holds and then what it lacks stays the same at each moment; after a
/// fault it lacks what the sink didn't take.
pub fn record<T: Sink>(trail: &mut Trail, at: &mut usize, sink: &mut T) -> Result<(), Failed>
    requires { IsWithin at.old trail.old.parts }
    ensures within { IsWithin at.new trail.new.parts }
    ensures kept { Keeps (append_known (T.held sink.old) (unlogged at.old trail.old.parts))
        (append_known (T.held sink.new) (unlogged at.new trail.new.parts)) }
    ensures all { OnOk result (unlogged at.new trail.new.parts ≡ []) }
    ensures goes { LetsFrontGo trail.old trail.new }
    ensures cause { HasCause (T.faults sink.old) (T.faults sink.new) result }
{
    while record_segment(trail, at, sink)? {}
    Ok(())
}
