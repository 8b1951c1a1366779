ghost use Rattle.std.specs.Prelude.{◌≡◌, ◌+◌, ◌++◌, ◌<◌, ◌≤◌, ◌^◌, ◌∷◌, [], IfErr, IfNone, IfSome};
ghost use Rattle.std.specs.Prelude.{OnErr, OnOk, length, slice_index, take};
ghost use Rattle.scm_replay.specs.Replay.{IsOneLine};
ghost use Rattle.trail_audit.specs.Along.{CanGoOn, FrontFed, LinesFed, MayRead, point};
ghost use Rattle.trail_audit.specs.declared.stop.Stop.TheVariants as stop;

use super::auditor::Auditor;
use super::stop::Stop;
use feed_loop::ByteConsumer;
use memchr::memchr;

/// What was read of the next line, and its number, counted from 1.
#[derive(Drop)]
pub struct Reading {
    pub pending: Vec<u8>,
    pub number: u64,
}

/// Begins the next line.
fn next_line(reading: &mut Reading)
    requires { reading.old.number < 2 ^ 63 }
    ensures pending { reading.new.pending.items ≡ [] }
    ensures number { reading.new.number ≡ reading.old.number + 1 }
{
    reading.pending.clear();
    reading.number += 1;
}

/// Keeps bytes of the line that is read.
fn hold(reading: &mut Reading, bytes: &[u8]) -> Result<(), Stop>
    ensures ok { OnOk result (reading.new.pending.items ≡ reading.old.pending.items ++ bytes.now) }
    ensures err { OnErr result (reading.new.pending.items ≡ reading.old.pending.items) }
    ensures why { IfErr result (λ why. why ≡ stop.OutOfMemory) }
    ensures number { reading.new.number ≡ reading.old.number }
{
    match reading.pending.extend_from_slice(bytes) {
        Ok(()) => Ok(()),
        Err(_) => Err(Stop::OutOfMemory),
    }
}

/// Has the line taken that was read, and begins the next one.
fn end_line(auditor: &mut Auditor, reading: &mut Reading) -> Result<(), Stop>
    requires { MayRead auditor.old reading.old 1 }
    ensures fed { LinesFed (10 ∷ []) (point auditor.old reading.old)
        (point auditor.new reading.new) result }
    ensures on { MayRead auditor.new reading.new 0 }
    ensures number { reading.new.number ≤ reading.old.number + 1 }
{
    let Ok(right) = auditor.take_line(reading.pending.as_slice()) else {
        return Err(Stop::OutOfMemory);
    };
    if !right {
        return Err(Stop::Wrong(reading.number));
    }
    next_line(reading);
    Ok(())
}

/// The place of the first line feed.
fn first_feed(bytes: &[u8]) -> Option<usize>
    ensures feed { IfSome result (λ place. (slice_index bytes.now place ≡ 10)
        × IsOneLine (take place bytes.now)) }
    ensures none { IfNone result (IsOneLine bytes.now) }
    ensures bound { IfSome result (λ place. place < length bytes.now) }
{
    memchr(b'\n', bytes)
}

/// Takes the bytes up to the first line feed and the line that it ends, or keeps them all where
/// there is none. It tells how many it took.
fn take(auditor: &mut Auditor, reading: &mut Reading, bytes: &[u8]) -> Result<usize, Stop>
    requires may { MayRead auditor.old reading.old 1 }
    requires some { 0 < length bytes.now }
    ensures fed { FrontFed bytes.now (point auditor.old reading.old)
        (point auditor.new reading.new) result }
    ensures on { MayRead auditor.new reading.new 0 }
    ensures number { reading.new.number ≤ reading.old.number + 1 }
{
    match first_feed(bytes) {
        Some(place) => {
            hold(reading, &bytes[..place])?;
            end_line(auditor, reading)?;
            Ok(place + 1)
        }
        None => {
            hold(reading, bytes)?;
            Ok(bytes.len())
        }
    }
}

/// Takes a piece, and the lines that end in it.
fn feed(auditor: &mut Auditor, reading: &mut Reading, piece: &[u8]) -> Result<(), Stop>
    requires { MayRead auditor.old reading.old (length piece.now) }
    ensures fed { LinesFed piece.now (point auditor.old reading.old)
        (point auditor.new reading.new) result }
    ensures on { MayRead auditor.new reading.new 0 }
    ensures number { reading.new.number ≤ reading.old.number + length piece.now }
{
    let mut taken = 0;
    while taken < piece.len() {
        match take(auditor, reading, &piece[taken..]) {
            Ok(more) => taken += more,
            Err(stop) => return Err(stop),
        }
    }
    Ok(())
}

impl ByteConsumer<Auditor, ()> for Reading {
    ghost use Rattle.trail_audit.specs.Along.{GoesOn, MayRead, StopsIn, point};

    type Stop = Stop;

    ghost ready = { λ a most. MayRead a.place a.eater most };

    ghost eats = { λ a b piece. GoesOn piece (point a.place a.eater) (point b.place b.eater) };

    ghost stops = { λ a b piece why. StopsIn piece (point a.place a.eater) why };

    fn consume(
        &mut self,
        auditor: &mut Auditor,
        _output: &mut (),
        piece: &[u8],
    ) -> Result<(), Stop> {
        feed(auditor, self, piece)
    }
}
