ghost use Rattle.std.specs.Prelude.{◌≡◌, ◌≤◌, ◌<◌, ◌^◌, ◌+◌, ◌-◌, length, IfErr, OnOk};
ghost use Rattle.feed_loop.specs.Feeding.{Feeds, FedOnce, IsFedFor, fed_at};

use super::eater::ByteConsumer;
use super::fed::ReadEnd;
use outside::Source;

/// How many bytes are read.
const WORN: u64 = 1 << 40;

/// How many bytes are read at once.
const PIECE: u64 = 4096;

/// Reads a piece and lets it be eaten. An `Err` says how the feeding ends.
fn feed_once<P, O, E: ByteConsumer<P, O>, I: Source>(
    eater: &mut E,
    place: &mut P,
    output: &mut O,
    input: &mut I,
    count: &mut u64,
    into: &mut [u8],
) -> Result<(), ReadEnd<E::Stop>>
    requires nonempty { 0 < length into.old }
    requires short { length into.old ≤ 4096 }
    requires most { count.old + length into.old ≤ 2 ^ 40 }
    requires ready { E.ready (fed_at eater.old place.old output.old) (2 ^ 40 - count.old) }
    ensures most { count.new ≤ 2 ^ 40 }
    ensures ready { E.ready (fed_at eater.new place.new output.new) (2 ^ 40 - count.new) }
    ensures fed { FedOnce E.eats E.stops
        (fed_at eater.old place.old output.old) (fed_at eater.new place.new output.new)
        (I.left input.old) (I.left input.new) count.old count.new result }
    ensures grows { I.faults input.old ≤ I.faults input.new }
    ensures cause { IfErr result (λ how. IsFedFor how (I.faults input.old) (I.faults input.new)) }
    ensures unfailed { OnOk result (I.faults input.new ≡ I.faults input.old) }
{
    let Ok(n) = input.read(into) else {
        return Err(ReadEnd::ReadFault);
    };
    if n == 0 {
        return Err(ReadEnd::Ended);
    }
    *count += n as u64;
    let (piece, _) = into.split_at(n);
    match eater.consume(place, output, piece) {
        Ok(()) => Ok(()),
        Err(why) => Err(ReadEnd::Stopped(why)),
    }
}

/// Reads a source piece by piece, of 4,096 bytes at most, and lets each be eaten before the next
/// read, until the source ends or fails, a piece stops it, or 2^40 bytes were read. `count` bytes
/// were read before, and it counts on.
pub fn feed_all<P, O, E: ByteConsumer<P, O>, I: Source>(
    eater: &mut E,
    place: &mut P,
    output: &mut O,
    input: &mut I,
    count: &mut u64,
) -> ReadEnd<E::Stop>
    requires most { count.old ≤ 2 ^ 40 }
    requires ready { E.ready (record { eater = eater.old; place = place.old; output = output.old })
        (2 ^ 40 - count.old) }
    ensures most { count.new ≤ 2 ^ 40 }
    ensures ready { E.ready (record { eater = eater.new; place = place.new; output = output.new })
        (2 ^ 40 - count.new) }
    ensures feeds { Feeds E.eats E.stops
        (record { eater = eater.old; place = place.old; output = output.old })
        (record { eater = eater.new; place = place.new; output = output.new })
        (I.left input.old) (I.left input.new) count.old count.new result }
    ensures grows { I.faults input.old ≤ I.faults input.new }
    ensures cause { IsFedFor result (I.faults input.old) (I.faults input.new) }
{
    let mut piece = [0u8; 4096];
    while *count < WORN {
        let room = (WORN - *count).min(PIECE) as usize;
        let (into, _) = piece.split_at_mut(room);
        match feed_once(eater, place, output, input, count, into) {
            Ok(()) => {}
            Err(how) => return how,
        }
    }
    ReadEnd::Worn
}
