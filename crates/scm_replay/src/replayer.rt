// The lines of an input as what eats the pieces of a source.
use super::feeding::{Reading, feed};
use super::stop::Stop;
use feed_loop::ByteConsumer;
use outside::Sink;
use scm_core::Manager;
use std::alloc::Global;

/// Takes the pieces of an input, and answers the lines that end in them, at a manager.
#[derive(Drop)]
pub struct Replayer {
    pub alloc: Global,
    pub reading: Reading,
}

impl<O: Sink> ByteConsumer<Manager, O> for Replayer {
    ghost use Rattle.scm_replay.specs.Along.{IsFit, LinesEaten, LinesHalted, point};
    ghost use Rattle.scm_replay.specs.Replay.{IsOneLine};

    type Stop = Stop;

    ghost ready = { λ a most. IsFit a.place a.eater.reading.number most
        × IsOneLine a.eater.reading.pending.items };

    ghost eats = { λ a b piece. LinesEaten a.place b.place piece
        (point a.place a.eater.reading (O.held a.output))
        (point b.place b.eater.reading (O.held b.output))
        (O.faults a.output) (O.faults b.output) };

    ghost stops = { λ a b piece why. LinesHalted a.place b.place piece
        (point a.place a.eater.reading (O.held a.output))
        (point b.place b.eater.reading (O.held b.output))
        (O.faults a.output) (O.faults b.output) why };

    fn consume(&mut self, manager: &mut Manager, output: &mut O, piece: &[u8]) -> Result<(), Stop> {
        feed(self.alloc, manager, &mut self.reading, piece, output)
    }
}
