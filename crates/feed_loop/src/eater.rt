ghost use Rattle.std.specs.Prelude.{ℕ, List, IfErr, OnOk};
ghost use Rattle.feed_loop.specs.Feeding.{At, MayEat, MayGoOn};

/// Takes the bytes of a source piece by piece, and works with them at a place and an output.
pub trait ByteConsumer<P, O> {
    /// Why it takes no further piece.
    type Stop;

    /// It may take so many bytes more.
    ghost ready: { At Self P O → ℕ → Type 0 };

    /// What a piece that was taken makes of it.
    ghost eats: { At Self P O → At Self P O → List ℕ → Type 0 };

    /// What a piece leaves at which it stopped.
    ghost stops: { At Self P O → At Self P O → List ℕ → Self.Stop → Type 0 };

    /// Takes a piece.
    fn consume(&mut self, place: &mut P, output: &mut O, piece: &[u8]) -> Result<(), Self::Stop>
        requires { MayEat ready
            (record { eater = self.old; place = place.old; output = output.old }) piece.now }
        ensures ready { MayGoOn ready
            (record { eater = self.old; place = place.old; output = output.old })
            (record { eater = self.new; place = place.new; output = output.new }) piece.now }
        ensures eaten { OnOk result (eats
            (record { eater = self.old; place = place.old; output = output.old })
            (record { eater = self.new; place = place.new; output = output.new }) piece.now) }
        ensures stopped { IfErr result (λ why. stops
            (record { eater = self.old; place = place.old; output = output.old })
            (record { eater = self.new; place = place.new; output = output.new }) piece.now why) };
}
