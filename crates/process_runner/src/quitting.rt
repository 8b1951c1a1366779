ghost use Rattle.std.specs.Prelude.{IsTrue};

/// What may ask for the end of what runs.
pub trait Quit {
    /// Whether it may ask.
    ghost may_ask: { Self → Type 0 };

    /// Whether the end is asked for.
    fn asked(&self) -> bool
        ensures { IsTrue result → may_ask self.now };
}

/// Never asks for the end.
#[derive(Clone, Copy, Debug, PartialEq, Eq)]
pub struct NoQuit;

impl Quit for NoQuit {
    ghost may_ask = { λ _. ⊥ };

    fn asked(&self) -> bool {
        false
    }
}
