use process_runner::Quit;
use scm_book::Bell;

/// Asks for the end once the book's bell is shut.
#[derive(Clone, Copy)]
pub struct BellQuit<'a> {
    bell: &'a Bell,
}

impl<'a> BellQuit<'a> {
    pub fn new(bell: &'a Bell) -> Self {
        BellQuit { bell }
    }
}

impl<'a> Quit for BellQuit<'a> {
    ghost use Rattle.std.specs.Prelude.{⊤};

    ghost may_ask = { λ _. ⊤ };

    fn asked(&self) -> bool {
        self.bell.is_shut()
    }
}
