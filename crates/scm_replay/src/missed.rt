ghost use Rattle.std.specs.Prelude.{◌≡◌};
ghost use Rattle.scm_replay.specs.Answers.{missed_word};

/// What a step that only looks did not find.
#[derive(Clone, Copy, PartialEq, Eq)]
pub enum Missed {
    /// The start is undecided.
    Again,
    /// No launch is wanted, or nothing is sent to the process.
    Empty,
    /// The process isn't listed.
    Over,
    /// Nothing is due.
    Idle,
}

impl Missed {
    /// The word that tells it.
    pub fn word(self) -> &'static str
        ensures { result.now ≡ missed_word self }
    {
        match self {
            Missed::Again => "again",
            Missed::Empty => "empty",
            Missed::Over => "over",
            Missed::Idle => "idle",
        }
    }
}
