ghost use Rattle.std.specs.Prelude.{◌≡◌};
ghost use Rattle.scm_lines.specs.Verbs.{fails_by, verb_at};

use super::words::is;

/// The word that says what a line's step is.
#[derive(Clone, Copy, PartialEq, Eq)]
pub enum Verb {
    Join,
    Call,
    /// A call whose change can't be appended.
    FailCall,
    End,
    Take,
    Launched,
    Unlaunched,
    Report,
    Ended,
    Control,
    Tick,
    Raise,
    Gone,
    NoMemory,
}

impl Verb {
    /// Whether a change that the step makes can't be appended.
    pub fn fails(self) -> bool
        ensures { result ≡ fails_by self }
    {
        self == Verb::FailCall
    }
}

/// The verb that a word is.
#[tactic(auto, unfolding(crate::specs::Verbs::verb_at))]
pub fn verb_at(word: &[u8]) -> Option<Verb>
    ensures { result ≡ verb_at word.now }
{
    if is(word, "join") {
        Some(Verb::Join)
    } else if is(word, "call") {
        Some(Verb::Call)
    } else if is(word, "failcall") {
        Some(Verb::FailCall)
    } else if is(word, "end") {
        Some(Verb::End)
    } else if is(word, "take") {
        Some(Verb::Take)
    } else if is(word, "launched") {
        Some(Verb::Launched)
    } else if is(word, "unlaunched") {
        Some(Verb::Unlaunched)
    } else if is(word, "report") {
        Some(Verb::Report)
    } else if is(word, "ended") {
        Some(Verb::Ended)
    } else if is(word, "control") {
        Some(Verb::Control)
    } else if is(word, "tick") {
        Some(Verb::Tick)
    } else if is(word, "raise") {
        Some(Verb::Raise)
    } else if is(word, "gone") {
        Some(Verb::Gone)
    } else if is(word, "nomem") {
        Some(Verb::NoMemory)
    } else {
        None
    }
}
