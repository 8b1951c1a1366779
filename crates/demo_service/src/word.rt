ghost use Rattle.std.specs.Prelude.{◌≡◌};
ghost use Rattle.std.specs.List.{list_any};
ghost use Rattle.demo_service.specs.Doing.{is_unknown, word_of};

use scm_model::codes::{
    SERVICE_PAUSED, SERVICE_RUNNING, SERVICE_START_PENDING, SERVICE_STOP_PENDING, SERVICE_STOPPED,
};
use scm_text::Text;

/// What a word asks for.
#[derive(Clone, Copy, Debug, PartialEq, Eq)]
pub enum Word {
    /// To report this state.
    Report(u32),
    /// To wait for the control that stops.
    Wait,
    /// To obey the orders of a shared process.
    Share,
}

/// The word that a text is.
pub fn word_at(text: &str) -> Option<Word>
    ensures { result ≡ word_of text.now }
{
    match text {
        "pending" => Some(Word::Report(SERVICE_START_PENDING)),
        "running" => Some(Word::Report(SERVICE_RUNNING)),
        "paused" => Some(Word::Report(SERVICE_PAUSED)),
        "stopping" => Some(Word::Report(SERVICE_STOP_PENDING)),
        "stopped" => Some(Word::Report(SERVICE_STOPPED)),
        "wait" => Some(Word::Wait),
        "shared" => Some(Word::Share),
        _ => None,
    }
}

fn is_unknown(text: &Text) -> bool
    ensures { result ≡ is_unknown text.now }
{
    word_at(text.as_str()).is_none()
}

/// Whether one of the texts is no word.
pub fn any_is_unknown(texts: &[Text]) -> bool
    ensures { result ≡ list_any is_unknown texts.now }
{
    texts.iter().any(|text| is_unknown(text))
}
