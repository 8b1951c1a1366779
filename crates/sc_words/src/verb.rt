ghost use Rattle.std.specs.Prelude.{◌≡◌};
ghost use Rattle.sc_words.specs.Words.{verb_named};

/// The word that says what a command does.
#[derive(Clone, Copy, PartialEq, Eq)]
pub enum Verb {
    Create,
    Config,
    Description,
    Failure,
    Start,
    Stop,
    Pause,
    Continue,
    Interrogate,
    Control,
    Query,
    Delete,
    QueryConfig,
    QueryEx,
    QueryDescription,
    QueryFailure,
    QueryFailureFlag,
    FailureFlag,
    QueryTriggerInfo,
    TriggerInfo,
    EnumDepend,
    GetDisplayName,
    GetKeyName,
    QueryLock,
    ShowSecurity,
    SetSecurity,
}

/// The verb that a word is.
pub fn verb_named(word: &str) -> Option<Verb>
    ensures { result ≡ verb_named word.now }
{
    match word {
        "create" => Some(Verb::Create),
        "config" => Some(Verb::Config),
        "description" => Some(Verb::Description),
        "failure" => Some(Verb::Failure),
        "start" => Some(Verb::Start),
        "stop" => Some(Verb::Stop),
        "pause" => Some(Verb::Pause),
        "continue" => Some(Verb::Continue),
        "interrogate" => Some(Verb::Interrogate),
        "control" => Some(Verb::Control),
        "query" => Some(Verb::Query),
        "delete" => Some(Verb::Delete),
        "qc" => Some(Verb::QueryConfig),
        "queryex" => Some(Verb::QueryEx),
        "qdescription" => Some(Verb::QueryDescription),
        "qfailure" => Some(Verb::QueryFailure),
        "qfailureflag" => Some(Verb::QueryFailureFlag),
        "failureflag" => Some(Verb::FailureFlag),
        "qtriggerinfo" => Some(Verb::QueryTriggerInfo),
        "triggerinfo" => Some(Verb::TriggerInfo),
        "enumdepend" => Some(Verb::EnumDepend),
        "getdisplayname" => Some(Verb::GetDisplayName),
        "getkeyname" => Some(Verb::GetKeyName),
        "querylock" => Some(Verb::QueryLock),
        "sdshow" => Some(Verb::ShowSecurity),
        "sdset" => Some(Verb::SetSecurity),
        _ => None,
    }
}
