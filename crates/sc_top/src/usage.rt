ghost use Rattle.std.specs.Prelude.{◌≡◌};
ghost use Rattle.sc_top.specs.Usage.{asks_for_help, is_help, some_usage, usage, usage_for};

use sc_words::{Verb, verb_named};
use scm_text::Text;

/// A verb and its arguments. What may be left out stands in brackets.
pub fn usage(verb: Verb) -> &'static str
    ensures { result.now ≡ usage verb }
{
    match verb {
        Verb::Create => {
            "create NAME binPath= PATH [type= own|share] [start= \
             auto|demand|disabled|delayed-auto] [error= ignore|normal|severe|critical] \
             [group= GROUP] [tag= yes|no] [depend= NAME/+GROUP/...] [DisplayName= NAME] \
             [obj= LocalSystem]"
        }
        Verb::Config => {
            "config NAME [binPath= PATH] [type= own|share] [start= \
             auto|demand|disabled|delayed-auto] [error= ignore|normal|severe|critical] \
             [group= GROUP] [tag= yes|no] [depend= NAME/+GROUP/...] [DisplayName= NAME] \
             [obj= LocalSystem]"
        }
        Verb::Description => "description NAME TEXT",
        Verb::Failure => {
            "failure NAME [reset= SECONDS|INFINITE actions= \
             none|restart|reboot|run/MILLISECONDS/...] [command= TEXT]"
        }
        Verb::Start => "start NAME [ARGUMENT ...]",
        Verb::Stop => "stop NAME",
        Verb::Pause => "pause NAME",
        Verb::Continue => "continue NAME",
        Verb::Interrogate => "interrogate NAME",
        Verb::Control => "control NAME NUMBER",
        Verb::Query => "query [NAME]",
        Verb::Delete => "delete NAME",
        Verb::QueryConfig => "qc NAME",
        Verb::QueryEx => "queryex NAME",
        Verb::QueryDescription => "qdescription NAME",
        Verb::QueryFailure => "qfailure NAME",
        Verb::QueryFailureFlag => "qfailureflag NAME",
        Verb::FailureFlag => "failureflag NAME 0|1",
        Verb::QueryTriggerInfo => "qtriggerinfo NAME",
        Verb::TriggerInfo => "triggerinfo NAME start/custom/UUID|stop/custom/UUID ...|delete",
        Verb::EnumDepend => "enumdepend NAME",
        Verb::GetDisplayName => "getdisplayname NAME",
        Verb::GetKeyName => "getkeyname DISPLAYNAME",
        Verb::QueryLock => "querylock",
        Verb::ShowSecurity => "sdshow NAME",
        Verb::SetSecurity => "sdset NAME SDDL",
    }
}

/// Every verb, in the order of the manual.
pub static VERBS: [Verb; 26] = [
    Verb::Create,
    Verb::Config,
    Verb::Description,
    Verb::Failure,
    Verb::Start,
    Verb::Stop,
    Verb::Pause,
    Verb::Continue,
    Verb::Interrogate,
    Verb::Control,
    Verb::Query,
    Verb::Delete,
    Verb::QueryConfig,
    Verb::QueryEx,
    Verb::QueryDescription,
    Verb::QueryFailure,
    Verb::QueryFailureFlag,
    Verb::FailureFlag,
    Verb::QueryTriggerInfo,
    Verb::TriggerInfo,
    Verb::EnumDepend,
    Verb::GetDisplayName,
    Verb::GetKeyName,
    Verb::QueryLock,
    Verb::ShowSecurity,
    Verb::SetSecurity,
];

/// The usage of a verb, or of any.
fn some_usage(verb: Option<Verb>) -> &'static str
    ensures { result.now ≡ some_usage verb }
{
    match verb {
        Some(verb) => usage(verb),
        None => "VERB [NAME] [ARGUMENT ...]; the verbs: sc --help",
    }
}

/// The usage of the verb that arguments have in its place.
pub fn usage_for(words: &[Text]) -> &'static str
    ensures { result.now ≡ usage_for words.now }
{
    some_usage(match words.get(1) {
        Some(word) => verb_named(word.as_str()),
        None => None,
    })
}

/// Whether a first argument asks for help.
fn is_help(word: &str) -> bool
    ensures { result ≡ is_help word.now }
{
    match word {
        "help" => true,
        "--help" => true,
        "/?" => true,
        _ => false,
    }
}

/// Whether arguments that are no command ask for help.
pub fn asks_for_help(words: &[Text]) -> bool
    ensures { result ≡ asks_for_help words.now }
{
    match words.get(0) {
        Some(word) => is_help(word.as_str()),
        None => true,
    }
}
