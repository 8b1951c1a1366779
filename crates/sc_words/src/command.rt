use super::security::NewSecurity;
use super::settings::Settings;
use scm_model::TriggerIn;
use scm_text::{Items, Text, WText};

/// A part of a configuration that is asked for alone.
#[derive(Clone, Copy, PartialEq, Eq)]
pub enum Level {
    Description,
    /// What is done after failures.
    Failure,
    /// Whether a stop with an error is a failure too.
    FailureFlag,
    /// What starts and stops the service when it is raised.
    Triggers,
}

/// What a command does with its service, or with the manager.
pub enum Task {
    Create(Settings),
    Config(Settings),
    Description(WText),
    Failure(Settings),
    /// The words that the service is started with.
    Start(Items<WText>),
    /// The control's code.
    Control(u32),
    Query,
    Delete,
    QueryConfig,
    QueryLevel(Level),
    /// The status with the process.
    QueryEx,
    /// Whether a stop with an error is to be a failure too.
    FailureFlag(bool),
    /// The triggers that the service is to have.
    Triggers(Items<TriggerIn>),
    /// The services that need this one.
    EnumDepend,
    /// The display name of the service that is named.
    DisplayName,
    /// The name of the service whose display name is given.
    KeyName,
    /// Every service.
    QueryAll,
    /// Who holds the lock of the database.
    QueryLock,
    /// Who may do what with the service.
    QuerySecurity,
    SetSecurity(NewSecurity),
}

impl Drop for Task {
    fn drop(self) {
        match self {
            Task::Create(settings) | Task::Config(settings) | Task::Failure(settings) => {
                drop(settings);
            }
            Task::Description(text) => drop(text),
            Task::Start(words) => drop(words),
            Task::Triggers(triggers) => drop(triggers),
            Task::SetSecurity(new) => drop(new),
            Task::Control(_) | Task::QueryLevel(_) | Task::FailureFlag(_) => {}
            Task::Query | Task::Delete | Task::QueryConfig | Task::QueryEx | Task::EnumDepend => {}
            Task::DisplayName | Task::KeyName | Task::QueryAll | Task::QueryLock => {}
            Task::QuerySecurity => {}
        }
    }
}

/// A command to a manager.
pub struct Command {
    /// Where the manager listens, as `127.0.0.1:4000`.
    pub address: Text,
    /// The service's name, or the empty text if the verb takes none.
    pub name: WText,
    pub task: Task,
}

impl Drop for Command {
    fn drop(self) {
        let Command {
            address,
            name,
            task,
        } = self;
        drop(address);
        drop(name);
        drop(task);
    }
}
