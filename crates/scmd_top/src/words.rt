ghost use Rattle.std.specs.Prelude.{◌≡◌, ◌≤◌, IfSome, option_and_then, option_map};
ghost use Rattle.scm_lines.specs.Words.{decimal_at};
ghost use Rattle.scmd_top.specs.Parts.{IsText};
ghost use Rattle.scmd_top.specs.Words.{HasFew, IsFew, audit_with, bare_task, generate_with};
ghost use Rattle.scmd_top.specs.Words.{is_bare, job_named, listed_groups, path_of, pipe_of};
ghost use Rattle.scmd_top.specs.Words.{replay_job};
ghost use Rattle.scmd_top.specs.Words.{serving_of, store_of, task_named, task_of, with_options};
ghost use Rattle.scmd_top.specs.Words.{within};
ghost use Rattle.scmd_top.specs.declared.words.Task.TheVariants as tasks;

use crate::settings::{Settings, file_of, groups_text, store_in};
use decimal_words::number_at;
use scm_listener::Listening;
use scm_model::Principal;
use scm_text::{Items, Text};

/// Why the words of the program can't be had.
#[derive(Clone, Copy)]
pub enum NoWords {
    /// One of them isn't UTF-8.
    NotText,
    OutOfMemory,
}

/// What the program is to do.
#[derive(Clone, Copy)]
pub enum Job {
    /// Serves one connection from the input to the output.
    Pipe {
        principal: Principal,
    },
    /// Makes the steps of the input's lines, and answers them.
    Replay,
    /// Makes the stated list of steps for so many services, and prints its summary.
    Generate {
        services: u32,
    },
    /// Reads a history as text, and says whether it is legal.
    Audit,
    /// Serves the connections of two ports over one book, and prints the summary of its history,
    /// and before it the history if it is to be exported.
    Serve {
        admin: Listening,
        user: Listening,
        export: bool,
    },
}

/// What the program is to do, wherever it keeps its journal.
#[derive(Clone, Copy)]
pub enum Task {
    Run(Job),
    /// Replaces the journal in a store by its compact text.
    Compact,
    /// Moves the journal of a file to a store.
    Move,
}

/// A number of services, if steps are generated for so many.
fn within(number: u64) -> Option<u32>
    ensures number { result ≡ within number }
    ensures few { IfSome result (λ services. services ≤ 512) }
{
    if 1 <= number && number <= 512 {
        Some(number as u32)
    } else {
        None
    }
}

/// For how many services steps are generated, by the arguments after `generate`.
fn generate_with(words: &[Text]) -> Option<Job>
    ensures job { result ≡ generate_with words.now }
    ensures few { IfSome result IsFew }
{
    match words {
        [word] => {
            let number = number_at(word.as_str().as_bytes())?;
            let services = within(number)?;
            Some(Job::Generate { services })
        }
        _ => None,
    }
}

/// An audit has no arguments.
fn audit_with(words: &[Text]) -> Option<Job>
    ensures job { result ≡ audit_with words.now }
    ensures few { IfSome result IsFew }
{
    match words {
        [] => Some(Job::Audit),
        _ => None,
    }
}

/// A pipe's connection is an administrator's, unless the options say it. No history is exported.
fn pipe_of(said: Settings) -> Option<Job>
    ensures job { result ≡ pipe_of said }
    ensures few { IfSome result IsFew }
{
    if said.export {
        return None;
    }
    match (
        said.waits,
        said.admin,
        said.user,
        said.take_admin,
        said.take_user,
        said.groups,
    ) {
        (None, None, None, None, None, false) => Some(Job::Pipe {
            principal: said.principal.unwrap_or(Principal::Admin),
        }),
        _ => None,
    }
}

/// Whether no option is given but a file or a store.
fn is_bare(said: Settings) -> bool
    ensures { result ≡ is_bare said }
{
    pipe_of(said).is_some() && said.principal.is_none()
}

/// A replay has no option but its file.
fn replay_of(said: Settings) -> Option<Job>
    ensures { result ≡ replay_job said }
{
    if is_bare(said) && !said.store {
        Some(Job::Replay)
    } else {
        None
    }
}

/// Where connections are served, once both ports are given and no value is waited for.
fn serving_of(said: Settings) -> Option<Job>
    ensures { result ≡ serving_of said }
{
    match (said.waits, said.principal, said.admin, said.user) {
        (None, None, Some(admin), Some(user)) => Some(Job::Serve {
            admin: Listening {
                port: admin,
                take: said.take_admin,
            },
            user: Listening {
                port: user,
                take: said.take_user,
            },
            export: said.export,
        }),
        _ => None,
    }
}

/// The job of options.
fn with_pipe(words: &[Text]) -> Option<Job>
    ensures job { result ≡ with_options pipe_of words.now }
    ensures few { IfSome result IsFew }
{
    pipe_of(Settings::of(words)?)
}

fn with_replay(words: &[Text]) -> Option<Job>
    ensures job { result ≡ with_options replay_job words.now }
    ensures few { IfSome result IsFew }
{
    replay_of(Settings::of(words)?)
}

fn with_serve(words: &[Text]) -> Option<Job>
    ensures job { result ≡ with_options serving_of words.now }
    ensures few { IfSome result IsFew }
{
    serving_of(Settings::of(words)?)
}

/// The job that a word asks for, with these options.
fn job_named(word: &str, options: &[Text]) -> Option<Job>
    ensures job { result ≡ job_named word.now options.now }
    ensures few { IfSome result IsFew }
{
    match word {
        "pipe" => with_pipe(options),
        "replay" => with_replay(options),
        "generate" => generate_with(options),
        "audit" => audit_with(options),
        "serve" => with_serve(options),
        _ => None,
    }
}

/// A task without options of its own.
fn with_bare(task: Task, words: &[Text]) -> Option<Task>
    ensures { result ≡ with_options (bare_task task) words.now }
{
    if is_bare(Settings::of(words)?) {
        Some(task)
    } else {
        None
    }
}

/// A job as a task.
fn run_named(word: &str, options: &[Text]) -> Option<Task>
    ensures task { result ≡ option_map tasks.Run (job_named word.now options.now) }
    ensures few { IfSome result HasFew }
{
    Some(Task::Run(job_named(word, options)?))
}

/// The task that a word asks for, with these options.
fn task_named(word: &str, options: &[Text]) -> Option<Task>
    ensures task { result ≡ task_named word.now options.now }
    ensures few { IfSome result HasFew }
{
    match word {
        "compact" => with_bare(Task::Compact, options),
        "move" => with_bare(Task::Move, options),
        _ => run_named(word, options),
    }
}

/// The task that the words ask for, or none if they aren't in the set.
pub fn task_of(words: &Items<Text>) -> Option<Task>
    ensures task { result ≡ task_of words.now }
    ensures few { IfSome result HasFew }
{
    match words.as_slice() {
        [] => None,
        [word, options @ ..] => task_named(word.as_str(), options),
    }
}

/// The file that the words name, if they are a task.
pub fn path_of(words: &Items<Text>) -> Option<&str>
    ensures { IsText (path_of words.now) result }
{
    file_of(words.as_slice())
}

/// The store that the words name, if they are a task.
pub fn store_of(words: &Items<Text>) -> Option<&str>
    ensures { IsText (store_of words.now) result }
{
    store_in(words.as_slice())
}

/// The groups that the words list, if they are a task.
pub fn list_of(words: &Items<Text>) -> Option<&str>
    ensures { IsText (listed_groups words.now) result }
{
    groups_text(words.as_slice())
}
