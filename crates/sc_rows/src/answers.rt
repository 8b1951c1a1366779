//! What a command asks after answers, and what is printed of them.
use crate::bytes::{say, show};
use crate::words::command_of;
use sc_words::{Command, Heard, failure_of, next_request, show_reply};
use scm_model::{NewService, Reply, Request, Status};
use scm_text::{Items, OutOfMemory};
use std::alloc::Global;
use std::io;
use std::io::Write;
use std::mem::replace;

/// A process of its own that runs and accepts a stop.
const RUNNING: Status = Status {
    kind: 16,
    state: 4,
    accepted: 1,
    win32: 0,
    specific: 0,
    checkpoint: 0,
    hint: 0,
};

/// The answer that a word is, as `handle:7`.
fn answer_of(word: &str) -> Heard {
    let (what, number) = word.split_once(':').unwrap_or((word, ""));
    let number = number.parse::<u32>().unwrap_or(0);
    let handle = u64::from(number);
    match what {
        "handle" => Heard::Reply(Reply::Handle { handle, code: 0 }),
        "made" => Heard::Reply(Reply::Made {
            tag: None,
            handle,
            code: 0,
        }),
        "running" => Heard::Reply(Reply::State {
            status: RUNNING,
            code: 0,
        }),
        "fault" => Heard::Fault(number),
        _ => Heard::Reply(Reply::Code(number)),
    }
}

/// Prints a creation.
fn show_creation<W: Write>(out: &mut W, new: &NewService) -> io::Result<()> {
    write!(
        out,
        "creation by handle {}, access {:x}",
        new.handle, new.access
    )?;
    write!(
        out,
        ", type {:x}, start {}, error {}",
        new.kind, new.start, new.error
    )?;
    match &new.needs {
        Some(needs) => show(out, ", depends on ", needs.as_slice()),
        None => say(out, &[", depends on nothing"]),
    }
}

/// Prints a request.
fn show_request<W: Write>(out: &mut W, request: &Request) -> io::Result<()> {
    match request {
        Request::OpenManager {
            database: None,
            access,
        } => writeln!(out, "open the manager, access {access:x}"),
        Request::Create(new) => show_creation(out, new),
        Request::Close { handle } => writeln!(out, "close of handle {handle}"),
        _ => say(out, &["another request"]),
    }
}

/// Prints the request that is due.
fn show_due<W: Write>(out: &mut W, due: &Result<Option<Request>, OutOfMemory>) -> io::Result<()> {
    match due {
        Ok(Some(request)) => show_request(out, request),
        Ok(None) => say(out, &["nothing"]),
        Err(_) => say(out, &["out of memory"]),
    }
}

/// Prints the text of the answers, after whether a call was refused.
fn show_text<W: Write>(
    alloc: Global,
    out: &mut W,
    command: &Command,
    heard: &Items<Heard>,
) -> io::Result<()> {
    let refused = failure_of(command, heard).is_some();
    say(out, &[if refused { "refused" } else { "not refused" }])?;
    match show_reply(alloc, command, heard) {
        Ok(text) => out.write_all(text.as_slice()),
        Err(_) => say(out, &["out of memory"]),
    }
}

/// Appends the answers that words are.
fn append(heard: &mut Vec<Heard>, words: &str) -> io::Result<()> {
    for word in words.split(' ') {
        heard.push(answer_of(word))?;
    }
    Ok(())
}

/// Takes the answers that words are in the place of those before.
pub fn hear(alloc: Global, heard: &mut Items<Heard>, words: &str) -> io::Result<()> {
    let mut list = Vec::new(alloc);
    let told = append(&mut list, words);
    drop(replace(heard, Items::from_vec(list)));
    told
}

/// Prints what a command asks after these answers.
pub fn ask<W: Write>(
    alloc: Global,
    out: &mut W,
    line: &str,
    heard: &Items<Heard>,
) -> io::Result<()> {
    match command_of(alloc, line)? {
        Ok(command) => {
            let due = next_request(alloc, &command, heard.as_slice());
            drop(command);
            let told = show_due(out, &due);
            drop(due);
            told
        }
        Err(fault) => writeln!(out, "{fault}"),
    }
}

/// Prints the text of these answers to a command.
pub fn tell<W: Write>(
    alloc: Global,
    out: &mut W,
    line: &str,
    heard: &Items<Heard>,
) -> io::Result<()> {
    match command_of(alloc, line)? {
        Ok(command) => {
            let told = show_text(alloc, out, &command, heard);
            drop(command);
            told
        }
        Err(fault) => writeln!(out, "{fault}"),
    }
}
