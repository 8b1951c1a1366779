//! Words as commands.
use crate::bytes::say;
use sc_words::{Command, WordsFault, read_words};
use scm_text::{Items, Text};
use std::alloc::Global;
use std::io;
use std::io::Write;

/// The words of a line, between which `|` stands.
pub fn words_of(alloc: Global, line: &str) -> io::Result<Items<Text>> {
    let mut words = Vec::new(alloc);
    for word in line.split('|') {
        words.push(Text::from_string(String::from_str(alloc, word)?))?;
    }
    Ok(Items::from_vec(words))
}

/// The command that a line is, or why it is none.
pub fn command_of(alloc: Global, line: &str) -> io::Result<Result<Command, WordsFault>> {
    let words = words_of(alloc, line)?;
    let command = read_words(alloc, &words);
    drop(words);
    Ok(command)
}

/// Prints whether a line is a command, or the place of the first word that doesn't fit.
pub fn read<W: Write>(alloc: Global, out: &mut W, line: &str) -> io::Result<()> {
    match command_of(alloc, line)? {
        Ok(command) => {
            drop(command);
            say(out, &["a command"])
        }
        Err(fault) => writeln!(out, "{fault}"),
    }
}
