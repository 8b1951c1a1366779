ghost use Rattle.std.specs.Prelude.{◌≡◌, ◌++◌, OnOk, codes, decimal};
ghost use Rattle.sc_lines.specs.Lines.{field_text, labelled, lines, seen_line, seen_lines};
ghost use Rattle.sc_lines.specs.Printed.{printed};

use super::printing::printed;
use scm_text::{Items, OutOfMemory};
use std::alloc::Global;

/// What a function that appends returns: it fails only where memory is out.
pub type Appended = Result<(), OutOfMemory>;

/// A line: a label, and what it labels.
#[derive(Clone, Copy)]
pub enum Line<'a> {
    Number(&'a str, u32),
    /// A number and its name.
    Named(&'a str, u32, &'a str),
    Word(&'a str, &'a str),
    /// A text of 16-bit units.
    Text(&'a str, &'a [u16]),
}

/// Appends a label, what it labels, and a line feed.
fn add_labelled(text: &mut Items<u8>, label: &str, rest: &str) -> Appended
    ensures { OnOk result (text.new ≡ text.old ++ labelled label.now rest.now) }
{
    text.append_pair(label.as_bytes(), rest.as_bytes())?;
    text.append(b"\n")
}

/// Appends a label, a number with its name, and a line feed.
fn add_named(text: &mut Items<u8>, label: &str, number: u32, name: &str) -> Appended
    ensures { OnOk result (text.new
        ≡ text.old ++ labelled label.now (decimal number ++ (codes " " ++ name.now))) }
{
    text.append_pair(
        label.as_bytes(),
        itoa::Buffer::new().format(number).as_bytes(),
    )?;
    text.append_pair(b" ", name.as_bytes())?;
    text.append(b"\n")
}

/// Appends a label, a text, and a line feed.
fn add_text(text: &mut Items<u8>, alloc: Global, label: &str, units: &[u16]) -> Appended
    ensures { OnOk result (text.new ≡ text.old ++ labelled label.now (printed units.now)) }
{
    match printed(alloc, units) {
        Ok(rest) => add_labelled(text, label, rest.as_str()),
        Err(_) => Err(OutOfMemory),
    }
}

/// Appends a line.
fn add_line(text: &mut Items<u8>, alloc: Global, line: &Line<'_>) -> Appended
    ensures { OnOk result (text.new ≡ text.old ++ field_text (seen_line line.now)) }
{
    match line {
        Line::Number(label, number) => {
            add_labelled(text, label, itoa::Buffer::new().format(*number))
        }
        Line::Named(label, number, name) => add_named(text, label, *number, name),
        Line::Word(label, word) => add_labelled(text, label, word),
        Line::Text(label, units) => add_text(text, alloc, label, units),
    }
}

/// Appends lines.
pub fn add_lines(text: &mut Items<u8>, alloc: Global, list: &[Line<'_>]) -> Appended
    ensures { OnOk result (text.new ≡ text.old ++ lines (seen_lines list.now)) }
{
    for line in list {
        add_line(text, alloc, line)?;
    }
    Ok(())
}
