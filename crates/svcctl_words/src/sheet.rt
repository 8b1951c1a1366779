//! What is asked and told by rows, as PDUs or as lines. What makes them returns `None` at words
//! that it can't read, and where there is no memory.
use crate::bodies::{Body, put_hex};
use crate::names::{CALLS, Table, named};
use std::alloc::Global;

/// The first word, and the others.
pub fn first_word(words: &str) -> (&str, &str) {
    let words = words.trim();
    words.split_once(' ').unwrap_or((words, ""))
}

/// Which column of a row is put.
#[derive(Clone, Copy)]
pub enum Side {
    Asks,
    Tells,
}

/// The two columns of a row. What it shows, which stands first, is for the reader.
fn columns_of(line: &str) -> (&str, &str) {
    let (_, rest) = line.split_once('|').unwrap_or((line, ""));
    rest.split_once('|').unwrap_or((rest, ""))
}

/// The moment that a line begins with, 0 where it says none, and what stands after it.
fn moment_of(line: &str) -> (&str, &str) {
    let (word, rest) = first_word(line);
    if word.parse::<u64>().is_ok() {
        (word, rest)
    } else {
        ("0", line.trim())
    }
}

/// Puts a byte as two digits.
fn put_byte(all: &mut Vec<u8>, byte: u8) -> Option<()> {
    let digits = b"0123456789abcdef";
    all.push(*digits.get(usize::from(byte / 16))?).ok()?;
    all.push(*digits.get(usize::from(byte % 16))?).ok()
}

/// All that rows ask, or all that they are answered, and the body that is being made.
#[derive(Drop)]
pub struct Sheet {
    /// Rows by name: a line that is a name stands for them.
    groups: Table,
    all: Vec<u8>,
    body: Body,
    /// How many rows it has.
    rows: u32,
}

impl Sheet {
    pub fn new(alloc: Global, groups: Table) -> Self {
        Sheet {
            groups,
            all: Vec::new(alloc),
            body: Body::new(alloc),
            rows: 0,
        }
    }

    pub fn bytes(&self) -> &[u8] {
        self.all.as_slice()
    }

    fn clear(&mut self) {
        self.all.clear();
        self.rows = 0;
    }

    /// Puts the header of a PDU with so many bytes after it.
    fn put_header(&mut self, kind: u8, flags: u8, call: u32, rest: usize) -> Option<()> {
        let length = u16::try_from(rest.checked_add(16)?).ok()?;
        let all = &mut self.all;
        all.extend_from_slice(&[5, 0, kind, flags, 0x10, 0, 0, 0])
            .ok()?;
        all.extend_from_slice(&length.to_le_bytes()).ok()?;
        all.extend_from_slice(&[0, 0]).ok()?;
        all.extend_from_slice(&call.to_le_bytes()).ok()
    }

    fn put_body(&mut self) -> Option<()> {
        self.all.extend_from_slice(self.body.bytes()).ok()
    }

    /// Puts a PDU whose kind, flags and call id are said, and its items.
    fn put_pdu(&mut self, words: &str) -> Option<()> {
        let (kind, words) = first_word(words);
        let (flags, words) = first_word(words);
        let (call, items) = first_word(words);
        self.body.make(items)?;
        let length = self.body.bytes().len();
        self.put_header(
            kind.parse().ok()?,
            flags.parse().ok()?,
            call.parse().ok()?,
            length,
        )?;
        self.put_body()
    }

    /// Puts a request or a response on context 0 whose stub has these items.
    fn put_call(&mut self, opnum: Option<u16>, items: &str) -> Option<()> {
        self.body.make(items)?;
        let stub = self.body.bytes().len();
        let kind = if opnum.is_some() { 0 } else { 2 };
        self.put_header(kind, 3, self.rows, stub.checked_add(8)?)?;
        self.all
            .extend_from_slice(&u32::try_from(stub).ok()?.to_le_bytes())
            .ok()?;
        self.all.extend_from_slice(&[0, 0]).ok()?;
        self.all
            .extend_from_slice(&opnum.unwrap_or(0).to_le_bytes())
            .ok()?;
        self.put_body()
    }

    /// Puts the fault with which a call is answered.
    fn put_fault(&mut self, items: &str) -> Option<()> {
        self.body.make("0 0")?;
        self.body.add(items)?;
        self.body.add("0")?;
        let length = self.body.bytes().len();
        self.put_header(3, 3, self.rows, length)?;
        self.put_body()
    }

    /// Puts a column of a row of a connection.
    fn put_column(&mut self, side: Side, words: &str) -> Option<()> {
        let (first, items) = first_word(words);
        match (first, side) {
            ("", _) => Some(()),
            ("pdu", _) => self.put_pdu(items),
            ("hex", _) => put_hex(&mut self.all, items.trim()),
            ("fault", _) => self.put_fault(items),
            (call, Side::Asks) => {
                let opnum = named(CALLS, call).unwrap_or(call);
                self.put_call(Some(opnum.parse().ok()?), items)
            }
            (_, Side::Tells) => self.put_call(None, words),
        }
    }

    /// Puts words with a space after each.
    fn put_spaced(&mut self, words: &[&str]) -> Option<()> {
        for word in words {
            self.all.extend_from_slice(word.as_bytes()).ok()?;
            self.all.push(b' ').ok()?;
        }
        Some(())
    }

    /// Puts a body in hex, and the end of the line.
    fn end_by_body(&mut self, items: &str) -> Option<()> {
        self.body.make(items)?;
        for byte in self.body.bytes() {
            put_byte(&mut self.all, *byte)?;
        }
        self.all.push(b'\n').ok()
    }

    fn put_line(&mut self, line: &str) -> Option<()> {
        self.all.extend_from_slice(line.trim().as_bytes()).ok()?;
        self.all.push(b'\n').ok()
    }

    /// Puts a step: as it stands, but for a call's number and its body in hex.
    fn put_step(&mut self, line: &str) -> Option<()> {
        let (moment, step) = moment_of(line);
        let (verb, words) = first_word(step);
        if verb != "call" && verb != "failcall" {
            self.put_spaced(&[moment])?;
            return self.put_line(step);
        }
        let (caller, words) = first_word(words);
        let (call, items) = first_word(words);
        let opnum = named(CALLS, call).unwrap_or(call);
        self.put_spaced(&[moment, verb, caller, opnum])?;
        self.end_by_body(items)
    }

    /// Puts an answer: as it stands, but for a reply's body in hex.
    fn put_answer(&mut self, line: &str) -> Option<()> {
        let (first, items) = first_word(line);
        if first != "reply" {
            return self.put_line(line);
        }
        self.put_spaced(&[first])?;
        self.end_by_body(items)
    }

    /// Puts the lines that `;` parts: steps or answers.
    fn put_lines(&mut self, side: Side, words: &str) -> Option<()> {
        for line in words.split(';') {
            match side {
                Side::Asks => self.put_step(line)?,
                Side::Tells => self.put_answer(line)?,
            }
        }
        Some(())
    }

    /// Puts lines, so many times, or bytes as they are, or nothing.
    fn put_text(&mut self, side: Side, words: &str, count: u32) -> Option<()> {
        if let Some(hex) = words.strip_prefix("hex ") {
            return put_hex(&mut self.all, hex);
        }
        if !words.is_empty() {
            for _ in 0..count {
                self.put_lines(side, words)?;
            }
        }
        Some(())
    }

    /// Puts the lines of a history, which have their moments and their answers already.
    fn put_history(&mut self, words: &str) -> Option<()> {
        self.put_text(Side::Tells, words, 1)
    }

    /// Puts a side of a row, as PDUs where the run is a pipe, and else as lines, which stand as they
    /// are where it is an audit. `16 times` stands before a line that is asked, and told, so often.
    /// A request has the number of its row as its call id.
    fn put_row(&mut self, words: &str, line: &str, side: Side) -> Option<()> {
        self.rows = self.rows.saturating_add(1);
        let (asked, told) = columns_of(line);
        let (count, asked) = asked.split_once(" times ").unwrap_or(("1", asked));
        let column = match side {
            Side::Asks => asked,
            Side::Tells => told,
        };
        if words.starts_with("pipe") {
            self.put_column(side, column)
        } else if words.starts_with("audit") {
            self.put_history(column.trim())
        } else {
            self.put_text(side, column.trim(), count.trim().parse().ok()?)
        }
    }

    /// Puts one side of the row of a line, or of all rows that it is the name of.
    fn put_rows(&mut self, words: &str, line: &str, side: Side) -> Option<()> {
        for row in named(self.groups, line).unwrap_or(line).lines() {
            if !row.is_empty() {
                self.put_row(words, row, side)?;
            }
        }
        Some(())
    }

    /// Puts one side of these rows in the place of what was there.
    pub fn put(&mut self, words: &str, rows: &str, side: Side) -> Option<()> {
        self.clear();
        for line in rows.lines() {
            self.put_rows(words, line, side)?;
        }
        Some(())
    }

    /// Whether a text begins with the answers of these rows; else the first line whose answers
    /// differ.
    pub fn begins<'a>(&mut self, words: &str, rows: &'a str, text: &[u8]) -> Result<(), &'a str> {
        self.clear();
        for line in rows.lines() {
            self.put_rows(words, line, Side::Tells).ok_or(line)?;
            if !text.starts_with(self.bytes()) {
                return Err(line);
            }
        }
        Ok(())
    }
}
