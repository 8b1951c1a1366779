//! Bytes in hexadecimal, and names for them.
use std::alloc::Global;
use std::io;
use std::io::Write;

/// Bytes under names.
#[derive(Drop)]
pub struct Names {
    list: Vec<(String, Vec<u8>)>,
}

/// Appends the bytes of a word in hexadecimal, up to the first letter that is no digit.
fn append(to: &mut Vec<u8>, word: &str) -> io::Result<()> {
    let mut high = 16u32;
    for letter in word.bytes() {
        let digit = char::from(letter).to_digit(16).unwrap_or(16);
        if digit > 15 {
            return Ok(());
        }
        if high > 15 {
            high = digit;
        } else {
            to.push((high * 16 + digit) as u8)?;
            high = 16;
        }
    }
    Ok(())
}

impl Names {
    pub fn new(alloc: Global) -> Self {
        Names {
            list: Vec::new(alloc),
        }
    }

    /// The bytes under a name.
    fn find(&self, name: &str) -> Option<&[u8]> {
        for (known, bytes) in &self.list {
            if known.as_str() == name {
                return Some(bytes.as_slice());
            }
        }
        None
    }

    /// Appends what words stand for: what is under a name, or a word in hexadecimal.
    pub fn read(&self, to: &mut Vec<u8>, words: &str) -> io::Result<()> {
        for word in words.split(' ') {
            match self.find(word) {
                Some(bytes) => to.extend_from_slice(bytes)?,
                None => append(to, word)?,
            }
        }
        Ok(())
    }

    /// Takes a name and what the words after it stand for.
    pub fn add(&mut self, alloc: Global, line: &str) -> io::Result<()> {
        let (name, words) = line.split_once(' ').unwrap_or((line, ""));
        let mut bytes = Vec::new(alloc);
        self.read(&mut bytes, words)?;
        let name = String::from_str(alloc, name)?;
        self.list.push((name, bytes))?;
        Ok(())
    }
}

/// Prints a line of parts.
pub fn say<W: Write>(out: &mut W, parts: &[&str]) -> io::Result<()> {
    for part in parts {
        out.write_all(part.as_bytes())?;
    }
    out.write_all(b"\n")
}

/// Prints a label, and bytes in hexadecimal.
pub fn show<W: Write>(out: &mut W, label: &str, bytes: &[u8]) -> io::Result<()> {
    out.write_all(label.as_bytes())?;
    for byte in bytes {
        write!(out, "{byte:02x}")?;
    }
    out.write_all(b"\n")
}

/// How many of some bytes the PDU takes that they begin with, by its header.
fn pdu_length(bytes: &[u8]) -> usize {
    match bytes {
        [_, _, _, _, _, _, _, _, low, high, ..] => usize::from(*low) + 256 * usize::from(*high),
        _ => bytes.len(),
    }
}

/// Prints the PDUs that bytes are, each in a line.
pub fn show_pdus<W: Write>(out: &mut W, bytes: &[u8]) -> io::Result<()> {
    let mut rest = bytes;
    for _ in 0..bytes.len() {
        if rest.is_empty() {
            return Ok(());
        }
        let (pdu, after) = rest.split_at(pdu_length(rest).min(rest.len()));
        show(out, "> ", pdu)?;
        rest = after;
    }
    Ok(())
}
