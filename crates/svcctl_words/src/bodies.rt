//! Bodies, made of words by the formats alone: nothing of the program is used. What makes one
//! returns `None` at a word that is no item, and where there is no memory.
ghost use Rattle.std.specs.Prelude.{◌<◌, IfSome};

use crate::names::{NAMED, named};
use std::alloc::Global;

/// Items of several bytes are aligned to 4.
fn align(bytes: &mut Vec<u8>) -> Option<()> {
    for _ in 0..3 {
        if bytes.len() % 4 != 0 {
            bytes.push(0).ok()?;
        }
    }
    Some(())
}

fn put_number(bytes: &mut Vec<u8>, number: u32) -> Option<()> {
    align(bytes)?;
    bytes.extend_from_slice(&number.to_le_bytes()).ok()
}

fn put_handle(bytes: &mut Vec<u8>, number: u64) -> Option<()> {
    put_number(bytes, 0)?;
    bytes.extend_from_slice(&number.to_le_bytes()).ok()?;
    bytes.extend_from_slice(&[0; 8]).ok()
}

/// The units of a text of ASCII, of which `_` stands for a space.
fn put_units(bytes: &mut Vec<u8>, text: &str) -> Option<()> {
    for unit in text.bytes() {
        bytes.push(if unit == b'_' { b' ' } else { unit }).ok()?;
        bytes.push(0).ok()?;
    }
    Some(())
}

/// `ab` and 9 of `ab^9`, or a text and 1.
fn counted(text: &str) -> Option<(&str, u32)> {
    let (part, count) = text.split_once('^').unwrap_or((text, "1"));
    Some((part, count.parse().ok()?))
}

/// A text with its counts, ended by a 0.
fn put_text(bytes: &mut Vec<u8>, text: &str) -> Option<()> {
    let (part, count) = counted(text)?;
    let units = u32::try_from(part.len())
        .ok()?
        .checked_mul(count)?
        .checked_add(1)?;
    put_number(bytes, units)?;
    put_number(bytes, 0)?;
    put_number(bytes, units)?;
    for _ in 0..count {
        put_units(bytes, part)?;
    }
    bytes.extend_from_slice(&[0, 0]).ok()
}

/// Names that a `/` parts, each ended by a 0, and a 0 after the last; before them the count of
/// their bytes.
fn put_names(bytes: &mut Vec<u8>, names: &str) -> Option<()> {
    if names.is_empty() {
        put_number(bytes, 2)?;
        return bytes.extend_from_slice(&[0, 0]).ok();
    }
    let units = u32::try_from(names.len()).ok()?.checked_add(2)?;
    put_number(bytes, units.checked_mul(2)?)?;
    for name in names.split('/') {
        put_units(bytes, name)?;
        bytes.extend_from_slice(&[0, 0]).ok()?;
    }
    bytes.extend_from_slice(&[0, 0]).ok()
}

/// The value of a hexadecimal digit.
fn digit(letter: u8) -> Option<u8>
    ensures { IfSome result (λ value. value < 16) }
{
    match letter {
        b'0'..=b'9' => Some(letter - b'0'),
        b'a'..=b'f' => Some(letter - b'a' + 10),
        _ => None,
    }
}

/// Puts the bytes of a line in hexadecimal.
pub fn put_hex(bytes: &mut Vec<u8>, line: &str) -> Option<()> {
    for pair in line.as_bytes().chunks(2) {
        let [high, low] = pair else {
            return None;
        };
        bytes.push(digit(*high)? * 16 + digit(*low)?).ok()?;
    }
    Some(())
}

/// Puts the bytes of lines in hexadecimal.
pub fn put_hex_lines(bytes: &mut Vec<u8>, hex: &str) -> Option<()> {
    for line in hex.lines() {
        put_hex(bytes, line)?;
    }
    Some(())
}

/// Bytes in hexadecimal, so many times.
fn put_repeated(bytes: &mut Vec<u8>, hex: &str) -> Option<()> {
    let (part, count) = counted(hex)?;
    for _ in 0..count {
        put_hex(bytes, part)?;
    }
    Some(())
}

/// A body that is made item by item, and the number that the next pointer gets.
#[derive(Drop)]
pub struct Body {
    bytes: Vec<u8>,
    next_pointer: u32,
}

impl Body {
    pub fn new(alloc: Global) -> Self {
        Body {
            bytes: Vec::new(alloc),
            next_pointer: 0,
        }
    }

    pub fn bytes(&self) -> &[u8] {
        self.bytes.as_slice()
    }

    /// Makes the body of these items in the place of the one before.
    pub fn make(&mut self, items: &str) -> Option<()> {
        self.bytes.clear();
        self.next_pointer = 0x20000;
        self.add(items)
    }

    /// Puts these items after the others.
    pub fn add(&mut self, items: &str) -> Option<()> {
        for word in items.split_whitespace() {
            self.put(word)?;
        }
        Some(())
    }

    /// An item, as `rows` has them in words.
    fn put(&mut self, word: &str) -> Option<()> {
        let bytes = &mut self.bytes;
        let rest = word.get(1..)?;
        match word.as_bytes().first()? {
            b'h' => put_handle(bytes, rest.parse().ok()?),
            b'\'' => put_text(bytes, rest.split_once('\'')?.0),
            b'[' => put_names(bytes, rest.split_once(']')?.0),
            b'x' => put_repeated(bytes, rest),
            b'#' => put_number(bytes, u32::from_str_radix(rest, 16).ok()?),
            b'*' => self.put_pointer(),
            b'-' => put_number(bytes, 0),
            _ => put_word(bytes, word),
        }
    }

    fn put_pointer(&mut self) -> Option<()> {
        put_number(&mut self.bytes, self.next_pointer)?;
        self.next_pointer = self.next_pointer.saturating_add(4);
        Some(())
    }
}

/// The bytes that a word is the name of, or a number in decimal.
fn put_word(bytes: &mut Vec<u8>, word: &str) -> Option<()> {
    match named(NAMED, word) {
        Some(hex) => {
            align(bytes)?;
            put_hex(bytes, hex)
        }
        None => put_number(bytes, word.parse().ok()?),
    }
}
