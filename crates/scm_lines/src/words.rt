ghost use Rattle.std.specs.Prelude.{◌≡◌, ◌==◌, IfOk, bytes_eq, map};
ghost use Rattle.std.specs.List.{list_any};
ghost use Rattle.scm_lines.specs.Words.{hex_at, is_upper, line_words};

use hex::FromHexError;
use scm_text::{Items, OutOfMemory};
use std::alloc::{AllocError, Global};

/// Whether a word is this one.
pub fn is(word: &[u8], name: &str) -> bool
    ensures { result ≡ bytes_eq word.now name.now }
{
    word == name.as_bytes()
}

/// How many words a line has at most that says something: those of a report.
const MOST_WORDS: usize = 11;

fn split<'a>(alloc: Global, line: &'a [u8]) -> Result<Vec<&'a [u8]>, AllocError>
    ensures { IfOk result (λ words. map (λ word. word.now) words.items ≡ line_words line.now) }
{
    let mut words = Vec::with_capacity(alloc, MOST_WORDS)?;
    words.extend(line.split(|b| *b == b' '))?;
    Ok(words)
}

/// The words of a line.
pub fn words_of<'a>(alloc: Global, line: &'a [u8]) -> Result<Vec<&'a [u8]>, OutOfMemory>
    ensures { IfOk result (λ words. map (λ word. word.now) words.items ≡ line_words line.now) }
{
    match split(alloc, line) {
        Ok(words) => Ok(words),
        Err(_) => Err(OutOfMemory),
    }
}

fn is_upper(b: u8) -> bool
    ensures { result ≡ is_upper b }
{
    65 <= b && b <= 90
}

/// It looks at each byte, so that many are looked at at once.
fn has_upper(text: &[u8]) -> bool
    ensures { result ≡ list_any is_upper text.now }
{
    let mut found = false;
    for b in text {
        found |= is_upper(*b);
    }
    found
}

/// The bytes that a word in hexadecimal stands for.
#[tactic(auto, unfolding(crate::specs::Words::hex_at))]
pub fn bytes_at(alloc: Global, text: &[u8]) -> Result<Option<Items<u8>>, OutOfMemory>
    ensures { IfOk result (λ bytes. bytes ≡ hex_at text.now) }
{
    if has_upper(text) {
        return Ok(None);
    }
    match hex::decode(alloc, text) {
        Ok(bytes) => Ok(Some(Items::from_vec(bytes))),
        Err(FromHexError::OutOfMemory) => Err(OutOfMemory),
        Err(_) => Ok(None),
    }
}
