ghost use Rattle.std.specs.Prelude.{◌≡◌, ◌==◌, ◌<◌, ◌^◌, ◌∷◌, All, IfNone, IfSome, Some, bytes_eq};
ghost use Rattle.std.specs.Prelude.{drop, length, option_map, slice_get, take, false};
ghost use Rattle.child_link.specs.Words.{word_code, word_number, words_in};

use decimal_words::{number_at, number_below};
use std::marker::Model;

/// The words of a text that are left, between which one space stands.
#[derive(Drop)]
pub struct Words<'a> {
    left: Option<&'a [u8]>,
}

impl<'a> Model for Words<'a> {
    ghost use Rattle.std.specs.Prelude.{ℕ, List, option_map};
    ghost use Rattle.child_link.specs.Words.{words_in};

    ghost Value = { List (List ℕ) };

    ghost view = { λ words. words_in (option_map (λ text. text.now) words.left) };
}

/// The place of the first space.
fn first_space(text: &[u8]) -> Option<usize>
    ensures space { IfSome result (λ place. (slice_get text.now place ≡ Some 32)
        × All (λ b. (b == 32) ≡ false) (take place text.now)) }
    ensures none { IfNone result (All (λ b. (b == 32) ≡ false) text.now) }
    ensures bound { IfSome result (λ place. place < length text.now) }
{
    text.iter().position(|b| *b == b' ')
}

/// The first word of a text, and what follows the space after it.
struct FirstWord<'a> {
    word: &'a [u8],
    rest: Option<&'a [u8]>,
}

fn first_word(text: &[u8]) -> FirstWord<'_>
    ensures { words_in (Some text.now) ≡ result.word.now
        ∷ words_in (option_map (λ rest. rest.now) result.rest) }
{
    match first_space(text) {
        Some(place) => FirstWord {
            word: &text[..place],
            rest: Some(&text[place + 1..]),
        },
        None => FirstWord {
            word: text,
            rest: None,
        },
    }
}

impl<'a> Words<'a> {
    /// All words of a text.
    pub fn of(text: &'a [u8]) -> Self
        ensures { result ≡ words_in (Some text.now) }
    {
        Words { left: Some(text) }
    }

    /// The same words.
    pub fn again(&self) -> Self
        ensures { result ≡ self.now }
    {
        Words { left: self.left }
    }

    /// Takes the next word, if there is one.
    pub fn next(&mut self) -> Option<&'a [u8]>
        ensures word { option_map (λ word. word.now) result ≡ slice_get self.old 0 }
        ensures rest { self.new ≡ drop 1 self.old }
    {
        let FirstWord { word, rest } = first_word(self.left?);
        self.left = rest;
        Some(word)
    }

    /// Takes the next word, and answers the number of 32 bits of which it is the decimal form.
    pub fn next_code(&mut self) -> Option<u32>
        ensures code { result ≡ word_code (slice_get self.old 0) }
        ensures rest { self.new ≡ drop 1 self.old }
    {
        let word = self.next()?;
        let number = number_below(1 << 32, word)?;
        Some(number as u32)
    }

    /// Takes the next word, and answers the number of 64 bits of which it is the decimal form.
    pub fn next_number(&mut self) -> Option<u64>
        ensures number { result ≡ word_number (slice_get self.old 0) }
        ensures rest { self.new ≡ drop 1 self.old }
    {
        number_at(self.next()?)
    }
}
