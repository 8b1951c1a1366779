ghost use Rattle.std.specs.Prelude.{◌≡◌, ◌==◌, IfOk};
ghost use Rattle.std.specs.List.{list_any};
ghost use Rattle.sc_words.specs.Texts.{word_text, utf16_units};

use scm_text::{OutOfMemory, WText};
use std::alloc::{AllocError, Global};

fn utf16_units(alloc: Global, word: &str) -> Result<Vec<u16>, AllocError>
    ensures { IfOk result (λ units. units.items ≡ utf16_units word.now) }
{
    let mut units = Vec::new(alloc);
    let mut pair = [0; 2];
    for character in word.chars() {
        units.extend_from_slice(character.encode_utf16(&mut pair))?;
    }
    Ok(units)
}

fn has_zero(units: &[u16]) -> bool
    ensures { result ≡ list_any (λ unit. unit == 0) units.now }
{
    units.iter().any(|unit| *unit == 0)
}

/// A word as a text, if no unit of it is 0.
#[tactic(auto, unfolding(crate::specs::Texts::word_text), using(crate::proofs::Lists::no_zero))]
pub fn word_text(alloc: Global, word: &str) -> Result<Option<WText>, OutOfMemory>
    ensures { IfOk result (λ text. text ≡ word_text word.now) }
{
    let Ok(units) = utf16_units(alloc, word) else {
        return Err(OutOfMemory);
    };
    if has_zero(&units) {
        return Ok(None);
    }
    Ok(Some(WText::from_vec(units)))
}
