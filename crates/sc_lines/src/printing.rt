ghost use Rattle.std.specs.Prelude.{◌≡◌, ◌<◌, ◌≤◌, ◌∷◌, IfOk, drop, length, string_bytes};
ghost use Rattle.std.specs.Char.Utf16.{utf16_chars};
ghost use Rattle.sc_lines.specs.Printed.{printed};

use std::alloc::{AllocError, Global};

/// The character whose units begin at a place, unless that unit is a surrogate without a partner,
/// and the place after it.
fn char_at(units: &[u16], at: usize) -> (Option<char>, usize)
    requires { at < length units.now }
    ensures bound { (at < result.1) × (result.1 ≤ length units.now) }
    ensures first { utf16_chars (drop at units.now) ≡ result.0 ∷ utf16_chars
        (drop result.1 units.now) }
{
    let high = units[at] as u32;
    if high < 0xD800 || 0xE000 <= high {
        return (char::from_u32(high), at + 1);
    }
    if 0xDC00 <= high || units.len() - at < 2 {
        return (None, at + 1);
    }
    let low = units[at + 1] as u32;
    if low < 0xDC00 || 0xE000 <= low {
        return (None, at + 1);
    }
    let code = 0x1_0000 + (high - 0xD800) * 0x400 + (low - 0xDC00);
    (char::from_u32(code), at + 2)
}

/// A text in UTF-8, with `?` for each unit that is no part of well-formed UTF-16.
#[tactic(auto, unfolding(crate::specs::Printed::printed))]
pub fn printed(alloc: Global, units: &[u16]) -> Result<String, AllocError>
    ensures { IfOk result (λ text. string_bytes text ≡ printed units.now) }
{
    let mut text = String::new(alloc);
    let mut at = 0;
    while at < units.len() {
        let (found, next) = char_at(units, at);
        text.push(found.unwrap_or('?'))?;
        at = next;
    }
    Ok(text)
}
