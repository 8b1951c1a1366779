ghost use Rattle.std.specs.Prelude.{◌+◌, ◌≡◌, ◌≤◌, IfOk, length, true};
ghost use Rattle.sddl.specs.Reading.{ReadsAs, after_byte, after_bytes, begins, has_byte};

use crate::fault::SddlFault;
use sec_desc::from_place;

/// Whether a byte stands at a place.
pub fn has_byte(text: &[u8], place: usize, byte: u8) -> bool
    ensures value { result ≡ has_byte byte text.now place }
    ensures within { result ≡ true → place + 1 ≤ length text.now }
{
    begins(text, place, &[byte])
}

/// Whether a word stands at a place.
pub fn begins(text: &[u8], place: usize, word: &[u8]) -> bool
    ensures { result ≡ begins word.now text.now place }
{
    from_place(text, place).starts_with(word)
}

/// The place after a byte.
pub fn after_byte(text: &[u8], place: usize, byte: u8) -> Result<usize, SddlFault>
    requires { place ≤ length text.now }
    ensures read { ReadsAs (λ end. end) result (after_byte byte text.now place) }
    ensures within { IfOk result (λ end. end ≤ length text.now) }
{
    if has_byte(text, place, byte) {
        Ok(place + 1)
    } else {
        Err(SddlFault::Bad(place))
    }
}

/// The place after bytes.
pub fn after_bytes(text: &[u8], place: usize, bytes: &[u8]) -> Result<usize, SddlFault>
    requires { place ≤ length text.now }
    ensures read { ReadsAs (λ end. end) result (after_bytes bytes.now text.now place) }
    ensures within { IfOk result (λ end. end ≤ length text.now) }
{
    let mut at = place;
    for byte in bytes {
        at = after_byte(text, at, *byte)?;
    }
    Ok(at)
}
