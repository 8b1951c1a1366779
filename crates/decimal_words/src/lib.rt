//! Numbers that are read from the decimal form in which they are written.
#![tactic(auto)]

ghost use Rattle.std.specs.Prelude.{◌≡◌, ◌*◌, ◌+◌, ◌<◌, ◌≤◌, ◌^◌, ◌⊎◌, false, length, slice_index};
ghost use Rattle.std.specs.Prelude.{IfNone, IfSome, IsTrue};
ghost use Rattle.std.specs.Char.{digit_value};
ghost use Rattle.std.specs.Str.Parse.{AllDigits, digits_value};
ghost use Rattle.decimal_words.specs.Numbers.{decimal_number, number_below};

/// The number with one digit more, if it is a digit and the number still has 64 bits.
fn with_digit(number: u64, digit: u8) -> Option<u64>
    ensures some { IfSome result (λ n. (digit_value digit < 10)
        × (n ≡ number * 10 + digit_value digit) × (n < 2 ^ 64)) }
    ensures none { IfNone result (digit_value digit < 10 → 2 ^ 64 ≤ number * 10
        + digit_value digit) }
{
    if digit < b'0' || b'9' < digit {
        return None;
    }
    let digit = u64::from(digit - b'0');
    if number <= (u64::MAX - digit) / 10 {
        Some(number * 10 + digit)
    } else {
        None
    }
}

/// The number that digits write, if they are digits and it has 64 bits.
fn digits_at(text: &[u8]) -> Option<u64>
    ensures some { IfSome result (λ n. AllDigits 10 text.now × (n ≡ digits_value 10 text.now)
        × (n < 2 ^ 64)) }
    ensures none { IfNone result (AllDigits 10 text.now → 2 ^ 64 ≤ digits_value 10 text.now) }
{
    let mut number = 0;
    for digit in text {
        number = with_digit(number, *digit)?;
    }
    Some(number)
}

/// Whether a word begins as a decimal form does: it isn't empty, and no zero stands before others.
fn begins_well(text: &[u8]) -> bool
    ensures yes { IsTrue result → (0 < length text.now)
        × (slice_index text.now 0 ≡ 48 → length text.now ≡ 1) }
    ensures no { result ≡ false → (length text.now ≡ 0)
        ⊎ ((slice_index text.now 0 ≡ 48) × (1 < length text.now)) }
{
    !text.is_empty() && (text[0] != b'0' || text.len() == 1)
}

/// The number of which a word is the decimal form.
pub fn number_at(text: &[u8]) -> Option<u64>
    ensures { result ≡ decimal_number text.now }
{
    if begins_well(text) {
        digits_at(text)
    } else {
        None
    }
}

/// The same of a number that has to be smaller than a limit.
#[tactic(auto, unfolding(crate::specs::Numbers::number_below))]
pub fn number_below(limit: u64, text: &[u8]) -> Option<u64>
    ensures number { result ≡ number_below limit text.now }
    ensures small { IfSome result (λ number. number < limit) }
{
    let number = number_at(text)?;
    if number < limit { Some(number) } else { None }
}
