ghost use Rattle.std.specs.Prelude.{◌+◌, ◌≡◌, ◌≤◌, IfOk, length, true};
ghost use Rattle.std.specs.Char.{digit_value};
ghost use Rattle.std.specs.List.{list_all, prefix_len};
ghost use Rattle.sddl.specs.Reading.{ReadsAs, digits_at, hex_at, hex_number, is_digit, number_at};

use crate::fault::SddlFault;
use decimal_words::number_below;
use sec_desc::from_place;

/// The value of a digit; 36 of another byte.
pub fn digit_value(byte: u8) -> u8
    ensures { result ≡ digit_value byte }
{
    match byte {
        b'0'..=b'9' => byte - b'0',
        b'a'..=b'z' => byte - b'a' + 10,
        b'A'..=b'Z' => byte - b'A' + 10,
        _ => 36,
    }
}

/// Whether a byte is a digit.
pub fn is_digit(radix: u8, byte: u8) -> bool
    requires { radix ≤ 36 }
    ensures { result ≡ is_digit radix byte }
{
    digit_value(byte) < radix
}

/// With how many digits the bytes begin.
fn count_digits(radix: u8, bytes: &[u8]) -> usize
    requires { radix ≤ 36 }
    ensures count { result ≡ prefix_len (is_digit radix) bytes.now }
    ensures within { result ≤ length bytes.now }
{
    let mut count = 0;
    while count < bytes.len() && is_digit(radix, bytes[count]) {
        count += 1;
    }
    count
}

/// The digits that begin at a place.
#[tactic(auto, unfolding(crate::specs::Reading::digits_at))]
fn digits_at(radix: u8, text: &[u8], place: usize) -> &[u8]
    requires { radix ≤ 36 }
    ensures digits { result.now ≡ digits_at radix text.now place }
    ensures within { place ≤ length text.now → place + length result.now ≤ length text.now }
{
    let rest = from_place(text, place);
    &rest[..count_digits(radix, rest)]
}

/// The decimal number of 32 bits that begins at a place, and where it ends.
#[tactic(auto, unfolding(crate::specs::Reading::number_at))]
pub fn number_at(text: &[u8], place: usize) -> Result<(u32, usize), SddlFault>
    requires { place ≤ length text.now }
    ensures read { ReadsAs (λ x. x) result (number_at text.now place) }
    ensures within { IfOk result (λ x. x.1 ≤ length text.now) }
{
    let digits = digits_at(10, text, place);
    match number_below(1 << 32, digits) {
        Some(number) => Ok((number as u32, place + digits.len())),
        None => Err(SddlFault::Bad(place)),
    }
}

/// The number that one to eight hexadecimal digits write.
#[tactic(auto, unfolding(crate::specs::Reading::hex_number))]
fn hex_number(digits: &[u8]) -> Option<u32>
    requires { list_all (is_digit 16) digits.now ≡ true }
    ensures { result ≡ hex_number digits.now }
{
    if digits.is_empty() || 8 < digits.len() {
        return None;
    }
    let mut number = 0;
    for digit in digits {
        number = number * 16 + u32::from(digit_value(*digit));
    }
    Some(number)
}

/// The hexadecimal number that begins at a place, and where it ends.
#[tactic(auto, unfolding(crate::specs::Reading::hex_at))]
pub fn hex_at(text: &[u8], place: usize) -> Result<(u32, usize), SddlFault>
    requires { place ≤ length text.now }
    ensures read { ReadsAs (λ x. x) result (hex_at text.now place) }
    ensures within { IfOk result (λ x. x.1 ≤ length text.now) }
{
    let digits = digits_at(16, text, place);
    match hex_number(digits) {
        Some(number) => Ok((number, place + digits.len())),
        None => Err(SddlFault::Bad(place)),
    }
}
