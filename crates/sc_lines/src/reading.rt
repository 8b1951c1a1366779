ghost use Rattle.std.specs.Prelude.{◌≡◌, ◌≤◌, ◌^◌, IfOk, drop, map};
ghost use Rattle.sc_lines.specs.Reading.{byte_at, u32_at, rows, units_at, units};

use scm_text::OutOfMemory;
use std::alloc::Global;

/// The byte at a place, or 0 past the end.
pub fn byte_at(bytes: &[u8], at: usize) -> u8
    ensures { result ≡ byte_at bytes.now at }
{
    match bytes.get(at) {
        Some(byte) => *byte,
        None => 0,
    }
}

/// The number of four bytes at a place.
#[tactic(auto, unfolding(crate::specs::Reading::u32_at))]
pub fn number_at(bytes: &[u8], at: usize) -> u32
    requires { at ≤ 2 ^ 62 }
    ensures { result ≡ u32_at bytes.now at }
{
    u32::from_le_bytes([
        byte_at(bytes, at),
        byte_at(bytes, at + 1),
        byte_at(bytes, at + 2),
        byte_at(bytes, at + 3),
    ])
}

/// The bytes from a place on.
pub fn after(bytes: &[u8], at: usize) -> &[u8]
    ensures { result.now ≡ drop at bytes.now }
{
    let (_, rest) = bytes.split_at(at.min(bytes.len()));
    rest
}

/// The units before the first 0, or before the end.
fn units(alloc: Global, bytes: &[u8]) -> Result<Vec<u16>, OutOfMemory>
    ensures { IfOk result (λ found. found.items ≡ units bytes.now) }
{
    let mut found = Vec::new(alloc);
    let mut place = 0;
    while place + 1 < bytes.len() {
        let unit = u16::from_le_bytes([bytes[place], bytes[place + 1]]);
        if unit == 0 {
            return Ok(found);
        }
        if found.push(unit).is_err() {
            return Err(OutOfMemory);
        }
        place += 2;
    }
    Ok(found)
}

/// The units of the text at a place, which is 0 where there is none.
#[tactic(auto, unfolding(crate::specs::Reading::units_at))]
pub fn text_at(alloc: Global, bytes: &[u8], at: u32) -> Result<Vec<u16>, OutOfMemory>
    ensures { IfOk result (λ found. found.items ≡ units_at bytes.now at) }
{
    if at == 0 {
        return Ok(Vec::new(alloc));
    }
    units(alloc, after(bytes, at as usize))
}

/// The rows of a size that stand at the front, as many as are whole, but no more than so many.
pub fn rows<'a>(
    alloc: Global,
    size: usize,
    most: u32,
    bytes: &'a [u8],
) -> Result<Vec<&'a [u8]>, OutOfMemory>
    ensures { IfOk result (λ found. map (λ row. row.now) found.items ≡ rows size most bytes.now) }
{
    let mut found = Vec::new(alloc);
    let mut rest = bytes;
    for _ in 0..most {
        if rest.len() < size {
            return Ok(found);
        }
        let (row, after) = rest.split_at(size);
        if found.push(row).is_err() {
            return Err(OutOfMemory);
        }
        rest = after;
    }
    Ok(found)
}
