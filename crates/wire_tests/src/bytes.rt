//! What the tests build their values with.
use scm_text::WText;
use std::alloc::Global;
use std::test::Fail;

/// Bytes of hex digits, in groups of at most 16 bytes.
pub fn bytes(alloc: Global, digits: &str) -> Result<Vec<u8>, Fail> {
    let mut bytes = Vec::new(alloc);
    for group in digits.split(' ') {
        let number = u128::from_str_radix(group, 16).unwrap_or(0).to_be_bytes();
        let front = 16usize.saturating_sub(group.len() / 2);
        bytes.extend_from_slice(number.get(front..).unwrap_or(&[]))?;
    }
    Ok(bytes)
}

/// The units of a text in ASCII.
pub fn units(alloc: Global, text: &str) -> Result<Vec<u16>, Fail> {
    let mut units = Vec::new(alloc);
    for byte in text.as_bytes() {
        units.push(u16::from(*byte))?;
    }
    Ok(units)
}

/// A text in ASCII, in which no 0 may stand.
pub fn text(alloc: Global, text: &str) -> Result<WText, Fail> {
    let units = units(alloc, text)?;
    match WText::from_units(alloc, units.as_slice()) {
        Ok(text) => Ok(text),
        Err(_) => Err("text".into()),
    }
}
