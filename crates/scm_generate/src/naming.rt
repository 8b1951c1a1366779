ghost use Rattle.std.specs.Prelude.{◌≡◌, ◌==◌, IfOk, None, if◌then◌else◌};
ghost use Rattle.scm_generate.specs.Listed.{alone, wide_bytes, nth_name, nth_need};

use scm_text::{Items, OutOfMemory, WText};
use std::alloc::{AllocError, Global};

/// The bytes of a text of ASCII as 16-bit units.
fn units_of(alloc: Global, text: &str) -> Result<Vec<u16>, AllocError>
    ensures { IfOk result (λ units. units.items ≡ text.now) }
{
    let mut units = Vec::new(alloc);
    for byte in text.as_bytes() {
        units.push(*byte as u16)?;
    }
    Ok(units)
}

/// A text of ASCII.
pub fn text_of(alloc: Global, text: &str) -> Result<WText, OutOfMemory>
    ensures { IfOk result (λ copy. copy ≡ text.now) }
{
    let Ok(units) = units_of(alloc, text) else {
        return Err(OutOfMemory);
    };
    match WText::from_units(alloc, units.as_slice()) {
        Ok(text) => Ok(text),
        Err(_) => Err(OutOfMemory),
    }
}

/// The name of the service with this number.
pub fn name_of(alloc: Global, number: u32) -> Result<WText, OutOfMemory>
    ensures { IfOk result (λ name. name ≡ nth_name number) }
{
    match format!(in alloc; "S{}", number) {
        Ok(name) => text_of(alloc, name.as_str()),
        Err(_) => Err(OutOfMemory),
    }
}

/// Units as bytes, the low one first.
fn bytes_of(alloc: Global, units: &[u16]) -> Result<Items<u8>, OutOfMemory>
    ensures { IfOk result (λ bytes. bytes ≡ wide_bytes units.now) }
{
    let mut bytes = Items::new(alloc);
    for unit in units {
        bytes.append(&[(*unit % 256) as u8, (*unit / 256) as u8])?;
    }
    Ok(bytes)
}

/// A list of one name, which a 0 ends, as one more ends the list.
fn alone(alloc: Global, name: &WText) -> Result<Items<u8>, OutOfMemory>
    ensures { IfOk result (λ bytes. bytes ≡ alone name.now) }
{
    let mut bytes = bytes_of(alloc, name.units())?;
    bytes.append(&[0, 0, 0, 0])?;
    Ok(bytes)
}

/// The need of the service with this number; there is none with number 0.
pub fn needing(alloc: Global, number: u32) -> Result<Option<Items<u8>>, OutOfMemory>
    ensures { IfOk result (λ needs. needs ≡ nth_need number) }
{
    if number == 0 {
        return Ok(None);
    }
    let name = name_of(alloc, number)?;
    Ok(Some(alone(alloc, &name)?))
}
