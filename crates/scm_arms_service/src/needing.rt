ghost use Rattle.std.specs.Prelude.{◌≡◌, ◌+◌, ◌*◌, List, ℕ, map, option_and_then, option_map, IfOk};
ghost use Rattle.scm_text.specs.Multi.{names_of};
ghost use Rattle.scm_rules.specs.Needs.{are_unreadable, need_named, needs_in_bytes, needs_or};
ghost use Rattle.scm_rules.specs.Needs.{needs_read, units_in_bytes};

use scm_model::{Need, copy_needs};
use scm_text::{Items, MultiFault, OutOfMemory, WText, read_multi};
use std::alloc::Global;

/// `+`, which stands before the name of a group.
const MARK: u16 = 43;

/// A unit of two bytes, the low one first.
fn unit_of(low: u8, high: u8) -> u16
    ensures { result ≡ low + 256 * high }
{
    u16::from(low) + 256 * u16::from(high)
}

/// Units of two bytes each, or none where a byte is left over.
fn units_in(bytes: &[u8], alloc: Global) -> Result<Option<Items<u16>>, OutOfMemory>
    ensures { IfOk result (λ units. units ≡ units_in_bytes bytes.now) }
{
    let mut units = Items::new(alloc);
    let mut rest = bytes;
    loop {
        match rest {
            [] => return Ok(Some(units)),
            [low, high, more @ ..] => {
                if units.push(unit_of(*low, *high)).is_err() {
                    return Err(OutOfMemory);
                }
                rest = more;
            }
            _ => return Ok(None),
        }
    }
}

/// A text of some units.
fn text_of(units: &[u16], alloc: Global) -> Result<WText, OutOfMemory>
    ensures { IfOk result (λ text. text ≡ units.now) }
{
    match WText::from_units(alloc, units) {
        Ok(text) => Ok(text),
        Err(_) => Err(OutOfMemory),
    }
}

/// The need that a name means: a name after `+` is a group's.
fn need_of(name: &WText, alloc: Global) -> Result<Need, OutOfMemory>
    ensures { IfOk result (λ need. need ≡ need_named name.now) }
{
    match name.units() {
        [MARK, group @ ..] => Ok(Need::Group(text_of(group, alloc)?)),
        _ => Ok(Need::Service(name.copy(alloc)?)),
    }
}

/// The needs that names tell.
fn needs_of(names: &[WText], alloc: Global) -> Result<Items<Need>, OutOfMemory>
    ensures { IfOk result (λ needs. needs ≡ map need_named names.now) }
{
    let mut needs = Items::new(alloc);
    for name in names {
        let need = need_of(name, alloc)?;
        if needs.push(need).is_err() {
            return Err(OutOfMemory);
        }
    }
    Ok(needs)
}

/// The needs that units name, or none where they are no list of names.
fn needs_read(units: &[u16], alloc: Global) -> Result<Option<Items<Need>>, OutOfMemory>
    ensures { IfOk result (λ needs. needs ≡ needs_read (names_of units.now)) }
{
    match read_multi(alloc, units) {
        Ok(names) => Ok(Some(needs_of(names.as_slice(), alloc)?)),
        Err(MultiFault::NotTerminated | MultiFault::EmptyName(_)) => Ok(None),
        Err(MultiFault::OutOfMemory) => Err(OutOfMemory),
    }
}

/// The needs that bytes name: 16-bit units, each name ended by a 0 and all by one more, `+` before
/// a group's. None where they can't be read.
pub fn needs_in(bytes: &[u8], alloc: Global) -> Result<Option<Items<Need>>, OutOfMemory>
    ensures { IfOk result (λ needs. needs ≡ needs_in_bytes bytes.now) }
{
    match units_in(bytes, alloc)? {
        Some(units) => needs_read(units.as_slice(), alloc),
        None => Ok(None),
    }
}

/// The needs that are asked for and can be read.
fn asked_needs(asked: &Option<Items<u8>>, alloc: Global) -> Result<Option<Items<Need>>, OutOfMemory>
    ensures { IfOk result (λ needs. needs ≡ option_and_then needs_in_bytes asked.now) }
{
    match asked {
        Some(bytes) => needs_in(bytes.as_slice(), alloc),
        None => Ok(None),
    }
}

/// The needs that are asked for, or a copy of the old ones.
pub fn needs_or(
    old: &[Need],
    asked: &Option<Items<u8>>,
    alloc: Global,
) -> Result<Items<Need>, OutOfMemory>
    ensures { IfOk result (λ needs. needs ≡ needs_or old.now asked.now) }
{
    match asked_needs(asked, alloc)? {
        Some(needs) => Ok(needs),
        None => copy_needs(old, alloc),
    }
}

/// Whether needs are asked for that can't be read.
pub fn are_unreadable(asked: &Option<Items<u8>>, alloc: Global) -> Result<bool, OutOfMemory>
    ensures { IfOk result (λ unreadable. unreadable ≡ are_unreadable asked.now) }
{
    match asked {
        Some(bytes) => Ok(needs_in(bytes.as_slice(), alloc)?.is_none()),
        None => Ok(false),
    }
}
