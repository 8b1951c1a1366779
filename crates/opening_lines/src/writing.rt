ghost use Rattle.std.specs.Prelude.{◌≡◌, ◌++◌, ◌∷◌, [], All, OnOk, decimal, map};
ghost use Rattle.std.specs.Int.{w16, to_le_bytes};
ghost use Rattle.std.specs.List.{flat_map};
ghost use Rattle.hex.specs.Hex.{IsBytes, encode_lower};
ghost use Rattle.scm_lines.specs.Entries.{spaced};
ghost use Rattle.scm_text.specs.Fold.{HasNoZero};
ghost use Rattle.service_record.specs.Spelling.{IsUnit};
ghost use Rattle.opening_lines.specs.Heads.{HasRecord, config_line, group_line, limits_line};
ghost use Rattle.opening_lines.specs.Heads.{moment_line};

use scm_lines::{add_hex, add_numbers};
use scm_model::{Config, Limits};
use scm_text::{Items, OutOfMemory, WText};
use service_record::record_bytes;
use std::alloc::Global;

/// Puts the first word of a line in place of another line.
fn begin(line: &mut Vec<u8>, word: &str) -> Result<(), OutOfMemory>
    ensures { OnOk result (line.new.items ≡ word.now) }
{
    line.clear();
    match line.extend_from_slice(word.as_bytes()) {
        Ok(()) => Ok(()),
        Err(_) => Err(OutOfMemory),
    }
}

/// Puts a line of a word and numbers in place of another.
#[tactic(auto, using(crate::proofs::Words::numbers_spaced))]
fn put_numbers(line: &mut Vec<u8>, word: &str, numbers: &[u64]) -> Result<(), OutOfMemory>
    ensures { OnOk result (line.new.items ≡ word.now ++ spaced (map decimal numbers.now)) }
{
    begin(line, word)?;
    add_numbers(line, numbers)
}

/// Puts a line of a word and bytes in hexadecimal in place of another.
#[tactic(auto, using(crate::proofs::Words::word_spaced))]
fn put_bytes(alloc: Global, line: &mut Vec<u8>, word: &str, bytes: &[u8]) -> Result<(), OutOfMemory>
    ensures { OnOk result (line.new.items ≡ word.now ++ spaced (encode_lower bytes.now ∷ [])) }
{
    begin(line, word)?;
    add_hex(alloc, line, bytes)
}

/// Puts the line of limits in place of another, without the line feed that ends it. Its memory
/// serves line after line.
pub fn put_limits(line: &mut Vec<u8>, limits: &Limits) -> Result<(), OutOfMemory>
    ensures { OnOk result (line.new.items ≡ limits_line limits.now) }
{
    let numbers = [
        u64::from(limits.services),
        u64::from(limits.handles),
        u64::from(limits.registrations),
        u64::from(limits.callers),
        u64::from(limits.processes),
        u64::from(limits.controls),
        limits.steps,
        limits.text,
    ];
    put_numbers(line, "limits", &numbers)
}

/// The same of a moment, in milliseconds.
pub fn put_moment(line: &mut Vec<u8>, moment: u64) -> Result<(), OutOfMemory>
    ensures { OnOk result (line.new.items ≡ moment_line moment) }
{
    put_numbers(line, "moment", &[moment])
}

/// Appends units of two bytes each, the low byte first.
fn append_units(bytes: &mut Items<u8>, units: &[u16]) -> Result<(), OutOfMemory>
    ensures { OnOk result (bytes.new ≡ bytes.old ++ flat_map (to_le_bytes w16) units.now) }
{
    for unit in units {
        bytes.append(&unit.to_le_bytes())?;
    }
    Ok(())
}

fn units_fit(units: &[u16])
    requires { HasNoZero units.now }
    ensures { All IsUnit units.now }
{}

/// The same of a listed group.
pub fn put_group(alloc: Global, line: &mut Vec<u8>, group: &WText) -> Result<(), OutOfMemory>
    ensures line { OnOk result (line.new.items ≡ group_line group.now) }
    ensures units { All IsUnit group.now }
{
    let units = group.units();
    units_fit(units);
    let mut bytes = Items::new(alloc);
    append_units(&mut bytes, units)?;
    put_bytes(alloc, line, "group", bytes.as_slice())
}

fn bytes_fit(bytes: &[u8])
    ensures { IsBytes bytes.now }
{}

/// The same of a configuration. One with a list of 2^32 items has no record, and finds no memory.
pub fn put_config(alloc: Global, line: &mut Vec<u8>, config: &Config) -> Result<(), OutOfMemory>
    ensures line { OnOk result (line.new.items ≡ config_line config.now) }
    ensures has_record { OnOk result (HasRecord config.now) }
{
    let bytes = record_bytes(alloc, config)?;
    bytes_fit(bytes.as_slice());
    put_bytes(alloc, line, "config", bytes.as_slice())
}
