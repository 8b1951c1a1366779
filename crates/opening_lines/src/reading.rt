ghost use Rattle.std.specs.Prelude.{◌≡◌, IfOk, bytes_eq, drop, map};
ghost use Rattle.opening_lines.specs.Heads.{bytes_in_words, config_at, config_in_words};
ghost use Rattle.opening_lines.specs.Heads.{config_line, config_of_bytes, group_at, group_in_words};
ghost use Rattle.opening_lines.specs.Heads.{group_line, group_of_bytes, if_written, later_words};
ghost use Rattle.opening_lines.specs.Heads.{limits_at, limits_in_words, limits_line, moment_at};
ghost use Rattle.opening_lines.specs.Heads.{moment_in_words, moment_line, text_of_units};

use super::writing::{put_config, put_group, put_limits, put_moment};
use decimal_words::number_at;
use ndr_body::{has_zero, units_of};
use scm_lines::{bytes_at, code_at, words_of};
use scm_model::{Config, Limits};
use scm_text::{Items, OutOfMemory, WText};
use service_record::{RecordFault, read_record};
use std::alloc::Global;

/// The words after the first.
fn later<'a, 'b>(words: &'a [&'b [u8]]) -> &'a [&'b [u8]]
    ensures { map (λ word. word.now) result.now ≡ drop 1 (map (λ word. word.now) words.now) }
{
    match words {
        [_, words @ ..] => words,
        [] => words,
    }
}

/// The limits that words are, and no words more.
#[tactic(auto, unfolding(crate::specs::Heads::limits_in_words))]
fn limits_in(words: &[&[u8]]) -> Option<Limits>
    ensures { result ≡ limits_in_words (map (λ word. word.now) words.now) }
{
    match words {
        [
            services,
            handles,
            registrations,
            callers,
            processes,
            controls,
            steps,
            text,
        ] => {
            Some(Limits {
                services: code_at(services)?,
                handles: code_at(handles)?,
                registrations: code_at(registrations)?,
                callers: code_at(callers)?,
                processes: code_at(processes)?,
                controls: code_at(controls)?,
                steps: number_at(steps)?,
                text: number_at(text)?,
            })
        }
        _ => None,
    }
}

/// The limits that the words of a line are.
fn limits_said(alloc: Global, line: &[u8]) -> Result<Option<Limits>, OutOfMemory>
    ensures { IfOk result (λ limits. limits ≡ limits_in_words (later_words line.now)) }
{
    let words = words_of(alloc, line)?;
    Ok(limits_in(later(words.as_slice())))
}

/// Whether a line is the line of these limits.
fn is_limits_line(alloc: Global, line: &[u8], limits: &Limits) -> Result<bool, OutOfMemory>
    ensures { IfOk result (λ same. same ≡ bytes_eq (limits_line limits.now) line.now) }
{
    let mut written = Vec::new(alloc);
    put_limits(&mut written, limits)?;
    Ok(written.as_slice() == line)
}

/// The limits that a line says: it is the one that `put_limits` makes of them, so that a leading
/// zero or a second space is enough to make it say none.
pub fn read_limits(alloc: Global, line: &[u8]) -> Result<Option<Limits>, OutOfMemory>
    ensures { IfOk result (λ limits. limits ≡ limits_at line.now) }
{
    let Some(limits) = limits_said(alloc, line)? else {
        return Ok(None);
    };
    if is_limits_line(alloc, line, &limits)? {
        Ok(Some(limits))
    } else {
        Ok(None)
    }
}

/// The number that the only word is.
fn moment_in(words: &[&[u8]]) -> Option<u64>
    ensures { result ≡ moment_in_words (map (λ word. word.now) words.now) }
{
    match words {
        [word] => number_at(word),
        _ => None,
    }
}

/// The number that the second word of a line is, if it has two.
fn moment_said(alloc: Global, line: &[u8]) -> Result<Option<u64>, OutOfMemory>
    ensures { IfOk result (λ moment. moment ≡ moment_in_words (later_words line.now)) }
{
    let words = words_of(alloc, line)?;
    Ok(moment_in(later(words.as_slice())))
}

/// Whether a line is the line of this moment.
fn is_moment_line(alloc: Global, line: &[u8], moment: u64) -> Result<bool, OutOfMemory>
    ensures { IfOk result (λ same. same ≡ bytes_eq (moment_line moment) line.now) }
{
    let mut written = Vec::new(alloc);
    put_moment(&mut written, moment)?;
    Ok(written.as_slice() == line)
}

/// The moment that a line says, in milliseconds.
pub fn read_moment(alloc: Global, line: &[u8]) -> Result<Option<u64>, OutOfMemory>
    ensures { IfOk result (λ moment. moment ≡ moment_at line.now) }
{
    let Some(moment) = moment_said(alloc, line)? else {
        return Ok(None);
    };
    if is_moment_line(alloc, line, moment)? {
        Ok(Some(moment))
    } else {
        Ok(None)
    }
}

/// The bytes that the only word stands for.
fn bytes_in(alloc: Global, words: &[&[u8]]) -> Result<Option<Items<u8>>, OutOfMemory>
    ensures { IfOk result (λ bytes. bytes ≡ bytes_in_words (map (λ word. word.now) words.now)) }
{
    match words {
        [word] => bytes_at(alloc, word),
        _ => Ok(None),
    }
}

/// The bytes that the second word of a line stands for, if it has two.
fn bytes_said(alloc: Global, line: &[u8]) -> Result<Option<Items<u8>>, OutOfMemory>
    ensures { IfOk result (λ bytes. bytes ≡ bytes_in_words (later_words line.now)) }
{
    let words = words_of(alloc, line)?;
    bytes_in(alloc, later(words.as_slice()))
}

/// The text of some units, if none of them is 0.
fn text_of(units: Vec<u16>) -> Option<WText>
    ensures { result ≡ text_of_units units.items }
{
    if has_zero(units.as_slice()) {
        None
    } else {
        Some(WText::from_vec(units))
    }
}

/// The text of the units that bytes are, two by two.
fn group_of(alloc: Global, bytes: &[u8]) -> Result<Option<WText>, OutOfMemory>
    ensures { IfOk result (λ group. group ≡ group_of_bytes bytes.now) }
{
    match units_of(alloc, bytes, bytes.len() / 2) {
        Ok(units) => Ok(text_of(units)),
        Err(_) => Err(OutOfMemory),
    }
}

/// The group that the second word of a line stands for.
fn group_said(alloc: Global, line: &[u8]) -> Result<Option<WText>, OutOfMemory>
    ensures { IfOk result (λ group. group ≡ group_in_words (later_words line.now)) }
{
    match bytes_said(alloc, line)? {
        Some(bytes) => group_of(alloc, bytes.as_slice()),
        None => Ok(None),
    }
}

/// Whether a line is the line of this group.
fn is_group_line(alloc: Global, line: &[u8], group: &WText) -> Result<bool, OutOfMemory>
    ensures { IfOk result (λ same. same ≡ bytes_eq (group_line group.now) line.now) }
{
    let mut written = Vec::new(alloc);
    put_group(alloc, &mut written, group)?;
    Ok(written.as_slice() == line)
}

/// A group, if a line is the line of it.
fn group_if_written(alloc: Global, line: &[u8], group: WText) -> Result<Option<WText>, OutOfMemory>
    ensures { IfOk result (λ told. told ≡ if_written group_line line.now group) }
{
    match is_group_line(alloc, line, &group) {
        Ok(true) => Ok(Some(group)),
        Ok(false) => {
            drop(group);
            Ok(None)
        }
        Err(fault) => {
            drop(group);
            Err(fault)
        }
    }
}

/// The group that a line lists. It may be the empty one; a line with an odd number of bytes or with
/// a unit that is 0 lists none.
pub fn read_group(alloc: Global, line: &[u8]) -> Result<Option<WText>, OutOfMemory>
    ensures { IfOk result (λ group. group ≡ group_at line.now) }
{
    match group_said(alloc, line)? {
        Some(group) => group_if_written(alloc, line, group),
        None => Ok(None),
    }
}

/// The configuration that bytes are.
fn config_of(alloc: Global, bytes: &[u8]) -> Result<Option<Config>, OutOfMemory>
    ensures { IfOk result (λ config. config ≡ config_of_bytes bytes.now) }
{
    match read_record(alloc, bytes) {
        Ok(config) => Ok(Some(config)),
        Err(RecordFault::Bad(_)) => Ok(None),
        Err(RecordFault::OutOfMemory) => Err(OutOfMemory),
    }
}

/// The configuration that the second word of a line stands for.
fn config_said(alloc: Global, line: &[u8]) -> Result<Option<Config>, OutOfMemory>
    ensures { IfOk result (λ config. config ≡ config_in_words (later_words line.now)) }
{
    match bytes_said(alloc, line)? {
        Some(bytes) => config_of(alloc, bytes.as_slice()),
        None => Ok(None),
    }
}

/// Whether a line is the line of this configuration.
fn is_config_line(alloc: Global, line: &[u8], config: &Config) -> Result<bool, OutOfMemory>
    ensures { IfOk result (λ same. same ≡ bytes_eq (config_line config.now) line.now) }
{
    let mut written = Vec::new(alloc);
    put_config(alloc, &mut written, config)?;
    Ok(written.as_slice() == line)
}

/// A configuration, if a line is the line of it.
fn config_if_written(
    alloc: Global,
    line: &[u8],
    config: Config,
) -> Result<Option<Config>, OutOfMemory>
    ensures { IfOk result (λ told. told ≡ if_written config_line line.now config) }
{
    match is_config_line(alloc, line, &config) {
        Ok(true) => Ok(Some(config)),
        Ok(false) => {
            drop(config);
            Ok(None)
        }
        Err(fault) => {
            drop(config);
            Err(fault)
        }
    }
}

/// The configuration that a line has, in form 2 of its record. Whether a manager can begin with it
/// isn't asked.
pub fn read_config(alloc: Global, line: &[u8]) -> Result<Option<Config>, OutOfMemory>
    ensures { IfOk result (λ config. config ≡ config_at line.now) }
{
    match config_said(alloc, line)? {
        Some(config) => config_if_written(alloc, line, config),
        None => Ok(None),
    }
}
