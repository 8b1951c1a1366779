//! Entries, read.
ghost use Rattle.std.specs.Prelude.{◌≡◌, IfOk, is_ok, option_map};
ghost use Rattle.scm_model.specs.declared.steps.Change.TheVariants as changes;
ghost use Rattle.service_record.specs.Reading.{Tells, take_number, take_text};
ghost use Rattle.record_journal.specs.Entries.{begins_switch, can_grow, change_in, if_read};
ghost use Rattle.record_journal.specs.Entries.{is_switch, is_unfinished, name_of, record_in};
ghost use Rattle.record_journal.specs.Entries.{said_in, seen_front, take_in, whole_entry, whole_in};
ghost use Rattle.record_journal.specs.Entries.{with_body};
ghost use Rattle.record_journal.specs.declared.reading.Said.TheVariants as saids;

use crate::entry::{CHANGED, CREATED, REMOVED, SWITCH, SWITCHED};
use ndr_body::{has_zero, units_of};
use scm_model::{Change, Config, Form};
use scm_text::{OutOfMemory, WText};
use service_record::{RecordFault, read_record, read_record_1};
use std::alloc::Global;

/// A whole entry at the front of some bytes, and what stands after it.
#[derive(Clone, Copy)]
pub struct Front<'a> {
    pub kind: u8,
    pub body: &'a [u8],
    pub rest: &'a [u8],
}

/// A number at the front, and what stands after it.
fn number_at(bytes: &[u8]) -> Option<(u32, &[u8])>
    ensures { option_map (λ x. (x.0, x.1.now)) result ≡ if_read (take_number bytes.now) }
{
    if bytes.len() < 4 {
        return None;
    }
    let (front, rest) = bytes.split_at(4);
    let number = u32::from_le_bytes([front[0], front[1], front[2], front[3]]);
    Some((number, rest))
}

fn with_body(kind: u8, bytes: &[u8]) -> Option<Front<'_>>
    ensures { option_map seen_front result ≡ with_body kind (if_read (take_number bytes.now)) }
{
    let (size, bytes) = number_at(bytes)?;
    let size = size as usize;
    if bytes.len() < size {
        return None;
    }
    let (body, rest) = bytes.split_at(size);
    Some(Front { kind, body, rest })
}

/// The whole entry at the front of some bytes, where one stands there.
pub fn whole_entry(bytes: &[u8]) -> Option<Front<'_>>
    ensures { option_map seen_front result ≡ whole_entry bytes.now }
{
    match bytes {
        [kind, rest @ ..] => with_body(*kind, rest),
        [] => None,
    }
}

/// What an entry says.
#[derive(Drop)]
pub enum Said {
    Says(Change),
    /// Form 1 ends: what stands after it is of form 2.
    Turns,
}

/// Reads a configuration of a form, which is all of some bytes.
fn record_in(alloc: Global, form: Form, bytes: &[u8]) -> Result<Config, RecordFault>
    ensures { Tells result (record_in form bytes.now) }
{
    match form {
        Form::First => read_record_1(alloc, bytes),
        Form::Second => read_record(alloc, bytes),
    }
}

/// The configuration that a body is.
fn config_in(alloc: Global, form: Form, body: &[u8]) -> Result<Option<Config>, OutOfMemory>
    ensures { IfOk result (λ config. config ≡ if_read (whole_in form body.now)) }
{
    match record_in(alloc, form, body) {
        Ok(config) => Ok(Some(config)),
        Err(RecordFault::Bad(_)) => Ok(None),
        Err(RecordFault::OutOfMemory) => Err(OutOfMemory),
    }
}

/// The name that a body is.
fn name_in(alloc: Global, body: &[u8]) -> Result<Option<WText>, OutOfMemory>
    ensures { IfOk result (λ name. name ≡ if_read (name_of body.now)) }
{
    let Some((count, rest)) = number_at(body) else {
        return Ok(None);
    };
    let count = count as usize;
    if rest.len() != 2 * count {
        return Ok(None);
    }
    let Ok(units) = units_of(alloc, rest, count) else {
        return Err(OutOfMemory);
    };
    if has_zero(units.as_slice()) {
        return Ok(None);
    }
    Ok(Some(WText::from_vec(units)))
}

fn created(config: Option<Config>) -> Option<Change>
    ensures { result ≡ option_map changes.Created config }
{
    config.map(Change::Created)
}

fn changed(config: Option<Config>) -> Option<Change>
    ensures { result ≡ option_map changes.Changed config }
{
    config.map(Change::Changed)
}

fn removed(name: Option<WText>) -> Option<Change>
    ensures { result ≡ option_map changes.Removed name }
{
    name.map(Change::Removed)
}

/// The change that a kind and a body of a form are.
fn change_in(
    alloc: Global,
    form: Form,
    kind: u8,
    body: &[u8],
) -> Result<Option<Change>, OutOfMemory>
    ensures { IfOk result (λ change. change ≡ change_in form kind body.now) }
{
    if kind == CREATED {
        return Ok(created(config_in(alloc, form, body)?));
    }
    if kind == CHANGED {
        return Ok(changed(config_in(alloc, form, body)?));
    }
    if kind == REMOVED {
        return Ok(removed(name_in(alloc, body)?));
    }
    Ok(None)
}

/// Whether a kind and a body end form 1.
fn is_switch(form: Form, kind: u8, body: &[u8]) -> bool
    ensures { result ≡ is_switch form kind body.now }
{
    match form {
        Form::First => kind == SWITCHED && body.is_empty(),
        Form::Second => false,
    }
}

fn says(change: Option<Change>) -> Option<Said>
    ensures { result ≡ option_map saids.Says change }
{
    change.map(Said::Says)
}

/// What a kind and a body of a form say.
pub fn said_in(
    alloc: Global,
    form: Form,
    kind: u8,
    body: &[u8],
) -> Result<Option<Said>, OutOfMemory>
    ensures { IfOk result (λ said. said ≡ said_in form kind body.now) }
{
    if is_switch(form, kind, body) {
        return Ok(Some(Said::Turns));
    }
    Ok(says(change_in(alloc, form, kind, body)?))
}

/// Whether a body is a configuration.
#[tactic(auto, using(crate::proofs::Parts::is_placed))]
fn is_config(alloc: Global, form: Form, body: &[u8]) -> Result<bool, OutOfMemory>
    ensures { IfOk result (λ is. is ≡ is_ok (whole_in form body.now)) }
{
    match record_in(alloc, form, body) {
        Ok(config) => {
            drop(config);
            Ok(true)
        }
        Err(RecordFault::Bad(_)) => Ok(false),
        Err(RecordFault::OutOfMemory) => Err(OutOfMemory),
    }
}

/// Whether a body begins with a configuration. What follows one is where reading it fails.
fn has_config(alloc: Global, form: Form, body: &[u8]) -> Result<bool, OutOfMemory>
    ensures { IfOk result (λ has. has ≡ is_ok (take_in form body.now)) }
{
    match record_in(alloc, form, body) {
        Ok(config) => {
            drop(config);
            Ok(true)
        }
        Err(RecordFault::Bad(place)) => is_config(alloc, form, &body[..place]),
        Err(RecordFault::OutOfMemory) => Err(OutOfMemory),
    }
}

/// Whether a body begins with a name.
fn has_name(alloc: Global, body: &[u8]) -> Result<bool, OutOfMemory>
    ensures { IfOk result (λ has. has ≡ is_ok (take_text body.now)) }
{
    let Some((count, rest)) = number_at(body) else {
        return Ok(false);
    };
    let count = count as usize;
    if rest.len() < 2 * count {
        return Ok(false);
    }
    let Ok(units) = units_of(alloc, rest, count) else {
        return Err(OutOfMemory);
    };
    let has_zero = has_zero(units.as_slice());
    drop(units);
    Ok(!has_zero)
}

/// Whether more bytes can make a body of this kind.
fn can_grow(alloc: Global, form: Form, kind: u8, body: &[u8]) -> Result<bool, OutOfMemory>
    ensures { IfOk result (λ can. can ≡ can_grow form kind body.now) }
{
    match kind {
        CREATED | CHANGED => Ok(!has_config(alloc, form, body)?),
        REMOVED => Ok(!has_name(alloc, body)?),
        _ => Ok(false),
    }
}

/// Whether these are a front of the entry that ends form 1.
fn begins_switch(form: Form, bytes: &[u8]) -> bool
    ensures { result ≡ begins_switch form bytes.now }
{
    match form {
        Form::First => SWITCH.starts_with(bytes),
        Form::Second => false,
    }
}

/// Whether less than a whole entry can become one.
pub fn is_unfinished(alloc: Global, form: Form, bytes: &[u8]) -> Result<bool, OutOfMemory>
    ensures { IfOk result (λ is. is ≡ is_unfinished form bytes.now) }
{
    if begins_switch(form, bytes) {
        return Ok(true);
    }
    match bytes {
        [kind, _, _, _, _, body @ ..] => can_grow(alloc, form, *kind, body),
        [kind, ..] => can_grow(alloc, form, *kind, &[]),
        [] => Ok(true),
    }
}
