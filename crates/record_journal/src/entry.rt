ghost use Rattle.std.specs.Prelude.{◌≡◌, ◌++◌, OnOk, IfOk, IsOk};
ghost use Rattle.record_journal.specs.Format.{HasBody, HasEntry, body_of, entry_bytes, entry_kind};
ghost use Rattle.record_journal.specs.Format.{front_at, piece, turn_from};
ghost use Rattle.service_record.specs.Spelling.{FitsText, text};

use scm_model::{Change, Form};
use scm_text::{Items, OutOfMemory, WText};
use service_record::{put_count, put_text, record_bytes};
use std::alloc::Global;

/// What a journal that is begun begins with: `SCMJ`, and 2 for the form of its entries.
pub const HEADER: [u8; 8] = [0x53, 0x43, 0x4D, 0x4A, 2, 0, 0, 0];

/// What a journal of form 1 begins with.
pub const HEADER_1: [u8; 8] = [0x53, 0x43, 0x4D, 0x4A, 1, 0, 0, 0];

/// The entry that ends form 1: what stands after it is of form 2.
pub const SWITCH: [u8; 5] = [SWITCHED, 0, 0, 0, 0];

// The kinds of entries.

pub const CREATED: u8 = 1;

pub const CHANGED: u8 = 2;

pub const REMOVED: u8 = 3;

pub const SWITCHED: u8 = 4;

/// A count of units, and these.
fn text_bytes(alloc: Global, value: &WText) -> Result<Items<u8>, OutOfMemory>
    ensures bytes { IfOk result (λ bytes. bytes ≡ text value.now) }
    ensures fits { IsOk result → FitsText value.now }
{
    let mut out = Items::new(alloc);
    put_text(&mut out, value)?;
    Ok(out)
}

fn kind_of(change: &Change) -> u8
    ensures { result ≡ entry_kind change.now }
{
    match change {
        Change::Created(_) => CREATED,
        Change::Changed(_) => CHANGED,
        Change::Removed(_) => REMOVED,
    }
}

fn body_of(alloc: Global, change: &Change) -> Result<Items<u8>, OutOfMemory>
    ensures bytes { IfOk result (λ bytes. bytes ≡ body_of change.now) }
    ensures fits { IsOk result → HasBody change.now }
{
    match change {
        Change::Created(config) | Change::Changed(config) => record_bytes(alloc, config),
        Change::Removed(name) => text_bytes(alloc, name),
    }
}

#[tactic(auto, unfolding(crate::specs::Format::entry_in))]
fn append_entry(alloc: Global, out: &mut Items<u8>, change: &Change) -> Result<(), OutOfMemory>
    ensures bytes { OnOk result (out.new ≡ out.old ++ entry_bytes change.now) }
    ensures fits { OnOk result (HasEntry change.now) }
{
    let body = body_of(alloc, change)?;
    out.append(&[kind_of(change)])?;
    put_count(out, body.len())?;
    out.append(body.as_slice())
}

/// What ends a form before an entry of form 2.
fn turn_from(form: Form) -> &'static [u8]
    ensures { result.now ≡ turn_from form }
{
    match form {
        Form::First => &SWITCH,
        Form::Second => &[],
    }
}

/// What comes before an entry that is appended after so many bytes, which end in this form.
fn front_at(kept: u64, form: Form) -> &'static [u8]
    ensures { result.now ≡ front_at kept form }
{
    if kept == 0 { &HEADER } else { turn_from(form) }
}

/// What is appended for a change after so many bytes, which end in this form. It ends in form 2.
#[tactic(auto, unfolding(crate::specs::Format::piece))]
pub fn piece(
    alloc: Global,
    kept: u64,
    form: Form,
    change: &Change,
) -> Result<Items<u8>, OutOfMemory>
    ensures bytes { IfOk result (λ bytes. bytes ≡ piece kept form change.now) }
    ensures fits { IsOk result → HasEntry change.now }
{
    let mut out = Items::from_slice(alloc, front_at(kept, form))?;
    append_entry(alloc, &mut out, change)?;
    Ok(out)
}
