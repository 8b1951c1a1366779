//! Changes, replayed over configurations.
ghost use Rattle.std.specs.Prelude.{◌≡◌, ◌-◌, [], length, option_and_then, if◌then◌else◌};
ghost use Rattle.std.specs.Prelude.{IfOk, IsOk, Ok};
ghost use Rattle.record_journal.specs.Entries.{Goes, IsSaid, all_from, is_part_header};
ghost use Rattle.record_journal.specs.Entries.{is_unfinished, read_journal, replay_of, replayable};
ghost use Rattle.record_journal.specs.Entries.{said_in};
ghost use Rattle.record_journal.specs.declared.reading.Said.TheVariants as saids;
ghost use Rattle.record_journal.specs.declared.replaying.Next.TheVariants as nexts;
ghost use Rattle.record_journal.specs.Opening.{CanBegin, ReadAs};

use crate::configs::{Configs, SERVICES};
use crate::entry::{HEADER, HEADER_1};
use crate::opening::JournalFault;
use crate::reading::{Said, is_unfinished, said_in, whole_entry};
use scm_model::{Change, Config, Form};
use scm_text::{Buffer, Items, OutOfMemory};
use std::alloc::Global;

/// What a journal's entries come to.
#[derive(Drop)]
pub struct Replay {
    /// The configurations, in order.
    pub configs: Items<Config>,
    /// How many bytes are kept.
    pub kept: u64,
    /// The form of an entry that would stand after them.
    pub form: Form,
}

/// Replays a change that an entry of a form says, where it can be.
fn replay_change(
    configs: &mut Configs,
    form: Form,
    change: Change,
    searched: &mut Buffer<u64>,
) -> Result<Option<Form>, OutOfMemory>
    requires { CanBegin configs.old }
    ensures said { IfOk result
        (IsSaid form configs.old (replayable configs.old (saids.Says change)) configs.new) }
    ensures begins { IsOk result → CanBegin configs.new }
{
    if configs.can_replay(&change, searched)? {
        configs.apply(change)?;
        return Ok(Some(form));
    }
    Ok(None)
}

/// Replays what an entry of a form says, where it can be. What stands after it is of the form that
/// is returned.
fn replay_said(
    configs: &mut Configs,
    form: Form,
    said: Said,
    searched: &mut Buffer<u64>,
) -> Result<Option<Form>, OutOfMemory>
    requires { CanBegin configs.old }
    ensures said { IfOk result
        (IsSaid form configs.old (replayable configs.old said) configs.new) }
    ensures begins { IsOk result → CanBegin configs.new }
{
    match said {
        Said::Says(change) => replay_change(configs, form, change, searched),
        Said::Turns => Ok(Some(Form::Second)),
    }
}

/// Replays what a kind and a body of a form say, where they say what can be.
fn replay_body(
    alloc: Global,
    configs: &mut Configs,
    form: Form,
    kind: u8,
    body: &[u8],
    searched: &mut Buffer<u64>,
) -> Result<Option<Form>, OutOfMemory>
    requires { CanBegin configs.old }
    ensures said { IfOk result (IsSaid form configs.old
        (option_and_then (replayable configs.old) (said_in form kind body.now))
        configs.new) }
    ensures begins { IsOk result → CanBegin configs.new }
{
    match said_in(alloc, form, kind, body)? {
        Some(said) => replay_said(configs, form, said, searched),
        None => Ok(None),
    }
}

/// How reading goes on.
#[derive(Clone, Copy)]
enum Next<'a> {
    /// An entry was replayed, and this stands after it, in this form.
    Rest(Form, &'a [u8]),
    /// Nothing is left, or a part of an entry.
    Unfinished,
    /// What is left is damaged.
    Damaged,
}

/// How reading ends before less than a whole entry.
fn end_before<'a>(alloc: Global, form: Form, bytes: &'a [u8]) -> Result<Next<'a>, OutOfMemory>
    ensures { IfOk result (λ next. next ≡
        (if is_unfinished form bytes.now then nexts.Unfinished else nexts.Damaged)) }
{
    if is_unfinished(alloc, form, bytes)? {
        Ok(Next::Unfinished)
    } else {
        Ok(Next::Damaged)
    }
}

/// Replays the entry of a form at the front of some bytes.
fn replay_entry<'a>(
    alloc: Global,
    configs: &mut Configs,
    form: Form,
    bytes: &'a [u8],
    searched: &mut Buffer<u64>,
) -> Result<Next<'a>, OutOfMemory>
    requires { CanBegin configs.old }
    ensures goes { IfOk result (Goes form configs.old bytes.now configs.new) }
    ensures begins { IsOk result → CanBegin configs.new }
{
    let Some(front) = whole_entry(bytes) else {
        return end_before(alloc, form, bytes);
    };
    match replay_body(alloc, configs, form, front.kind, front.body, searched)? {
        Some(after) => Ok(Next::Rest(after, front.rest)),
        None => Ok(Next::Damaged),
    }
}

/// Replays the last bytes of so many over configurations, and takes out what they come to. Their
/// entries begin in this form.
fn replay_over(
    alloc: Global,
    configs: &mut Configs,
    size: usize,
    form: Form,
    entries: &[u8],
) -> Result<Replay, JournalFault>
    requires { CanBegin configs.old }
    ensures reads { ReadAs result
        (replay_of size configs.old (all_from form configs.old entries.now)) }
    ensures begins { IfOk result (λ replay. CanBegin replay.configs) }
{
    let Ok(mut searched) = Buffer::with_room(alloc, SERVICES + 2) else {
        return Err(JournalFault::OutOfMemory);
    };
    let mut rest = entries;
    let mut now = form;
    for _ in 0..entries.len() {
        match replay_entry(alloc, configs, now, rest, &mut searched) {
            Ok(Next::Rest(next, after)) => {
                now = next;
                rest = after;
            }
            Ok(Next::Unfinished) => return replay_with(alloc, configs, size, now, rest),
            Ok(Next::Damaged) => return Err(JournalFault::Damaged(place_in(size, rest))),
            Err(OutOfMemory) => return Err(JournalFault::OutOfMemory),
        }
    }
    replay_with(alloc, configs, size, now, rest)
}

/// Replays the last bytes of so many, whose entries begin in this form.
fn replay_entries(
    alloc: Global,
    size: usize,
    form: Form,
    entries: &[u8],
) -> Result<Replay, JournalFault>
    ensures reads { ReadAs result (replay_of size [] (all_from form [] entries.now)) }
    ensures begins { IfOk result (λ replay. CanBegin replay.configs) }
{
    let Ok(mut configs) = Configs::new(alloc) else {
        return Err(JournalFault::OutOfMemory);
    };
    let replay = replay_over(alloc, &mut configs, size, form, entries);
    drop(configs);
    replay
}

/// Where the last bytes of so many begin.
fn place_in(size: usize, rest: &[u8]) -> u64
    ensures { result ≡ size - length rest.now }
{
    size.saturating_sub(rest.len()) as u64
}

/// Takes configurations out, as what all but the last bytes of so many come to, in this form.
fn replay_with(
    alloc: Global,
    configs: &mut Configs,
    size: usize,
    form: Form,
    rest: &[u8],
) -> Result<Replay, JournalFault>
    ensures { ReadAs result (Ok (record {
      configs = configs.old;
      kept = size - length rest.now;
      form = form;
    })) }
{
    match configs.take_all(alloc) {
        Ok(configs) => Ok(Replay {
            configs,
            kept: place_in(size, rest),
            form,
        }),
        Err(OutOfMemory) => Err(JournalFault::OutOfMemory),
    }
}

/// Whether these are less than a header, of either form.
fn is_part_header(bytes: &[u8]) -> bool
    ensures { result ≡ is_part_header bytes.now }
{
    (HEADER.starts_with(bytes) || HEADER_1.starts_with(bytes)) && bytes.len() < HEADER.len()
}

/// The replay of a journal's bytes, or the place of their first damage.
pub fn read_journal(alloc: Global, bytes: &[u8]) -> Result<Replay, JournalFault>
    ensures reads { ReadAs result (read_journal bytes.now) }
    ensures begins { IfOk result (λ replay. CanBegin replay.configs) }
{
    if is_part_header(bytes) {
        return Ok(Replay {
            configs: Items::new(alloc),
            kept: 0,
            form: Form::Second,
        });
    }
    if bytes.starts_with(&HEADER) {
        return replay_entries(alloc, bytes.len(), Form::Second, &bytes[HEADER.len()..]);
    }
    if bytes.starts_with(&HEADER_1) {
        return replay_entries(alloc, bytes.len(), Form::First, &bytes[HEADER_1.len()..]);
    }
    Err(JournalFault::Damaged(0))
}
