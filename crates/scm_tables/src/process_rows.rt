ghost use Rattle.std.specs.Prelude.{◌≡◌, ◌≢◌, ◌<◌, ◌==◌, ◌≤◌, ◌++◌, ◌∷◌, ◌^◌, [], length, nat_lt};
ghost use Rattle.std.specs.Prelude.{not, position, map, drop, filter, find, if◌then◌else◌};
ghost use Rattle.std.specs.Prelude.{option_copied, slice_get, vec_capacity, All, AllPairs, IfNone};
ghost use Rattle.std.specs.Prelude.{IfSome};
ghost use Rattle.std.specs.List.{list_any};
ghost use Rattle.scm_model.specs.declared.flat.Phase.TheVariants as phases;
ghost use Rattle.scm_rules.specs.Controls.{controlled_if, dequeued_if};
ghost use Rattle.scm_rules.specs.Launches.{first_wanted, launched_if, taken_if};
ghost use Rattle.scm_rules.specs.Owed.{owed_in_phase};
ghost use Rattle.scm_rules.specs.Reports.{released_if};
ghost use Rattle.scm_rules.specs.Steps.{wants_launch as is_any_wanted};
ghost use Rattle.scm_tables.specs.Listed.{is_wanted_row, listed_as, processes_in, wanted_in};
ghost use Rattle.scm_tables.specs.Listed.{without_words, next_words};
ghost use Rattle.scm_tables.specs.Processed.{owed_in};

use super::lines::Line;
use control_dispatch::Controls;
use scm_model::{Order, Phase};
use scm_text::{Items, WText};
use std::alloc::Global;

/// A process, with what its launch is to have.
#[derive(Drop)]
pub struct ProcessRow {
    pub number: u64,
    /// 0 for a command.
    pub service: u64,
    /// Whether other services may live in it too.
    pub shared: bool,
    pub phase: Phase,
    /// The system's number of it, or 0.
    pub pid: u32,
    /// The orders that wait.
    pub controls: Controls,
    pub line: Line,
}

/// Where the process with a number stands.
fn place_of(rows: &[ProcessRow], number: u64) -> Option<usize>
    requires { AllPairs (λ a b. a.number < b.number) rows.now }
    ensures found { IfSome result (λ place. IfSome (slice_get rows.now place)
        (λ row. row.number ≡ number)) }
    ensures within { IfSome result (λ place. place < length rows.now) }
    ensures none { IfNone result (All (λ row. row.number ≢ number) rows.now) }
    ensures few { length rows.now < 2 ^ 64 }
{
    rows.binary_search_by_key(&number, |row| row.number).ok()
}

/// The process with a number.
pub fn process_with(rows: &[ProcessRow], number: u64) -> Option<&ProcessRow>
    requires { AllPairs (λ a b. a.number < b.number) rows.now }
    ensures { option_copied result ≡ find (λ row. row.number == number) rows.now }
{
    let place = place_of(rows, number)?;
    Some(&rows[place])
}

/// How many steps a process in a phase still owes.
pub fn owed_in_phase(phase: Phase) -> u128
    ensures { result ≡ owed_in_phase phase }
{
    match phase {
        Phase::Wanted => 3,
        Phase::Taken => 2,
        Phase::Launched => 1,
    }
}

/// The launch of a process is taken.
fn take_row(row: &mut ProcessRow)
    ensures { row.new ≡ record row.old { phase = phases.Taken } }
{
    row.phase = Phase::Taken;
}

/// The launch of a process is taken. Returns what all owe then, if they owed so much before.
pub fn take_in(rows: &mut Vec<ProcessRow>, number: u64, owed: u128) -> u128
    requires rising { AllPairs (λ a b. a.number < b.number) rows.old.items }
    requires owed { owed ≡ owed_in rows.old.items }
    ensures rows { rows.new.items ≡ map (listed_as (taken_if number)) rows.old.items }
    ensures capacity { vec_capacity rows.new ≡ vec_capacity rows.old }
    ensures owed { result ≡ owed_in rows.new.items }
{
    match place_of(rows.as_slice(), number) {
        Some(place) => {
            let before = owed_in_phase(rows[place].phase);
            take_row(&mut rows[place]);
            owed - before + owed_in_phase(Phase::Taken)
        }
        None => owed,
    }
}

/// A process is launched.
fn launch_row(row: &mut ProcessRow, pid: u32)
    ensures { row.new ≡ record row.old { phase = phases.Launched; pid = pid } }
{
    row.phase = Phase::Launched;
    row.pid = pid;
}

/// A process is launched. Gives what all owe then, who owed so much before.
pub fn launch_in(rows: &mut Vec<ProcessRow>, number: u64, pid: u32, owed: u128) -> u128
    requires rising { AllPairs (λ a b. a.number < b.number) rows.old.items }
    requires owed { owed ≡ owed_in rows.old.items }
    ensures rows { rows.new.items ≡ map (listed_as (launched_if number pid)) rows.old.items }
    ensures capacity { vec_capacity rows.new ≡ vec_capacity rows.old }
    ensures owed { result ≡ owed_in rows.new.items }
{
    match place_of(rows.as_slice(), number) {
        Some(place) => {
            let before = owed_in_phase(rows[place].phase);
            launch_row(&mut rows[place], pid);
            owed - before + owed_in_phase(Phase::Launched)
        }
        None => owed,
    }
}

/// Keeps the other processes. Gives what they owe, where all owed so much before.
pub fn drop_process(rows: &mut Vec<ProcessRow>, number: u64, owed: u128) -> u128
    requires rising { AllPairs (λ a b. a.number < b.number) rows.old.items }
    requires owed { owed ≡ owed_in rows.old.items }
    ensures rows { rows.new.items ≡ filter (λ row. not (row.number == number)) rows.old.items }
    ensures capacity { vec_capacity rows.new ≡ vec_capacity rows.old }
    ensures owed { result ≡ owed_in rows.new.items }
{
    match place_of(rows.as_slice(), number) {
        Some(place) => {
            let gone = rows.remove(place);
            owed - owed_in_phase(gone.phase)
        }
        None => owed,
    }
}

/// An order more waits for a process, as long as fewer do than may.
fn control_row(row: &mut ProcessRow, limit: u32, order: Order)
    requires { limit ≤ 16 }
    ensures { row.new ≡ (if nat_lt (length row.old.controls) limit
        then record row.old { controls = row.old.controls ++ order ∷ [] } else row.old) }
{
    if row.controls.len() < limit {
        row.controls.enqueue(order);
    }
}

/// An order more waits for a process, as long as fewer do than may.
pub fn control_in(rows: &mut Vec<ProcessRow>, limit: u32, number: u64, order: Order)
    requires limit { limit ≤ 16 }
    requires rising { AllPairs (λ a b. a.number < b.number) rows.old.items }
    ensures rows { rows.new.items ≡ map (listed_as (controlled_if limit number order))
        rows.old.items }
    ensures capacity { vec_capacity rows.new ≡ vec_capacity rows.old }
{
    if let Some(place) = place_of(rows.as_slice(), number) {
        control_row(&mut rows[place], limit, order);
    }
}

/// The order that waits first for a process waits no longer.
fn relieve_row(row: &mut ProcessRow)
    ensures { row.new ≡ record row.old { controls = drop 1 row.old.controls } }
{
    let _order = row.controls.take_next();
}

/// The order that waits first for a process waits no longer.
pub fn relieve_in(rows: &mut Vec<ProcessRow>, number: u64)
    requires { AllPairs (λ a b. a.number < b.number) rows.old.items }
    ensures rows { rows.new.items ≡ map (listed_as (dequeued_if number)) rows.old.items }
    ensures capacity { vec_capacity rows.new ≡ vec_capacity rows.old }
{
    if let Some(place) = place_of(rows.as_slice(), number) {
        relieve_row(&mut rows[place]);
    }
}

/// The orders of a service leave a process that is shared.
fn release_row(row: &mut ProcessRow, service: u64)
    ensures { row.new ≡ (if row.old.shared
        then record row.old {
          controls = filter
              (λ order. not (order.service == service)) row.old.controls;
        } else row.old) }
{
    if row.shared {
        row.controls.release(service);
    }
}

/// The orders of a service leave a process, if it is shared.
pub fn release_in(rows: &mut Vec<ProcessRow>, number: u64, service: u64)
    requires { AllPairs (λ a b. a.number < b.number) rows.old.items }
    ensures rows { rows.new.items ≡ map (listed_as (released_if number service)) rows.old.items }
    ensures capacity { vec_capacity rows.new ≡ vec_capacity rows.old }
{
    if let Some(place) = place_of(rows.as_slice(), number) {
        release_row(&mut rows[place], service);
    }
}

/// The process that is to be launched first.
pub fn first_wanted(rows: &[ProcessRow]) -> Option<u64>
    ensures { result ≡ first_wanted (wanted_in rows.now) }
{
    for row in rows {
        if let Phase::Wanted = row.phase {
            return Some(row.number);
        }
    }
    None
}

/// Whether a launch is wanted.
pub fn is_any_wanted(rows: &[ProcessRow]) -> bool
    ensures { result ≡ is_any_wanted (wanted_in rows.now) }
{
    for row in rows {
        if let Phase::Wanted = row.phase {
            return true;
        }
    }
    false
}

/// Whether a process is shared.
pub fn is_any_shared(rows: &[ProcessRow]) -> bool
    ensures { result ≡ list_any (λ row. row.shared) rows.now }
{
    rows.iter().any(|row| row.shared)
}

/// The first process that is to be launched.
pub fn wanted_first(rows: &[ProcessRow]) -> Option<&ProcessRow>
    ensures { option_copied result ≡ find is_wanted_row rows.now }
{
    rows.iter().find(|row| matches!(row.phase, Phase::Wanted))
}

/// Where the first process stands that is to be launched.
fn place_of_wanted(rows: &[ProcessRow]) -> Option<usize>
    ensures { result ≡ position is_wanted_row rows.now }
{
    rows.iter()
        .position(|row| matches!(row.phase, Phase::Wanted))
}

/// Takes the words of the launch that is wanted first out of its row. It takes no memory.
pub fn take_words(rows: &mut Vec<ProcessRow>, alloc: Global) -> Items<WText>
    ensures words { result ≡ next_words (wanted_in rows.old.items) }
    ensures wanted { wanted_in rows.new.items ≡ without_words (wanted_in rows.old.items) }
    ensures processes { processes_in rows.new.items ≡ processes_in rows.old.items }
    ensures capacity { vec_capacity rows.new ≡ vec_capacity rows.old }
{
    match place_of_wanted(rows.as_slice()) {
        Some(place) => rows[place].line.take_words(alloc),
        None => Items::new(alloc),
    }
}
