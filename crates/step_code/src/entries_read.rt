// The code of an entry, read from left to right.
ghost use Rattle.std.specs.Prelude.{◌≡◌, ◌++◌, IfOk, IfSome, List, Some, option_map, ℕ};
ghost use Rattle.scm_model.specs.Entries.{Entry};
ghost use Rattle.step_code.specs.Codes.{code_of};
ghost use Rattle.step_code.specs.Fits.{IsEntry};
ghost use Rattle.step_code.specs.Reading.{Yields, call_at, end_start_at, entry_at, joined_at};
ghost use Rattle.step_code.specs.Reading.{kept_at, kept_of, launch_failed_at, launched_at};
ghost use Rattle.step_code.specs.Reading.{numbered_at, principal_of, raised_at, report_at, step_at};
ghost use Rattle.step_code.specs.Reading.{step_by, step_of};

use crate::fields_read::{Stop, byte_of, n4_of, n8_of, status_of, subtype_of};
use crate::requests_read::request_of;
use scm_model::{Kept, Principal, Step};
use scm_text::OutOfMemory;
use std::alloc::Global;

/// An entry that was read.
#[derive(Drop)]
pub struct DecodedEntry<'a> {
    /// Milliseconds.
    pub moment: u64,
    pub step: Step,
    /// The bytes after its code.
    pub rest: &'a [u8],
}

fn principal_of(byte: u8) -> Option<Principal>
    ensures { result ≡ principal_of byte }
{
    match byte {
        0 => Some(Principal::Admin),
        1 => Some(Principal::User),
        _ => None,
    }
}

fn kept_of(byte: u8) -> Option<Kept>
    ensures { result ≡ kept_of byte }
{
    match byte {
        0 => Some(Kept::NotAsked),
        1 => Some(Kept::Kept),
        2 => Some(Kept::Failed),
        _ => None,
    }
}

#[tactic(auto, unfolding(crate::specs::Reading::joined_at))]
fn joined_of(bytes: &[u8]) -> Result<(Step, &[u8]), Stop>
    ensures { Yields (λ x. (x.0, x.1.now)) result (joined_at bytes.now) }
{
    let (byte, rest) = byte_of(bytes)?;
    match principal_of(byte) {
        Some(principal) => Ok((Step::Joined { principal }, rest)),
        None => Err(Stop::NoCode),
    }
}

#[tactic(auto, unfolding(crate::specs::Reading::kept_at))]
pub(crate) fn kept_at(bytes: &[u8]) -> Result<(Kept, &[u8]), Stop>
    ensures { Yields (λ x. (x.0, x.1.now)) result (kept_at bytes.now) }
{
    let (byte, rest) = byte_of(bytes)?;
    match kept_of(byte) {
        Some(kept) => Ok((kept, rest)),
        None => Err(Stop::NoCode),
    }
}

#[tactic(auto, unfolding(crate::specs::Reading::call_at))]
fn call_of(alloc: Global, bytes: &[u8]) -> Result<(Step, &[u8]), Stop>
    ensures { Yields (λ x. (x.0, x.1.now)) result (call_at bytes.now) }
{
    let (caller, rest) = n8_of(bytes)?;
    let (request, rest) = request_of(alloc, rest)?;
    match kept_at(rest) {
        Ok((kept, rest)) => {
            let step = Step::Call {
                caller,
                request,
                kept,
            };
            Ok((step, rest))
        }
        Err(stop) => {
            drop(request);
            Err(stop)
        }
    }
}

#[tactic(auto, unfolding(crate::specs::Reading::end_start_at))]
fn end_start_of(bytes: &[u8]) -> Result<(Step, &[u8]), Stop>
    ensures { Yields (λ x. (x.0, x.1.now)) result (end_start_at bytes.now) }
{
    let (caller, rest) = n8_of(bytes)?;
    let (plan, rest) = n8_of(rest)?;
    Ok((Step::EndStart { caller, plan }, rest))
}

#[tactic(auto, unfolding(crate::specs::Reading::launched_at))]
fn launched_of(bytes: &[u8]) -> Result<(Step, &[u8]), Stop>
    ensures { Yields (λ x. (x.0, x.1.now)) result (launched_at bytes.now) }
{
    let (process, rest) = n8_of(bytes)?;
    let (pid, rest) = n4_of(rest)?;
    Ok((Step::Launched { process, pid }, rest))
}

#[tactic(auto, unfolding(crate::specs::Reading::launch_failed_at))]
fn launch_failed_of(bytes: &[u8]) -> Result<(Step, &[u8]), Stop>
    ensures { Yields (λ x. (x.0, x.1.now)) result (launch_failed_at bytes.now) }
{
    let (process, rest) = n8_of(bytes)?;
    let (code, rest) = n4_of(rest)?;
    Ok((Step::LaunchFailed { process, code }, rest))
}

#[tactic(auto, unfolding(crate::specs::Reading::report_at))]
fn report_of(bytes: &[u8]) -> Result<(Step, &[u8]), Stop>
    ensures { Yields (λ x. (x.0, x.1.now)) result (report_at bytes.now) }
{
    let (process, rest) = n8_of(bytes)?;
    let (service, rest) = n8_of(rest)?;
    let (status, rest) = status_of(rest)?;
    let step = Step::Report {
        process,
        service,
        status,
    };
    Ok((step, rest))
}

#[tactic(auto, unfolding(crate::specs::Reading::raised_at))]
fn raised_of(bytes: &[u8]) -> Result<(Step, &[u8]), Stop>
    ensures { Yields (λ x. (x.0, x.1.now)) result (raised_at bytes.now) }
{
    let (caller, rest) = n8_of(bytes)?;
    let (subtype, rest) = subtype_of(rest)?;
    Ok((Step::Raised { caller, subtype }, rest))
}

/// The step of a number alone.
fn step_of(kind: u8, number: u64) -> Option<Step>
    ensures { result ≡ step_of kind number }
{
    match kind {
        7 => Some(Step::Ended { process: number }),
        8 => Some(Step::ControlTaken { process: number }),
        11 => Some(Step::Gone { caller: number }),
        12 => Some(Step::NoMemory { caller: number }),
        _ => None,
    }
}

#[tactic(auto, unfolding(crate::specs::Reading::numbered_at))]
fn numbered_of(kind: u8, bytes: &[u8]) -> Result<(Step, &[u8]), Stop>
    ensures { Yields (λ x. (x.0, x.1.now)) result (numbered_at kind bytes.now) }
{
    let (number, rest) = n8_of(bytes)?;
    match step_of(kind, number) {
        Some(step) => Ok((step, rest)),
        None => Err(Stop::NoCode),
    }
}

/// The fields of the step that a byte names.
fn step_by(alloc: Global, kind: u8, bytes: &[u8]) -> Result<(Step, &[u8]), Stop>
    ensures { Yields (λ x. (x.0, x.1.now)) result (step_by kind bytes.now) }
{
    match kind {
        0 => joined_of(bytes),
        1 => call_of(alloc, bytes),
        2 => end_start_of(bytes),
        3 => Ok((Step::LaunchTaken, bytes)),
        4 => launched_of(bytes),
        5 => launch_failed_of(bytes),
        6 => report_of(bytes),
        9 => Ok((Step::Tick, bytes)),
        10 => raised_of(bytes),
        _ => numbered_of(kind, bytes),
    }
}

#[tactic(auto, unfolding(crate::specs::Reading::step_at))]
fn step_at(alloc: Global, bytes: &[u8]) -> Result<(Step, &[u8]), Stop>
    ensures { Yields (λ x. (x.0, x.1.now)) result (step_at bytes.now) }
{
    let (kind, rest) = byte_of(bytes)?;
    step_by(alloc, kind, rest)
}

#[tactic(auto, unfolding(crate::specs::Reading::entry_at))]
fn entry_at(alloc: Global, bytes: &[u8]) -> Result<((u64, Step), &[u8]), Stop>
    ensures { Yields (λ x. (x.0, x.1.now)) result (entry_at bytes.now) }
{
    let (moment, rest) = n8_of(bytes)?;
    let (step, rest) = step_at(alloc, rest)?;
    Ok(((moment, step), rest))
}

/// The entry whose code begins the bytes.
fn decoded<'a>(alloc: Global, bytes: &'a [u8]) -> Result<Option<DecodedEntry<'a>>, OutOfMemory>
    ensures { IfOk result (λ read. option_map {U = Entry × List ℕ}
        (λ e. ((e.moment, e.step), e.rest.now)) read ≡ entry_at bytes.now) }
{
    match entry_at(alloc, bytes) {
        Ok(((moment, step), rest)) => Ok(Some(DecodedEntry { moment, step, rest })),
        Err(Stop::NoCode) => Ok(None),
        Err(Stop::OutOfMemory) => Err(OutOfMemory),
    }
}

/// Reads the entry whose code begins the bytes. `None` comes exactly if they begin with the code of
/// no entry.
pub fn read_entry<'a>(
    alloc: Global,
    bytes: &'a [u8],
) -> Result<Option<DecodedEntry<'a>>, OutOfMemory>
    // Which entry it is, and which bytes come after it.
    ensures exact { IfOk result (λ read. option_map {U = Entry × List ℕ}
        (λ e. ((e.moment, e.step), e.rest.now)) read ≡ entry_at bytes.now) }
    // What is read has this code.
    ensures found { IfOk result (λ read. IfSome read (λ e.
        (bytes.now ≡ code_of (e.moment, e.step) ++ e.rest.now) × IsEntry (e.moment, e.step))) }
    // What has a code is read back, whatever comes after it.
    ensures read_back { (entry : Entry) (rest : List ℕ) → IsEntry entry
        → bytes.now ≡ code_of entry ++ rest
        → IfOk result (λ read. option_map {U = Entry × List ℕ}
        (λ e. ((e.moment, e.step), e.rest.now)) read ≡ Some (entry, rest)) }
{
    decoded(alloc, bytes)
}
