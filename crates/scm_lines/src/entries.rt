ghost use Rattle.std.specs.Prelude.{◌≡◌, ◌++◌, ◌∷◌, [], OnOk, Some, codes, decimal};
ghost use Rattle.hex.specs.Hex.{encode_lower};
ghost use Rattle.scm_bodies.specs.Requests.{request_bytes};
ghost use Rattle.scm_model.specs.declared.steps.Step.TheVariants.{Call, Joined, Raised, Report};
ghost use Rattle.scm_model.specs.Entries.{Entry};
ghost use Rattle.scm_lines.specs.Entries.{HasLine, call_verb, line_of, numbered, principal_word};
ghost use Rattle.scm_lines.specs.Entries.{reporter, said, spaced, spaced_numbers, step_words};
ghost use Rattle.scm_lines.specs.Lines.{line_at};

use super::answers::hex_of;
use scm_bodies::write_request;
use scm_model::{Kept, Principal, Request, Status, Step};
use scm_text::OutOfMemory;
use std::alloc::{AllocError, Global};

/// The lines of entries are read as what they say.
pub fn lines_are_read()
    ensures { (entry : Entry) → HasLine entry → line_at (line_of entry) ≡ Some (said entry) }
{}

fn add(line: &mut Vec<u8>, word: &[u8]) -> Result<(), AllocError>
    ensures { OnOk result (line.new.items ≡ line.old.items ++ 32 ∷ word.now) }
{
    line.extend_from_slice(b" ")?;
    line.extend_from_slice(word)
}

/// Adds a space and a word to a line.
fn add_word(line: &mut Vec<u8>, word: &[u8]) -> Result<(), OutOfMemory>
    ensures { OnOk result (line.new.items ≡ line.old.items ++ 32 ∷ word.now) }
{
    match add(line, word) {
        Ok(()) => Ok(()),
        Err(_) => Err(OutOfMemory),
    }
}

/// Adds a number in decimal form.
fn add_number(line: &mut Vec<u8>, number: u64) -> Result<(), OutOfMemory>
    ensures { OnOk result (line.new.items ≡ line.old.items ++ 32 ∷ decimal number) }
{
    add_word(line, itoa::Buffer::new().format(number).as_bytes())
}

/// Adds numbers in decimal form, each after a space.
pub fn add_numbers(line: &mut Vec<u8>, numbers: &[u64]) -> Result<(), OutOfMemory>
    ensures { OnOk result (line.new.items ≡ line.old.items ++ spaced_numbers numbers.now) }
{
    for number in numbers {
        add_number(line, *number)?;
    }
    Ok(())
}

/// Adds numbers of 32 bits in decimal form.
fn add_codes(line: &mut Vec<u8>, numbers: &[u32]) -> Result<(), OutOfMemory>
    ensures { OnOk result (line.new.items ≡ line.old.items ++ spaced_numbers numbers.now) }
{
    for number in numbers {
        add_number(line, u64::from(*number))?;
    }
    Ok(())
}

/// Adds a verb and numbers in decimal form.
#[tactic(auto, using(crate::proofs::Spaced::numbered_after))]
fn add_numbered(line: &mut Vec<u8>, verb: &str, numbers: &[u64]) -> Result<(), OutOfMemory>
    ensures { OnOk result (line.new.items
        ≡ line.old.items ++ spaced (numbered verb.now numbers.now)) }
{
    add_word(line, verb.as_bytes())?;
    add_numbers(line, numbers)
}

/// Adds a space and bytes in hexadecimal, in lower case.
pub fn add_hex(alloc: Global, line: &mut Vec<u8>, bytes: &[u8]) -> Result<(), OutOfMemory>
    ensures { OnOk result (line.new.items ≡ line.old.items ++ 32 ∷ encode_lower bytes.now) }
{
    let text = hex_of(alloc, bytes)?;
    add_word(line, text.as_bytes())
}

fn principal_word(principal: Principal) -> &'static str
    ensures { result.now ≡ principal_word principal }
{
    match principal {
        Principal::Admin => "admin",
        Principal::User => "user",
    }
}

fn add_join(line: &mut Vec<u8>, principal: Principal) -> Result<(), OutOfMemory>
    ensures { OnOk result (line.new.items
        ≡ line.old.items ++ spaced (step_words (Joined principal))) }
{
    add_word(line, b"join")?;
    add_word(line, principal_word(principal).as_bytes())
}

fn call_verb(kept: Kept) -> &'static str
    ensures { result.now ≡ call_verb kept }
{
    match kept {
        Kept::Failed => "failcall",
        Kept::NotAsked | Kept::Kept => "call",
    }
}

/// Adds the body of a request.
fn add_body(alloc: Global, line: &mut Vec<u8>, request: &Request) -> Result<(), OutOfMemory>
    ensures { OnOk result (line.new.items
        ≡ line.old.items ++ 32 ∷ encode_lower (request_bytes request.now)) }
{
    let body = write_request(alloc, request)?;
    add_hex(alloc, line, body.as_slice())
}

#[tactic(auto, using(crate::proofs::Spaced::word_after))]
fn add_call(
    alloc: Global,
    line: &mut Vec<u8>,
    caller: u64,
    request: &Request,
    kept: Kept,
) -> Result<(), OutOfMemory>
    ensures { OnOk result (line.new.items
        ≡ line.old.items ++ spaced (step_words (Call caller request.now kept))) }
{
    add_numbered(line, call_verb(kept), &[caller, u64::from(request.opnum())])?;
    add_body(alloc, line, request)
}

/// Adds what became of a launch: a verb, the process and a number of 32 bits.
fn add_launch(line: &mut Vec<u8>, verb: &str, process: u64, number: u32) -> Result<(), OutOfMemory>
    ensures { OnOk result (line.new.items
        ≡ line.old.items ++ spaced (numbered verb.now (process ∷ number ∷ []))) }
{
    add_numbered(line, verb, &[process, u64::from(number)])
}

/// Adds the verb of a report and its numbers up to the status.
fn add_reporter(line: &mut Vec<u8>, process: u64, service: u64) -> Result<(), OutOfMemory>
    ensures { OnOk result (line.new.items
        ≡ line.old.items ++ spaced (numbered (codes "report") (reporter process service))) }
{
    if service == 0 {
        add_numbered(line, "report", &[process])
    } else {
        add_numbered(line, "report", &[process, service])
    }
}

#[tactic(auto, using(crate::proofs::Spaced::numbers_after))]
fn add_report(
    line: &mut Vec<u8>,
    process: u64,
    service: u64,
    status: &Status,
) -> Result<(), OutOfMemory>
    ensures { OnOk result (line.new.items
        ≡ line.old.items ++ spaced (step_words (Report process service status.now))) }
{
    add_reporter(line, process, service)?;
    add_codes(line, &status.numbers())
}

#[tactic(auto, using(crate::proofs::Spaced::word_after))]
fn add_raise(
    alloc: Global,
    line: &mut Vec<u8>,
    caller: u64,
    subtype: &[u8],
) -> Result<(), OutOfMemory>
    ensures { OnOk result (line.new.items
        ≡ line.old.items ++ spaced (step_words (Raised caller subtype.now))) }
{
    add_numbered(line, "raise", &[caller])?;
    add_hex(alloc, line, subtype)
}

/// Adds what says a step.
fn add_step(alloc: Global, line: &mut Vec<u8>, step: &Step) -> Result<(), OutOfMemory>
    ensures { OnOk result (line.new.items ≡ line.old.items ++ spaced (step_words step.now)) }
{
    match step {
        Step::Joined { principal } => add_join(line, *principal),
        Step::Call {
            caller,
            request,
            kept,
        } => add_call(alloc, line, *caller, request, *kept),
        Step::EndStart { caller, plan } => add_numbered(line, "end", &[*caller, *plan]),
        Step::LaunchTaken => add_numbered(line, "take", &[]),
        Step::Launched { process, pid } => add_launch(line, "launched", *process, *pid),
        Step::LaunchFailed { process, code } => add_launch(line, "unlaunched", *process, *code),
        Step::Report {
            process,
            service,
            status,
        } => add_report(line, *process, *service, status),
        Step::Ended { process } => add_numbered(line, "ended", &[*process]),
        Step::ControlTaken { process } => add_numbered(line, "control", &[*process]),
        Step::Tick => add_numbered(line, "tick", &[]),
        Step::Raised { caller, subtype } => add_raise(alloc, line, *caller, subtype),
        Step::Gone { caller } => add_numbered(line, "gone", &[*caller]),
        Step::NoMemory { caller } => add_numbered(line, "nomem", &[*caller]),
    }
}

fn begin(line: &mut Vec<u8>, moment: u64) -> Result<(), OutOfMemory>
    ensures { OnOk result (line.new.items ≡ decimal moment) }
{
    line.clear();
    match line.extend_from_slice(itoa::Buffer::new().format(moment).as_bytes()) {
        Ok(()) => Ok(()),
        Err(_) => Err(OutOfMemory),
    }
}

/// Puts the line of an entry in place of another, without the line feed that ends it. Its memory
/// serves line after line.
pub fn put_entry(
    alloc: Global,
    line: &mut Vec<u8>,
    moment: u64,
    step: &Step,
) -> Result<(), OutOfMemory>
    ensures { OnOk result (line.new.items ≡ line_of (moment, step.now)) }
{
    begin(line, moment)?;
    add_step(alloc, line, step)
}
