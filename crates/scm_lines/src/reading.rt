ghost use Rattle.std.specs.Prelude.{◌≡◌, ◌^◌, IfOk, Result, map, option_map};
ghost use Rattle.std.specs.Result.{result_ok};
ghost use Rattle.scm_model.specs.declared.calls.Request.{Request};
ghost use Rattle.scm_model.specs.declared.steps.Step.TheVariants.{ControlTaken, Ended, Gone};
ghost use Rattle.scm_model.specs.declared.steps.Step.TheVariants.{NoMemory};
ghost use Rattle.decimal_words.specs.Numbers.{decimal_number, number_below};
ghost use Rattle.ndr_body.specs.declared.fault.BodyFault.{BodyFault};
ghost use Rattle.ndr_body.specs.Reading.{Gives};
ghost use Rattle.scm_lines.specs.Lines.{LeavesFound, call_in_words, end_at, joined_at};
ghost use Rattle.scm_lines.specs.Lines.{launched_at};
ghost use Rattle.scm_lines.specs.Lines.{line_at, line_in, line_in_words, naming_in_words};
ghost use Rattle.scm_lines.specs.Lines.{plain_at, raise_in_words, report_at, report_in_words};
ghost use Rattle.scm_lines.specs.Lines.{request_in};
ghost use Rattle.scm_lines.specs.Lines.{status_at, status_in_words, step_at, unlaunched_at};

use super::line::Line;
use super::verb::{Verb, verb_at};
use super::words::{bytes_at, is, words_of};
use decimal_words::{number_at, number_below};
use ndr_body::BodyFault;
use scm_calls::read_raise;
use scm_model::{Kept, Principal, Request, Status, Step};
use scm_shapes::Values;
use scm_text::OutOfMemory;
use std::alloc::Global;
use std::mem::replace;

/// Who joins.
#[tactic(auto, unfolding(crate::specs::Lines::joined_at))]
fn joined_at(name: &[u8]) -> Option<Step>
    ensures { result ≡ joined_at name.now }
{
    if is(name, "admin") {
        Some(Step::Joined {
            principal: Principal::Admin,
        })
    } else if is(name, "user") {
        Some(Step::Joined {
            principal: Principal::User,
        })
    } else {
        None
    }
}

/// The number of 32 bits of which a word is the decimal form.
pub fn code_at(text: &[u8]) -> Option<u32>
    ensures { result ≡ number_below (2 ^ 32) text.now }
{
    let number = number_below(1 << 32, text)?;
    Some(number as u32)
}

/// What a body that was read asks, or nothing of one that can't be.
fn or_none(read: Result<Request, BodyFault>) -> Result<Option<Request>, OutOfMemory>
    ensures { (at : Result Request BodyFault)
        → Gives (λ r. r) read at → IfOk result (λ told. told ≡ result_ok at) }
{
    match read {
        Ok(request) => Ok(Some(request)),
        Err(BodyFault::OutOfMemory) => Err(OutOfMemory),
        Err(
            BodyFault::Short(_)
            | BodyFault::BadString(_)
            | BodyFault::BadCount(_)
            | BodyFault::Trailing(_),
        ) => Ok(None),
    }
}

/// What a body asks, if its call can be read and it is such a body.
#[tactic(auto, unfolding(crate::specs::Lines::request_in))]
fn request_in(
    alloc: Global,
    opnum: u16,
    body: &[u8],
    values: &mut Values,
) -> Result<Option<Request>, OutOfMemory>
    ensures { IfOk result (λ request. request ≡ request_in opnum body.now) }
{
    match scm_bodies::call_at(opnum) {
        Some(call) => or_none(scm_bodies::read_request_by(alloc, call, body, values)),
        None => Ok(None),
    }
}

/// Puts a step in place of another.
#[inline(always)]
fn put(step: &mut Step, now: Step)
    ensures { step.new ≡ now }
{
    drop(replace(step, now));
}

/// Puts a step that was found in place of another, and tells whether one was.
#[inline(always)]
fn put_found(step: &mut Step, now: Option<Step>) -> bool
    ensures { LeavesFound result step.new now }
{
    match now {
        Some(now) => {
            put(step, now);
            true
        }
        None => false,
    }
}

/// Reads a call, by the words after its verb.
#[tactic(auto, unfolding(crate::specs::Lines::call_in_words))]
fn read_call(
    alloc: Global,
    who: &[u8],
    opnum: &[u8],
    body: &[u8],
    values: &mut Values,
    step: &mut Step,
) -> Result<bool, OutOfMemory>
    ensures { IfOk result (λ found. LeavesFound found step.new
        (call_in_words who.now opnum.now body.now)) }
{
    let Some(caller) = number_at(who) else {
        return Ok(false);
    };
    let Some(opnum) = number_below(65536, opnum) else {
        return Ok(false);
    };
    let Some(bytes) = bytes_at(alloc, body)? else {
        return Ok(false);
    };
    let Some(request) = request_in(alloc, opnum as u16, bytes.as_slice(), values)? else {
        return Ok(false);
    };
    let call = Step::Call {
        caller,
        request,
        kept: Kept::NotAsked,
    };
    put(step, call);
    Ok(true)
}

/// The end of a start, by the words after its verb.
#[tactic(auto, unfolding(crate::specs::Lines::end_at))]
fn end_at(who: &[u8], plan: &[u8]) -> Option<Step>
    ensures { result ≡ end_at who.now plan.now }
{
    let caller = number_at(who)?;
    let plan = number_at(plan)?;
    Some(Step::EndStart { caller, plan })
}

/// A launch, by the words after its verb.
#[tactic(auto, unfolding(crate::specs::Lines::launched_at))]
fn launched_at(process: &[u8], pid: &[u8]) -> Option<Step>
    ensures { result ≡ launched_at process.now pid.now }
{
    let process = number_at(process)?;
    let pid = code_at(pid)?;
    Some(Step::Launched { process, pid })
}

/// A launch that failed, by the words after its verb.
#[tactic(auto, unfolding(crate::specs::Lines::unlaunched_at))]
fn unlaunched_at(process: &[u8], code: &[u8]) -> Option<Step>
    ensures { result ≡ unlaunched_at process.now code.now }
{
    let process = number_at(process)?;
    let code = code_at(code)?;
    Some(Step::LaunchFailed { process, code })
}

/// A status, by its seven numbers.
#[tactic(auto, unfolding(crate::specs::Lines::status_at))]
fn status_at(
    kind: &[u8],
    state: &[u8],
    accepted: &[u8],
    win32: &[u8],
    specific: &[u8],
    checkpoint: &[u8],
    hint: &[u8],
) -> Option<Status>
    ensures { result ≡ status_at kind.now state.now accepted.now
        win32.now specific.now checkpoint.now hint.now }
{
    Some(Status {
        kind: code_at(kind)?,
        state: code_at(state)?,
        accepted: code_at(accepted)?,
        win32: code_at(win32)?,
        specific: code_at(specific)?,
        checkpoint: code_at(checkpoint)?,
        hint: code_at(hint)?,
    })
}

/// The status whose numbers these words are, and no words more.
fn status_in(words: &[&[u8]]) -> Option<Status>
    ensures { result ≡ status_in_words (map (λ word. word.now) words.now) }
{
    match words {
        [kind, state, accepted, win32, specific, checkpoint, hint] => status_at(
            kind, state, accepted, win32, specific, checkpoint, hint,
        ),
        _ => None,
    }
}

/// A report, by its process, and the service and the status that were read.
#[tactic(auto, unfolding(crate::specs::Lines::report_at))]
fn report_at(process: &[u8], service: Option<u64>, status: Option<Status>) -> Option<Step>
    ensures { result ≡ report_at process.now service status }
{
    let process = number_at(process)?;
    let service = service?;
    let status = status?;
    Some(Step::Report {
        process,
        service,
        status,
    })
}

/// A report that names its service, by its process and the words after that.
fn naming_in(process: &[u8], words: &[&[u8]]) -> Option<Step>
    ensures { result ≡ naming_in_words process.now (map (λ word. word.now) words.now) }
{
    match words {
        [service, words @ ..] => report_at(process, number_at(service), status_in(words)),
        [] => None,
    }
}

/// A report, by the words after its verb: the process, and the seven numbers of a status, before
/// which the number of the service may stand.
fn report_in(words: &[&[u8]]) -> Option<Step>
    ensures { result ≡ report_in_words (map (λ word. word.now) words.now) }
{
    match words {
        [process, words @ ..] => {
            if words.len() == 8 {
                naming_in(process, words)
            } else {
                report_at(process, Some(0), status_in(words))
            }
        }
        [] => None,
    }
}

/// The end of a process, by the word after its verb.
fn ended_at(process: &[u8]) -> Option<Step>
    ensures { result ≡ option_map Ended (decimal_number process.now) }
{
    let process = number_at(process)?;
    Some(Step::Ended { process })
}

/// That a control is taken, by the word after its verb.
fn control_at(process: &[u8]) -> Option<Step>
    ensures { result ≡ option_map ControlTaken (decimal_number process.now) }
{
    let process = number_at(process)?;
    Some(Step::ControlTaken { process })
}

/// A raise, by the words after its verb.
#[tactic(auto, unfolding(crate::specs::Lines::raise_in_words))]
fn raise_at(alloc: Global, who: &[u8], subtype: &[u8]) -> Result<Option<Step>, OutOfMemory>
    ensures { IfOk result (λ step. step ≡ raise_in_words who.now subtype.now) }
{
    let Some(caller) = number_at(who) else {
        return Ok(None);
    };
    let Some(bytes) = bytes_at(alloc, subtype)? else {
        return Ok(None);
    };
    let Ok(subtype) = read_raise(bytes.as_slice()) else {
        return Ok(None);
    };
    Ok(Some(Step::Raised { caller, subtype }))
}

/// That a caller goes, by the word after its verb.
fn gone_at(who: &[u8]) -> Option<Step>
    ensures { result ≡ option_map Gone (decimal_number who.now) }
{
    let caller = number_at(who)?;
    Some(Step::Gone { caller })
}

/// Out of memory for a caller, by the word after its verb.
fn no_memory_at(who: &[u8]) -> Option<Step>
    ensures { result ≡ option_map NoMemory (decimal_number who.now) }
{
    let caller = number_at(who)?;
    Some(Step::NoMemory { caller })
}

/// The step of a verb and the words after it, except for reports and steps that have bytes in
/// hexadecimal.
fn plain_at(verb: Verb, words: &[&[u8]]) -> Option<Step>
    ensures { result ≡ plain_at verb (map (λ word. word.now) words.now) }
{
    match (verb, words) {
        (Verb::Join, [name]) => joined_at(name),
        (Verb::End, [who, plan]) => end_at(who, plan),
        (Verb::Take, []) => Some(Step::LaunchTaken),
        (Verb::Launched, [process, pid]) => launched_at(process, pid),
        (Verb::Unlaunched, [process, code]) => unlaunched_at(process, code),
        (Verb::Ended, [process]) => ended_at(process),
        (Verb::Control, [process]) => control_at(process),
        (Verb::Tick, []) => Some(Step::Tick),
        (Verb::Gone, [who]) => gone_at(who),
        (Verb::NoMemory, [who]) => no_memory_at(who),
        _ => None,
    }
}

/// Reads the step of a verb and the words after it.
fn read_step(
    alloc: Global,
    verb: Verb,
    words: &[&[u8]],
    values: &mut Values,
    step: &mut Step,
) -> Result<bool, OutOfMemory>
    ensures { IfOk result (λ found. LeavesFound found step.new
        (step_at verb (map (λ word. word.now) words.now))) }
{
    match (verb, words) {
        (Verb::Call | Verb::FailCall, [who, opnum, body]) => {
            read_call(alloc, who, opnum, body, values, step)
        }
        (Verb::Raise, [who, subtype]) => Ok(put_found(step, raise_at(alloc, who, subtype)?)),
        (Verb::Report, words) => Ok(put_found(step, report_in(words))),
        _ => Ok(put_found(step, plain_at(verb, words))),
    }
}

/// Reads a line, by its first two words and those after them.
#[tactic(auto, unfolding(crate::specs::Lines::line_in_words))]
fn read_words(
    alloc: Global,
    moment: &[u8],
    name: &[u8],
    words: &[&[u8]],
    values: &mut Values,
    line: &mut Line,
) -> Result<bool, OutOfMemory>
    ensures { IfOk result (λ found. LeavesFound found line.new
        (line_in_words moment.now name.now (map (λ word. word.now) words.now))) }
{
    let Some(moment) = number_at(moment) else {
        return Ok(false);
    };
    let Some(verb) = verb_at(name) else {
        return Ok(false);
    };
    if !read_step(alloc, verb, words, values, &mut line.step)? {
        return Ok(false);
    }
    line.moment = moment;
    line.fails = verb.fails();
    Ok(true)
}

/// Reads a line of some words.
fn read_in(
    alloc: Global,
    words: &[&[u8]],
    values: &mut Values,
    line: &mut Line,
) -> Result<bool, OutOfMemory>
    ensures { IfOk result (λ found. LeavesFound found line.new
        (line_in (map (λ word. word.now) words.now))) }
{
    match words {
        [moment, name, words @ ..] => read_words(alloc, moment, name, words, values, line),
        _ => Ok(false),
    }
}

/// Reads what a text says into a line, and tells whether it is one. The values of a body lie in
/// `values` for a while.
pub fn read_line(
    alloc: Global,
    text: &[u8],
    values: &mut Values,
    line: &mut Line,
) -> Result<bool, OutOfMemory>
    ensures { IfOk result (λ found. LeavesFound found line.new (line_at text.now)) }
{
    let words = words_of(alloc, text)?;
    read_in(alloc, words.as_slice(), values, line)
}
