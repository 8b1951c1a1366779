ghost use Rattle.std.specs.Prelude.{◌≡◌, ◌++◌, None, Some, codes, option_map, slice_get};
ghost use Rattle.outside.specs.Causes.{HasCause};
ghost use Rattle.outside.specs.Written.{Writes};
ghost use Rattle.sc_top.specs.Diagnostics.{address_in, at_server, client_diagnostic, diagnostic};
ghost use Rattle.sc_top.specs.Diagnostics.{failure_diagnostic, fault_diagnostic, joined, misfit};
ghost use Rattle.sc_top.specs.Diagnostics.{no_command};
ghost use Rattle.sc_top.specs.Runs.{IsTold};
ghost use Rattle.sc_top.specs.Usage.{help, usage_for, usage_line};

use super::fault::{ScFault, status_of};
use super::messages::message;
use super::usage::{VERBS, asks_for_help, usage, usage_for};
use outside::{Failed, Sink, write_all};
use sc_client::ClientFault;
use sc_words::{Failure, Verb};
use scm_text::Text;

/// Writes parts in a row.
fn write_parts<E: Sink>(errors: &mut E, parts: &[&[u8]]) -> Result<(), Failed>
    ensures written { Writes (E.held errors.old) (E.held errors.new) result (joined parts.now) }
    ensures cause { HasCause (E.faults errors.old) (E.faults errors.new) result }
{
    for part in parts {
        match write_all(errors, part) {
            Ok(()) => {}
            Err(fault) => return Err(fault),
        }
    }
    Ok(())
}

/// Writes the usage of a verb.
#[tactic(auto, unfolding(crate::specs::Diagnostics::joined))]
fn write_usage<E: Sink>(errors: &mut E, verb: Verb) -> Result<(), Failed>
    ensures written { Writes (E.held errors.old) (E.held errors.new) result (usage_line verb) }
    ensures cause { HasCause (E.faults errors.old) (E.faults errors.new) result }
{
    write_parts(errors, &[b"sc ADDRESS ", usage(verb).as_bytes(), b"\n"])
}

/// Writes the usage of verbs, a line each.
fn write_help<E: Sink>(errors: &mut E, verbs: &[Verb]) -> Result<(), Failed>
    ensures written { Writes (E.held errors.old) (E.held errors.new) result (help verbs.now) }
    ensures cause { HasCause (E.faults errors.old) (E.faults errors.new) result }
{
    for verb in verbs {
        match write_usage(errors, *verb) {
            Ok(()) => {}
            Err(fault) => return Err(fault),
        }
    }
    Ok(())
}

/// Writes that an argument doesn't fit, and the usage.
#[tactic(auto, unfolding(crate::specs::Diagnostics::joined))]
fn write_wrong<'a, E: Sink>(errors: &mut E, word: &'a str, usage: &'a str) -> Result<(), Failed>
    ensures written { Writes (E.held errors.old) (E.held errors.new) result
        (misfit (Some word.now) usage.now) }
    ensures cause { HasCause (E.faults errors.old) (E.faults errors.new) result }
{
    write_parts(
        errors,
        &[
            b"sc: argument '",
            word.as_bytes(),
            b"' doesn't fit; usage: sc ADDRESS ",
            usage.as_bytes(),
            b"\n",
        ],
    )
}

/// Writes that an argument is missing, and the usage.
#[tactic(auto, unfolding(crate::specs::Diagnostics::joined))]
fn write_missing<E: Sink>(errors: &mut E, usage: &str) -> Result<(), Failed>
    ensures written { Writes (E.held errors.old) (E.held errors.new) result
        (misfit None usage.now) }
    ensures cause { HasCause (E.faults errors.old) (E.faults errors.new) result }
{
    write_parts(
        errors,
        &[
            b"sc: an argument is missing; usage: sc ADDRESS ",
            usage.as_bytes(),
            b"\n",
        ],
    )
}

/// The argument at a place, if one is there.
fn word_at(words: &[Text], place: usize) -> Option<&str>
    ensures { option_map (λ word. word.now) result ≡ slice_get words.now place }
{
    match words.get(place) {
        Some(word) => Some(word.as_str()),
        None => None,
    }
}

/// Writes that an argument doesn't fit, or that one is missing, and the usage.
fn write_misfit<E: Sink>(errors: &mut E, words: &[Text], place: usize) -> Result<(), Failed>
    ensures written { Writes (E.held errors.old) (E.held errors.new) result
        (misfit (slice_get words.now place) (usage_for words.now)) }
    ensures cause { HasCause (E.faults errors.old) (E.faults errors.new) result }
{
    match word_at(words, place) {
        Some(word) => write_wrong(errors, word, usage_for(words)),
        None => write_missing(errors, usage_for(words)),
    }
}

/// Writes of arguments that are no command.
fn write_no_command<E: Sink>(errors: &mut E, words: &[Text], place: usize) -> Result<(), Failed>
    ensures written { Writes (E.held errors.old) (E.held errors.new) result
        (no_command words.now place) }
    ensures cause { HasCause (E.faults errors.old) (E.faults errors.new) result }
{
    if asks_for_help(words) {
        write_help(errors, &VERBS)
    } else {
        write_misfit(errors, words, place)
    }
}

/// The address that arguments begin with.
fn address_in(words: &[Text]) -> &str
    ensures { result.now ≡ address_in words.now }
{
    match words.get(0) {
        Some(word) => word.as_str(),
        None => "",
    }
}

/// Writes what happened, and at which server.
#[tactic(auto, unfolding(crate::specs::Diagnostics::joined))]
fn write_at_server<'a, E: Sink>(
    errors: &mut E,
    what: &'a str,
    words: &'a [Text],
) -> Result<(), Failed>
    ensures written { Writes (E.held errors.old) (E.held errors.new) result
        (at_server what.now words.now) }
    ensures cause { HasCause (E.faults errors.old) (E.faults errors.new) result }
{
    write_parts(
        errors,
        &[
            b"sc: ",
            what.as_bytes(),
            b" ",
            address_in(words).as_bytes(),
            b"\n",
        ],
    )
}

/// Writes why a connection didn't give all answers.
fn write_client_fault<E: Sink>(
    errors: &mut E,
    words: &[Text],
    fault: ClientFault,
) -> Result<(), Failed>
    ensures written { Writes (E.held errors.old) (E.held errors.new) result
        (client_diagnostic words.now fault) }
    ensures cause { HasCause (E.faults errors.old) (E.faults errors.new) result }
{
    match fault {
        ClientFault::ReadFault => write_at_server(errors, "can't read from", words),
        ClientFault::WriteFault => write_at_server(errors, "can't write to", words),
        ClientFault::BadReply(_) => { write_at_server(errors, "an invalid reply came from", words) }
        ClientFault::Truncated => {
            write_at_server(errors, "the connection ended before the reply of", words)
        }
        ClientFault::OutOfMemory => write_all(errors, b"sc: out of memory\n"),
    }
}

/// Writes why a run didn't print its text.
fn write_fault<E: Sink>(errors: &mut E, words: &[Text], fault: ScFault) -> Result<(), Failed>
    ensures written { Writes (E.held errors.old) (E.held errors.new) result
        (fault_diagnostic words.now fault) }
    ensures cause { HasCause (E.faults errors.old) (E.faults errors.new) result }
{
    match fault {
        ScFault::Words(place) => write_no_command(errors, words, place),
        ScFault::Encoding => write_all(errors, b"sc: an argument isn't UTF-8\n"),
        ScFault::Dial => write_at_server(errors, "can't connect to", words),
        ScFault::Client(fault) => write_client_fault(errors, words, fault),
        ScFault::Output => write_all(errors, b"sc: can't write to the standard output\n"),
        ScFault::OutOfMemory => write_all(errors, b"sc: out of memory\n"),
    }
}

/// Writes a code and its message.
#[tactic(auto, unfolding(crate::specs::Diagnostics::joined))]
fn write_message<'a, E: Sink>(errors: &mut E, code: &'a str, message: &'a str) -> Result<(), Failed>
    ensures written { Writes (E.held errors.old) (E.held errors.new) result
        (codes "sc: " ++ (code.now ++ (codes " " ++ (message.now ++ codes "\n")))) }
    ensures cause { HasCause (E.faults errors.old) (E.faults errors.new) result }
{
    write_parts(
        errors,
        &[b"sc: ", code.as_bytes(), b" ", message.as_bytes(), b"\n"],
    )
}

/// Writes the code of a refusal, with its name and its sentence.
fn write_failure<E: Sink>(errors: &mut E, failed: Option<Failure>) -> Result<(), Failed>
    ensures written { Writes (E.held errors.old) (E.held errors.new) result
        (failure_diagnostic failed) }
    ensures cause { HasCause (E.faults errors.old) (E.faults errors.new) result }
{
    let Some(Failure::Refused(code)) = failed else {
        return Ok(());
    };
    write_message(errors, itoa::Buffer::new().format(code), message(code))
}

/// Writes the diagnostic of how a run ended.
fn write_diagnostic<E: Sink>(
    errors: &mut E,
    words: &[Text],
    how: Result<Option<Failure>, ScFault>,
) -> Result<(), Failed>
    ensures written { Writes (E.held errors.old) (E.held errors.new) result
        (diagnostic words.now how) }
    ensures cause { HasCause (E.faults errors.old) (E.faults errors.new) result }
{
    match how {
        Ok(failed) => write_failure(errors, failed),
        Err(fault) => write_fault(errors, words, fault),
    }
}

/// Tells how the run of a command of these arguments ended: answers the status of the program, and
/// writes to standard error what the status doesn't say. A failed write there is let go.
pub fn finish<E: Sink>(words: &[Text], how: Result<Option<Failure>, ScFault>, errors: &mut E) -> u8
    ensures { IsTold words.now how (E.held errors.old) (E.held errors.new)
        (E.faults errors.old) (E.faults errors.new) result }
{
    let _written = write_diagnostic(errors, words, how);
    status_of(how)
}
