ghost use Rattle.std.specs.Prelude.{◌≡◌, ◌≤◌, IfErr, IfOk};
ghost use Rattle.sc_top.specs.Runs.{EndsWith, RunEnded, IsRunComplete, IsNoCommand, outside_of};
ghost use Rattle.sc_words.specs.Words.{command_of};

use super::diagnostics::finish;
use super::fault::ScFault;
use super::hearing::{hear, show};
use outside::Sink;
use sc_dial::Dialer;
use sc_words::{Command, Failure, WordsFault, read_words};
use scm_text::{Items, Text};
use std::alloc::Global;

/// Runs a command, and tells why a call didn't succeed, if one didn't.
fn run<D: Dialer, O: Sink>(
    alloc: Global,
    command: &Command,
    dialer: &mut D,
    output: &mut O,
) -> Result<Option<Failure>, ScFault>
    ensures run { RunEnded command.now (outside_of (D.next dialer.old) (D.past dialer.old)
        (D.past dialer.new)
        (D.faults dialer.old) (D.faults dialer.new) (O.held output.old) (O.held output.new)
        (O.faults output.old) (O.faults output.new)) result }
    ensures dialer { D.faults dialer.old ≤ D.faults dialer.new }
    ensures output { O.faults output.old ≤ O.faults output.new }
{
    let heard = match hear(alloc, command, dialer) {
        Ok(heard) => heard,
        Err(fault) => return Err(fault),
    };
    show(alloc, command, &heard, output)
}

/// Runs the command that the arguments are, and answers the status of the program.
fn run_to_status<D: Dialer, O: Sink, E: Sink>(
    alloc: Global,
    words: &[Text],
    command: &Command,
    dialer: &mut D,
    output: &mut O,
    errors: &mut E,
) -> u8
    ensures run { EndsWith words.now command.now (outside_of (D.next dialer.old)
        (D.past dialer.old) (D.past dialer.new)
        (D.faults dialer.old) (D.faults dialer.new) (O.held output.old) (O.held output.new)
        (O.faults output.old) (O.faults output.new))
        (E.held errors.old) (E.held errors.new)
        (E.faults errors.old) (E.faults errors.new) result }
    ensures complete { IsRunComplete command.now (outside_of (D.next dialer.old) (D.past dialer.old)
        (D.past dialer.new)
        (D.faults dialer.old) (D.faults dialer.new) (O.held output.old) (O.held output.new)
        (O.faults output.old) (O.faults output.new)) result }
    ensures dialer { D.faults dialer.old ≤ D.faults dialer.new }
    ensures output { O.faults output.old ≤ O.faults output.new }
{
    let how = run(alloc, command, dialer, output);
    finish(words, how, errors)
}

/// Does what the arguments ask for, and answers the status of the program: 0 all calls succeeded,
/// 1 a call was refused or met a fault, 2 arguments that are no command, 3 the manager can't be
/// reached, read or written to, or the output failed, 4 the peer's bytes aren't in the formats or
/// end early, 8 out of memory. The errors get a line that says why, or the code's name and sentence
/// after a refusal; no arguments, or `help`, `--help` or `/?` in their place, get the usage.
pub fn sc_main<D: Dialer, O: Sink, E: Sink>(
    alloc: Global,
    words: &Items<Text>,
    dialer: &mut D,
    output: &mut O,
    errors: &mut E,
) -> u8
    // If the arguments are no command, nothing is dialled or printed, and the first that doesn't
    // fit is reported.
    ensures words { IfErr (command_of words.now) (λ place. IsNoCommand words.now place
        (E.held errors.old) (E.held errors.new)
        (E.faults errors.old) (E.faults errors.new) result) }
    ensures undialled { IfErr (command_of words.now) (λ _. dialer.new ≡ dialer.old) }
    ensures unwritten { IfErr (command_of words.now) (λ _. output.new ≡ output.old) }
    // Counts of faults never fall.
    ensures dialer { D.faults dialer.old ≤ D.faults dialer.new }
    ensures output { O.faults output.old ≤ O.faults output.new }
    // What was dialled, read, written and printed, why the run ended, and what is reported of
    // that.
    ensures run { IfOk (command_of words.now) (λ c. EndsWith words.now c (outside_of
        (D.next dialer.old) (D.past dialer.old) (D.past dialer.new)
        (D.faults dialer.old) (D.faults dialer.new) (O.held output.old) (O.held output.new)
        (O.faults output.old) (O.faults output.new))
        (E.held errors.old) (E.held errors.new)
        (E.faults errors.old) (E.faults errors.new) result) }
    // Nothing else ends a run without faults.
    ensures complete { IfOk (command_of words.now) (λ c. IsRunComplete c (outside_of
        (D.next dialer.old) (D.past dialer.old) (D.past dialer.new)
        (D.faults dialer.old) (D.faults dialer.new) (O.held output.old) (O.held output.new)
        (O.faults output.old) (O.faults output.new)) result) }
{
    let list = words.as_slice();
    match read_words(alloc, words) {
        Ok(command) => run_to_status(alloc, list, &command, dialer, output, errors),
        Err(WordsFault::BadWord(place)) => finish(list, Err(ScFault::Words(place)), errors),
        Err(WordsFault::OutOfMemory) => finish(list, Err(ScFault::OutOfMemory), errors),
    }
}
