ghost use Rattle.std.specs.Prelude.{◌≡◌, ◌≤◌, Result, Ok, Err, List};
ghost use Rattle.sc_top.specs.Parts.{HasHeard, HasShown};

use super::fault::ScFault;
use outside::{Sink, write_all};
use sc_client::run_command;
use sc_dial::{Connection, Dialer};
use sc_words::{Command, Failure, Heard, failure_of, show_reply};
use scm_text::Items;
use std::alloc::Global;

/// Makes the calls of a command over one connection, which is dialled and given back.
pub fn hear<D: Dialer>(
    alloc: Global,
    command: &Command,
    dialer: &mut D,
) -> Result<Items<Heard>, ScFault>
    ensures heard { HasHeard command.now (D.next dialer.old) (D.past dialer.old) (D.past dialer.new)
        (D.faults dialer.old) (D.faults dialer.new) result }
    ensures grows { D.faults dialer.old ≤ D.faults dialer.new }
{
    let Ok(connection) = dialer.dial(command.address.as_str()) else {
        return Err(ScFault::Dial);
    };
    let Connection {
        mut input,
        mut output,
    } = connection;
    let heard = run_command(alloc, command, &mut input, &mut output);
    dialer.close(input, output);
    match heard {
        Ok(heard) => Ok(heard),
        Err(fault) => Err(ScFault::Client(fault)),
    }
}

/// Prints the text of the answers, and tells why a call didn't succeed, if one didn't.
pub fn show<O: Sink>(
    alloc: Global,
    command: &Command,
    heard: &Items<Heard>,
    output: &mut O,
) -> Result<Option<Failure>, ScFault>
    ensures shown { HasShown command.now heard.now (O.held output.old) (O.held output.new)
        (O.faults output.old) (O.faults output.new) result }
    ensures grows { O.faults output.old ≤ O.faults output.new }
{
    let Ok(text) = show_reply(alloc, command, heard) else {
        return Err(ScFault::OutOfMemory);
    };
    if write_all(output, text.as_slice()).is_err() || output.flush().is_err() {
        return Err(ScFault::Output);
    }
    Ok(failure_of(command, heard))
}
