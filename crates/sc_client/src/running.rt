ghost use Rattle.std.specs.Prelude.{◌≡◌, ◌≤◌, ◌<◌, ◌^◌, false, IfErr, OnOk};
ghost use Rattle.outside.specs.Causes.{NeitherFailed};
ghost use Rattle.sc_client.specs.Along.{Turn, read_so_far};
ghost use Rattle.sc_client.specs.Runs.{IsCaused, IsRun};
ghost use Rattle.sc_client.specs.Talks.{is_over};

use super::fault::ClientFault;
use super::held::Held;
use super::requests::bind_text;
use super::talk::Talk;
use super::talking::{ask_next, take_pdu};
use outside::{Sink, Source, write_all};
use sc_words::{Command, Heard};
use scm_text::Items;
use std::alloc::Global;

/// How many turns a command takes at most. Each turn reads a piece or takes a PDU; a peer that
/// sends more has no whole answer in them.
const TURNS: u64 = 1 << 40;

/// One turn: takes the PDU that stands first, and writes the request that is then due; or reads
/// more. It answers whether to go on.
fn turn<S: Source, T: Sink>(
    alloc: Global,
    command: &Command,
    talk: &mut Talk,
    held: &mut Held,
    source: &mut S,
    sink: &mut T,
) -> Result<bool, ClientFault>
    requires goes_on { is_over command.now talk.old ≡ false }
    requires small { read_so_far held.old < 2 ^ 62 }
    ensures turned { Turn command.now talk.old talk.new held.old held.new
        (S.left source.old) (S.left source.new) (T.held sink.old) (T.held sink.new) result }
    ensures source { S.faults source.old ≤ S.faults source.new }
    ensures sink { T.faults sink.old ≤ T.faults sink.new }
    ensures cause { IfErr result (λ fault. IsCaused fault
        (S.faults source.old) (S.faults source.new) (T.faults sink.old) (T.faults sink.new)) }
    ensures kept { OnOk result (NeitherFailed
        (S.faults source.old) (S.faults source.new) (T.faults sink.old) (T.faults sink.new)) }
{
    if !take_pdu(alloc, command, talk, held)? {
        held.read_more(source)?;
        return Ok(true);
    }
    if !talk.is_whole() {
        return Ok(true);
    }
    ask_next(alloc, command, talk, sink)
}

/// Makes the calls of a command over a connection to a manager, and gives the answers to them. The
/// bind is written first, and then each request once the answers before it were read. What the peer
/// sends after the last answer isn't looked at.
pub fn run_command<S: Source, T: Sink>(
    alloc: Global,
    command: &Command,
    source: &mut S,
    sink: &mut T,
) -> Result<Items<Heard>, ClientFault>
    ensures run { IsRun command.now (S.left source.old) (S.left source.new) (T.held sink.old)
        (T.held sink.new) result }
    ensures source { S.faults source.old ≤ S.faults source.new }
    ensures sink { T.faults sink.old ≤ T.faults sink.new }
    ensures cause { IfErr result (λ fault. IsCaused fault
        (S.faults source.old) (S.faults source.new) (T.faults sink.old) (T.faults sink.new)) }
    ensures kept { OnOk result (NeitherFailed
        (S.faults source.old) (S.faults source.new) (T.faults sink.old) (T.faults sink.new)) }
{
    let mut talk = Talk::new(alloc);
    let mut held = Held::new(alloc);
    let text = bind_text(alloc)?;
    if write_all(sink, text.as_slice()).is_err() {
        return Err(ClientFault::WriteFault);
    }
    for _ in 0..TURNS {
        let more = match turn(alloc, command, &mut talk, &mut held, source, sink) {
            Ok(more) => more,
            Err(fault) => return Err(fault),
        };
        if !more {
            return Ok(talk.into_heard());
        }
    }
    Err(ClientFault::OutOfMemory)
}
