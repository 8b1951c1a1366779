ghost use Rattle.std.specs.Prelude.{ℕ, ◌≡◌, ◌≤◌, ◌<◌, ◌^◌, false, IfErr, OnOk};
ghost use Rattle.sc_client.specs.Along.{AsksNext, TakesPdu, read_so_far};
ghost use Rattle.sc_client.specs.Runs.{IsCaused};
ghost use Rattle.sc_client.specs.Talks.{is_over};

use super::fault::ClientFault;
use super::held::Held;
use super::requests::request_text;
use super::talk::Talk;
use outside::{Sink, write_all};
use rpc_pdu::{PduRead, read_reply_pdu};
use sc_words::{Command, next_request};
use std::alloc::Global;

/// Takes the PDU that stands first, and answers whether one does.
pub fn take_pdu(
    alloc: Global,
    command: &Command,
    talk: &mut Talk,
    held: &mut Held,
) -> Result<bool, ClientFault>
    requires goes_on { is_over command.now talk.old ≡ false }
    requires small { read_so_far held.old < 2 ^ 62 }
    ensures { TakesPdu command.now talk.old talk.new held.old held.new result }
{
    let used = match read_reply_pdu(held.bytes.as_slice()) {
        PduRead::Short(_) => return Ok(false),
        PduRead::Bad(_) => return Err(ClientFault::BadReply(held.place)),
        PduRead::Whole(pdu, used) => {
            if !talk.take(alloc, command, &pdu)? {
                return Err(ClientFault::BadReply(held.place));
            }
            used
        }
    };
    held.pass(alloc, used)?;
    Ok(true)
}

/// Writes the next request, and answers whether there is one.
#[tactic(auto, unfolding(crate::specs::Talks::request_after))]
pub fn ask_next<T: Sink>(
    alloc: Global,
    command: &Command,
    talk: &Talk,
    sink: &mut T,
) -> Result<bool, ClientFault>
    ensures asked { AsksNext command.now talk.now (T.held sink.old) (T.held sink.new) result }
    ensures grows { T.faults sink.old ≤ T.faults sink.new }
    ensures cause { IfErr result (λ fault. (source : ℕ)
        → IsCaused fault source source (T.faults sink.old) (T.faults sink.new)) }
    ensures kept { OnOk result (T.faults sink.new ≡ T.faults sink.old) }
{
    let heard = talk.heard.as_slice();
    let Some(asked) = next_request(alloc, command, heard)? else {
        return Ok(false);
    };
    let Ok(call) = u32::try_from(heard.len() + 2) else {
        drop(asked);
        return Err(ClientFault::OutOfMemory);
    };
    let text = request_text(alloc, call, &asked);
    drop(asked);
    let text = text?;
    match write_all(sink, text.as_slice()) {
        Ok(()) => Ok(true),
        Err(_) => Err(ClientFault::WriteFault),
    }
}
