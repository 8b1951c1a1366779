ghost use Rattle.std.specs.Prelude.{◌≡◌, ◌++◌, Result, IfOk, OnOk, bytes_eq, option_map, take};
ghost use Rattle.std.specs.Result.{result_ok};
ghost use Rattle.ndr_body.specs.declared.fault.BodyFault.{BodyFault as ABodyFault};
ghost use Rattle.ndr_body.specs.Reading.{Gives};
ghost use Rattle.rpc_pdu.specs.Pdu.{seen_ack, seen_pdu, seen_response};
ghost use Rattle.scm_model.specs.declared.calls.Reply.{Reply as AReply};
ghost use Rattle.sc_client.specs.Along.{Leads};
ghost use Rattle.sc_client.specs.Talks.{acceptance, ack_move, answers, expected, fault_move};
ghost use Rattle.sc_client.specs.Talks.{is_next_fragment, hearing, is_whole, pdu_move};
ghost use Rattle.sc_client.specs.Talks.{response_move, heard_of, not_bound, with_stub};

use ndr_body::BodyFault;
use rpc_pdu::{Ack, FaultPdu, Pdu, ResponsePdu};
use sc_words::{Command, Heard, next_request};
use scm_bodies::{Call, call_of, read_reply};
use scm_model::Reply;
use scm_text::{Items, OutOfMemory};
use std::alloc::Global;

/// The most stub bytes of a reply.
const LIMIT: usize = 1_048_576;

/// Acceptance in NDR, as a result of a bind_ack.
const ACCEPTANCE: [u8; 24] = [
    0x00, 0x00, 0x00, 0x00, 0x04, 0x5d, 0x88, 0x8a, 0xeb, 0x1c, 0xc9, 0x11, 0x9f, 0xe8, 0x08, 0x00,
    0x2b, 0x10, 0x48, 0x60, 0x02, 0x00, 0x00, 0x00,
];

/// How far a client came with its peer.
pub struct Talk {
    /// Whether the bind was accepted.
    pub bound: bool,
    /// The answers to the requests so far.
    pub heard: Items<Heard>,
    /// The stub of a reply that isn't whole yet, or nothing.
    pub part: Items<u8>,
}

impl Drop for Talk {
    fn drop(self) {
        let Talk {
            bound: _,
            heard,
            part,
        } = self;
        drop(heard);
        drop(part);
    }
}

/// The call that is to be answered next.
#[tactic(auto, unfolding(crate::specs::Talks::expected))]
fn expected(alloc: Global, command: &Command, heard: &[Heard]) -> Result<Option<Call>, OutOfMemory>
    ensures { IfOk result (λ call. call ≡ expected command.now heard.now) }
{
    match next_request(alloc, command, heard)? {
        Some(asked) => {
            let call = call_of(&asked);
            drop(asked);
            Ok(call)
        }
        None => Ok(None),
    }
}

/// What a body that was read tells, or nothing of one that can't be.
fn or_none(read: Result<Reply, BodyFault>) -> Result<Option<Reply>, OutOfMemory>
    ensures { (at : Result AReply ABodyFault) → Gives (λ r. r) read at
        → IfOk result (λ told. told ≡ result_ok at) }
{
    match read {
        Ok(reply) => Ok(Some(reply)),
        Err(BodyFault::OutOfMemory) => Err(OutOfMemory),
        Err(
            BodyFault::Short(_)
            | BodyFault::BadString(_)
            | BodyFault::BadCount(_)
            | BodyFault::Trailing(_),
        ) => Ok(None),
    }
}

/// What a whole stub tells in answer to a call.
#[tactic(auto, unfolding(crate::specs::Talks::heard_of))]
fn told_by(alloc: Global, call: Option<Call>, stub: &[u8]) -> Result<Option<Heard>, OutOfMemory>
    ensures { IfOk result (λ heard. heard ≡ heard_of call stub.now) }
{
    let Some(call) = call else {
        return Ok(None);
    };
    match or_none(read_reply(alloc, call, stub))? {
        Some(reply) => Ok(Some(Heard::Reply(reply))),
        None => Ok(None),
    }
}

/// Whether a response goes on where the last one ended, and has a stub.
fn is_next_fragment(talk: &Talk, r: &ResponsePdu<&[u8]>) -> bool
    ensures { result ≡ is_next_fragment talk.now (seen_response r.now) }
{
    (if r.first {
        talk.is_whole()
    } else {
        !talk.is_whole()
    }) && !r.stub.is_empty()
}

/// Whether the first result is acceptance.
fn is_acceptance(results: &[u8]) -> bool
    ensures { result ≡ bytes_eq (take 24 results.now) acceptance }
{
    let (first, _) = results.split_at(results.len().min(24));
    first == ACCEPTANCE.as_slice()
}

impl Talk {
    /// Where a client begins.
    pub fn new(alloc: Global) -> Talk
        ensures { result ≡ not_bound }
    {
        Talk {
            bound: false,
            heard: Items::new(alloc),
            part: Items::new(alloc),
        }
    }

    /// The answers.
    pub fn into_heard(self) -> Items<Heard>
        ensures { result ≡ self.heard }
    {
        let Talk {
            bound: _,
            heard,
            part: _,
        } = self;
        heard
    }

    /// Whether no part of a reply was read.
    pub fn is_whole(&self) -> bool
        ensures { result ≡ is_whole self.now }
    {
        self.part.len() == 0
    }

    /// Whether an answer is to the request that waits for one.
    fn answers(&self, call: u32, context: u16) -> bool
        ensures { result ≡ answers self.now call context }
    {
        self.bound && call as usize == self.heard.as_slice().len() + 2 && context == 0
    }

    /// Keeps an answer.
    fn hear(&mut self, alloc: Global, heard: Heard) -> Result<(), OutOfMemory>
        ensures { OnOk result (self.new ≡ hearing self.old heard) }
    {
        if self.heard.push(heard).is_err() {
            return Err(OutOfMemory);
        }
        self.part = Items::new(alloc);
        Ok(())
    }

    /// Takes what is heard, if anything is.
    fn hear_some(&mut self, alloc: Global, heard: Option<Heard>) -> Result<bool, OutOfMemory>
        ensures { Leads (option_map (hearing self.old) heard) self.new result }
    {
        match heard {
            Some(heard) => {
                self.hear(alloc, heard)?;
                Ok(true)
            }
            None => Ok(false),
        }
    }

    /// Takes a stub, which has its place.
    fn take_stub(
        &mut self,
        alloc: Global,
        command: &Command,
        last: bool,
        stub: &[u8],
    ) -> Result<bool, OutOfMemory>
        ensures { Leads (with_stub command.now self.old last
            (self.old.part ++ stub.now)) self.new result }
    {
        self.part.append(stub)?;
        if self.part.len() > LIMIT {
            return Ok(false);
        }
        if !last {
            return Ok(true);
        }
        let call = expected(alloc, command, self.heard.as_slice())?;
        let heard = told_by(alloc, call, self.part.as_slice())?;
        self.hear_some(alloc, heard)
    }

    /// Takes a response.
    #[tactic(auto, unfolding(crate::specs::Talks::response_move))]
    fn take_response(
        &mut self,
        alloc: Global,
        command: &Command,
        r: &ResponsePdu<&[u8]>,
    ) -> Result<bool, OutOfMemory>
        ensures { Leads (response_move command.now self.old (seen_response r.now)) self.new result }
    {
        if !self.answers(r.call, r.context) || !is_next_fragment(self, r) {
            return Ok(false);
        }
        self.take_stub(alloc, command, r.last, r.stub)
    }

    /// Takes a fault.
    #[tactic(auto, unfolding(crate::specs::Talks::fault_move))]
    fn take_fault(&mut self, alloc: Global, f: &FaultPdu) -> Result<bool, OutOfMemory>
        ensures { Leads (fault_move self.old f.now) self.new result }
    {
        if !self.answers(f.call, f.context) || !self.is_whole() {
            return Ok(false);
        }
        self.hear(alloc, Heard::Fault(f.status))?;
        Ok(true)
    }

    /// Takes the answer to the bind.
    #[tactic(auto, unfolding(crate::specs::Talks::ack_move))]
    fn take_ack(&mut self, a: &Ack<&[u8]>) -> Result<bool, OutOfMemory>
        ensures { Leads (ack_move self.old (seen_ack a.now)) self.new result }
    {
        let accepted = !self.bound && a.call == 1 && is_acceptance(a.results);
        if !accepted {
            return Ok(false);
        }
        self.bound = true;
        Ok(true)
    }

    /// Takes a PDU, and answers whether it has its place.
    #[tactic(auto, unfolding(crate::specs::Talks::pdu_move))]
    pub fn take(
        &mut self,
        alloc: Global,
        command: &Command,
        pdu: &Pdu<&[u8]>,
    ) -> Result<bool, OutOfMemory>
        ensures { Leads (pdu_move command.now self.old (seen_pdu pdu.now)) self.new result }
    {
        match pdu {
            Pdu::Response(response) => self.take_response(alloc, command, response),
            Pdu::Fault(fault) => self.take_fault(alloc, fault),
            Pdu::BindAck(ack) => self.take_ack(ack),
            _ => Ok(false),
        }
    }
}
