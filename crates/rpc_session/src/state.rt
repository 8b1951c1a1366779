ghost use Rattle.std.specs.Prelude.{◌≡◌, ◌++◌, IfErr, IsSome, ◌≤◌, ◌<◌, ◌+◌, ◌^◌, length, IfOk};
ghost use Rattle.std.specs.Prelude.{IfSome, OnErr, OnOk, is_some, ◌==◌, Some, None, if◌then◌else◌};
ghost use Rattle.rpc_pdu.specs.Pdu.{seen_bind, seen_request, seen_pdu, seen_ack};
ghost use Rattle.rpc_pdu.specs.Written.{nak_bytes, ack_bytes, fault_bytes, ack_size};
ghost use Rattle.rpc_session.specs.Replies.{FitsSize};
ghost use Rattle.rpc_session.specs.Contexts.{results_of};
ghost use Rattle.rpc_session.specs.Moves.{held_size, terms_of, ack_to, bind_move, alter_move};
ghost use Rattle.rpc_session.specs.Moves.{request_move, session_move, is_served, verdict_of};
ghost use Rattle.rpc_session.specs.Moves.{item_by, transmit_of, IsFor, Moved, Grown, body_length};
ghost use Rattle.rpc_session.specs.Moves.{cut_to, with_unfinished, going_on, with_payload};
ghost use Rattle.rpc_session.specs.Moves.{continues};
ghost use Rattle.rpc_session.specs.Moves.{move_joined, unfinished_of, accepted};
ghost use Rattle.rpc_session.specs.declared.state.Refusal.TheVariants.{OutOfMemory};

use crate::contexts::{Interface, answer_all};
use crate::known::Known;
use crate::spare::SpareBytes;
use rpc_pdu::{Ack, Bind, FaultPdu, Nak, Pdu, RequestPdu, fault_pdu, write_pdu};
use scm_text::{Items, OutOfMemory};
use std::alloc::Global;

/// What a bind_ack settled.
#[derive(Clone, Copy, Debug, PartialEq, Eq)]
pub struct Terms {
    pub transmit: u16,
    pub receive: u16,
    pub group: u32,
}

/// A request whose last fragment hasn't come.
#[derive(Drop)]
pub struct Unfinished {
    pub call: u32,
    pub context: u16,
    pub opnum: u16,
    pub body: Items<u8>,
}

/// A whole request.
#[derive(Drop)]
pub struct RequestItem {
    pub call: u32,
    pub context: u16,
    pub interface: Interface,
    pub opnum: u16,
    /// The transmit size of its session, by which it is answered.
    pub transmit: u16,
    pub body: Items<u8>,
}

/// An item of the stream.
#[derive(Drop)]
pub enum Incoming {
    /// A PDU to be written.
    Local(Items<u8>),
    Request(RequestItem),
}

/// Why a PDU isn't taken.
#[derive(Clone, Copy, Debug, PartialEq, Eq)]
pub enum Refusal {
    Order,
    TooLong(u64),
    OutOfMemory,
}

/// A request with so much of its body, and none where there was none.
fn cut(unfinished: Option<Unfinished>, length: Option<usize>) -> Option<Unfinished>
    ensures { result ≡ cut_to length unfinished }
{
    match (unfinished, length) {
        (Some(mut request), Some(length)) => {
            request.body.truncate(length);
            Some(request)
        }
        _ => None,
    }
}

/// A session between two PDUs.
#[derive(Drop)]
pub struct State {
    pub terms: Option<Terms>,
    pub known: Known,
    pub unfinished: Option<Unfinished>,
}

fn held(size: u16) -> u16
    ensures { result ≡ held_size size }
{
    size.min(5840).max(1432)
}

fn offered_terms(bind: &Bind<&[u8]>) -> Terms
    ensures value { result ≡ terms_of (seen_bind bind.now) }
    ensures room { FitsSize (Some result) }
{
    Terms {
        transmit: held(bind.receive),
        receive: held(bind.transmit),
        group: if bind.group == 0 { 1 } else { bind.group },
    }
}

/// nca_s_unk_if: the request's context isn't accepted.
const UNKNOWN_CONTEXT: u32 = 0x1C010003;

/// nca_s_op_rng_error: the interface has no such operation.
const UNKNOWN_OPNUM: u32 = 0x1C010002;

/// Whether an interface has this operation.
fn is_listed(interface: Interface, opnum: u16) -> bool
    ensures { result ≡ is_served interface opnum }
{
    match interface {
        Interface::Svcctl => {
            opnum <= 8
                || (11 <= opnum && opnum <= 21)
                || opnum == 37
                || opnum == 39
                || opnum == 40
                || (47 <= opnum && opnum <= 49)
        }
        Interface::Trigger => opnum == 0,
    }
}

/// The interface that a whole request is for, or the status of its fault.
fn verdict(known: &Known, context: u16, opnum: u16) -> Result<Interface, u32>
    ensures { result ≡ verdict_of known.now context opnum }
{
    let Some(interface) = known.interface(context) else {
        return Err(UNKNOWN_CONTEXT);
    };
    if is_listed(interface, opnum) {
        Ok(interface)
    } else {
        Err(UNKNOWN_OPNUM)
    }
}

impl From<OutOfMemory> for Refusal {
    ghost from_gives = { λ _ e. e ≡ OutOfMemory };

    fn from(_fault: OutOfMemory) -> Refusal {
        Refusal::OutOfMemory
    }
}

fn nak_item(alloc: Global, call: u32) -> Result<Items<u8>, OutOfMemory>
    ensures { IfOk result (λ bytes. bytes ≡ nak_bytes (record { call = call; reason = 0 })) }
{
    let mut bytes = Items::new(alloc);
    write_pdu(&Pdu::BindNak(Nak { call, reason: 0 }), &mut bytes)?;
    Ok(bytes)
}

fn fault_item(alloc: Global, fault: &FaultPdu) -> Result<Items<u8>, OutOfMemory>
    ensures { IfOk result (λ bytes. bytes ≡ fault_bytes fault.now) }
{
    Items::from_slice(alloc, &fault_pdu(fault))
}

/// The bytes of the answer to a bind, or to an alter_context.
fn ack_item(alloc: Global, alter: bool, ack: Ack<&[u8]>) -> Result<Items<u8>, OutOfMemory>
    requires { ack_size (seen_ack ack) < 2 ^ 16 }
    ensures { IfOk result (λ bytes. bytes ≡ ack_bytes (if alter then 15 else 12)
        (seen_ack ack.entry)) }
{
    let mut bytes = Items::new(alloc);
    let pdu = if alter {
        Pdu::AlterAck(ack)
    } else {
        Pdu::BindAck(ack)
    };
    write_pdu(&pdu, &mut bytes)?;
    Ok(bytes)
}

/// Whether a fragment goes on with a request.
fn goes_on(u: &Unfinished, r: &RequestPdu<&[u8]>) -> bool
    ensures { result ≡ continues u.now (seen_request r.now) }
{
    !r.first && u.call == r.call && u.context == r.context && u.opnum == r.opnum
}

const LIMIT: usize = 1048576;

/// The transmit size of a session, 0 where it isn't bound.
fn transmit(terms: Option<Terms>) -> u16
    ensures { result ≡ transmit_of terms }
{
    match terms {
        Some(terms) => terms.transmit,
        None => 0,
    }
}

/// The item of a whole request, which is given back where there is no memory.
#[inline(always)]
fn item(alloc: Global, known: &Known, transmit: u16, u: Unfinished) -> Result<Incoming, Unfinished>
    ensures ok { IfOk result (λ item. item ≡ item_by
        (verdict_of known.now u.context u.opnum) transmit u) }
    ensures err { IfErr result (λ back. back ≡ u) }
{
    match verdict(known, u.context, u.opnum) {
        Ok(interface) => Ok(Incoming::Request(RequestItem {
            call: u.call,
            context: u.context,
            interface,
            opnum: u.opnum,
            transmit,
            body: u.body,
        })),
        Err(status) => {
            let fault = FaultPdu {
                call: u.call,
                hint: 0,
                context: u.context,
                status,
            };
            match fault_item(alloc, &fault) {
                Ok(bytes) => Ok(Incoming::Local(bytes)),
                Err(_) => Err(u),
            }
        }
    }
}

/// Joins a stub. An `Err` leaves the request.
fn grow(u: &mut Unfinished, stub: &[u8]) -> Result<(), Refusal>
    ensures { Grown u.old u.new result (with_payload u.old (u.old.body ++ stub.now)) }
{
    let length = u.body.as_slice().len() + stub.len();
    if length > LIMIT {
        return Err(Refusal::TooLong(length as u64));
    }
    u.body.append(stub)?;
    Ok(())
}

impl State {
    /// Takes the contexts of a bind or an alter_context, and answers it.
    fn accept(
        &mut self,
        alloc: Global,
        alter: bool,
        address: &[u8],
        terms: Terms,
        bind: &Bind<&[u8]>,
    ) -> Result<Option<Incoming>, Refusal>
        requires short { length address.now ≤ 1 }
        requires same { IfSome self.old.terms (λ old. old ≡ terms) }
        ensures moved { Moved self.old self.new result
            (accepted alter address.now self.old terms (seen_bind bind.now)) }
        ensures room { FitsSize (Some terms) → FitsSize self.old.terms → FitsSize self.new.terms }
        ensures kept { IfSome self.old.terms (λ terms. self.new.terms ≡ Some terms) }
        ensures transmit { IfOk result (IsFor self.new.terms) }
    {
        let answers = answer_all(alloc, bind.count, bind.contexts)?;
        let ack = Ack {
            call: bind.call,
            transmit: terms.transmit,
            receive: terms.receive,
            group: terms.group,
            address,
            count: bind.count,
            results: answers.results.as_slice(),
        };
        let bytes = ack_item(alloc, alter, ack)?;
        self.known.take(answers.room, bind.count, bind.contexts)?;
        self.terms = Some(terms);
        Ok(Some(Incoming::Local(bytes)))
    }

    fn take_bind(&mut self, alloc: Global, bind: &Bind<&[u8]>) -> Result<Option<Incoming>, Refusal>
        ensures moved { Moved self.old self.new result (bind_move self.old (seen_bind bind.now)) }
        ensures room { FitsSize self.old.terms → FitsSize self.new.terms }
        ensures kept { IfSome self.old.terms (λ terms. self.new.terms ≡ Some terms) }
        ensures transmit { IfOk result (IsFor self.new.terms) }
    {
        if self.terms.is_some() || self.unfinished.is_some() {
            return Err(Refusal::Order);
        }
        if bind.auth != 0 {
            let bytes = nak_item(alloc, bind.call)?;
            return Ok(Some(Incoming::Local(bytes)));
        }
        self.accept(alloc, false, &[0], offered_terms(bind), bind)
    }

    fn take_alter(&mut self, alloc: Global, bind: &Bind<&[u8]>) -> Result<Option<Incoming>, Refusal>
        ensures moved { Moved self.old self.new result (alter_move self.old (seen_bind bind.now)) }
        ensures room { FitsSize self.old.terms → FitsSize self.new.terms }
        ensures kept { IfSome self.old.terms (λ terms. self.new.terms ≡ Some terms) }
        ensures transmit { IfOk result (IsFor self.new.terms) }
    {
        let Some(terms) = self.terms else {
            return Err(Refusal::Order);
        };
        if self.unfinished.is_some() {
            return Err(Refusal::Order);
        }
        self.accept(alloc, true, &[], terms, bind)
    }

    /// Takes the first fragment of a request.
    fn begin(
        &mut self,
        alloc: Global,
        spare: &mut SpareBytes,
        r: &RequestPdu<&[u8]>,
    ) -> Result<Option<Incoming>, Refusal>
        requires bound { IsSome self.old.terms }
        requires free { self.old.unfinished ≡ None }
        ensures moved { Moved self.old self.new result
            (move_joined self.old r.now.last (unfinished_of (seen_request r.now))) }
        ensures room { FitsSize self.old.terms → FitsSize self.new.terms }
        ensures kept { IfSome self.old.terms (λ terms. self.new.terms ≡ Some terms) }
        ensures transmit { IfOk result (IsFor self.new.terms) }
    {
        if r.stub.len() > LIMIT {
            return Err(Refusal::TooLong(r.stub.len() as u64));
        }
        let request = Unfinished {
            call: r.call,
            context: r.context,
            opnum: r.opnum,
            body: spare.copy(alloc, r.stub)?,
        };
        if !r.last {
            self.unfinished = Some(request);
            return Ok(None);
        }
        match item(alloc, &self.known, transmit(self.terms), request) {
            Ok(item) => Ok(Some(item)),
            Err(_) => Err(Refusal::OutOfMemory),
        }
    }

    /// Takes a further fragment of a request.
    fn go_on(&mut self, alloc: Global, r: &RequestPdu<&[u8]>) -> Result<Option<Incoming>, Refusal>
        requires bound { IsSome self.old.terms }
        requires held { IsSome self.old.unfinished }
        ensures moved { Moved self.old self.new result (going_on self.old (seen_request r.now)) }
        ensures room { FitsSize self.old.terms → FitsSize self.new.terms }
        ensures kept { IfSome self.old.terms (λ terms. self.new.terms ≡ Some terms) }
        ensures transmit { IfOk result (IsFor self.new.terms) }
    {
        let Some(mut request) = self.unfinished.take() else {
            return Err(Refusal::Order);
        };
        let before = request.body.len();
        if let Err(refusal) = grow(&mut request, r.stub) {
            self.unfinished = Some(request);
            return Err(refusal);
        }
        if !r.last {
            self.unfinished = Some(request);
            return Ok(None);
        }
        match item(alloc, &self.known, transmit(self.terms), request) {
            Ok(item) => Ok(Some(item)),
            Err(mut request) => {
                request.body.truncate(before);
                self.unfinished = Some(request);
                Err(Refusal::OutOfMemory)
            }
        }
    }

    fn take_request(
        &mut self,
        alloc: Global,
        spare: &mut SpareBytes,
        r: &RequestPdu<&[u8]>,
    ) -> Result<Option<Incoming>, Refusal>
        ensures moved { Moved self.old self.new result
            (request_move self.old (seen_request r.now)) }
        ensures room { FitsSize self.old.terms → FitsSize self.new.terms }
        ensures kept { IfSome self.old.terms (λ terms. self.new.terms ≡ Some terms) }
        ensures transmit { IfOk result (IsFor self.new.terms) }
    {
        if self.terms.is_none() {
            return Err(Refusal::Order);
        }
        match &self.unfinished {
            None => {
                if r.first {
                    self.begin(alloc, spare, r)
                } else {
                    Err(Refusal::Order)
                }
            }
            Some(u) => {
                if goes_on(u, r) {
                    self.go_on(alloc, r)
                } else {
                    Err(Refusal::Order)
                }
            }
        }
    }

    /// Takes a PDU: an item comes, or a fragment is joined. An `Err` leaves the state. The body of
    /// a request lies in the spare memory if that is large enough.
    #[tactic(auto, unfolding(crate::specs::Moves::session_move))]
    pub fn take(
        &mut self,
        alloc: Global,
        spare: &mut SpareBytes,
        pdu: &Pdu<&[u8]>,
    ) -> Result<Option<Incoming>, Refusal>
        ensures moved { Moved self.old self.new result (session_move self.old (seen_pdu pdu.now)) }
        ensures room { FitsSize self.old.terms → FitsSize self.new.terms }
        ensures kept { IfSome self.old.terms (λ terms. self.new.terms ≡ Some terms) }
        ensures transmit { IfOk result (IsFor self.new.terms) }
    {
        match pdu {
            Pdu::Request(request) => self.take_request(alloc, spare, request),
            Pdu::Bind(bind) => self.take_bind(alloc, bind),
            Pdu::Alter(bind) => self.take_alter(alloc, bind),
            _ => Err(Refusal::Order),
        }
    }

    /// How long the body of the unfinished request is.
    pub fn joined(&self) -> Option<usize>
        ensures { result ≡ body_length self.now.unfinished }
    {
        match &self.unfinished {
            None => None,
            Some(request) => Some(request.body.len()),
        }
    }

    /// Gives back what was joined since the unfinished request had this length, or what was begun
    /// since there was none.
    pub fn give_back(&mut self, joined: Option<usize>)
        ensures { self.new ≡ with_unfinished self.old (cut_to joined self.old.unfinished) }
    {
        let unfinished = self.unfinished.take();
        self.unfinished = cut(unfinished, joined);
    }
}
