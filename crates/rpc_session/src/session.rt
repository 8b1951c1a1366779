ghost use Rattle.std.specs.Prelude.{◌≡◌, ◌+◌, ◌^◌, ◌<◌, ◌≤◌, [], length, drop, OnOk, OnErr, ◌++◌};
ghost use Rattle.std.specs.Prelude.{List, ℕ, IfOk, IfErr, IfSome, IsSome, Some};
ghost use Rattle.rpc_session.specs.Held.{Held, further, with_more};
ghost use Rattle.rpc_session.specs.declared.state.Incoming.{Incoming};
ghost use Rattle.rpc_session.specs.declared.session.SessionFault.{SessionFault};
ghost use Rattle.rpc_pdu.specs.Written.{fault_bytes};
ghost use Rattle.rpc_session.specs.Replies.{FitsSize, reply_fragments};
ghost use Rattle.rpc_session.specs.Moves.{IsFor, HasJoined};
ghost use Rattle.outside.specs.Causes.{HasCause};
ghost use Rattle.outside.specs.Written.{Writes};
ghost use Rattle.rpc_session.specs.Items.{Seen, unbound, OnWant, ahead_by, StepJoins, Comes, Gave};
ghost use Rattle.rpc_session.specs.Items.{Says, given_by, StepComes, fault_by, is_at_rest, IsStuck};
ghost use Rattle.rpc_session.specs.Items.{TellsAgain};

use crate::known::Known;
use crate::replies::{write_fault, write_reply};
use crate::spare::SpareBytes;
use crate::state::{Incoming, Refusal, State};
use outside::{Failed, Sink};
use rpc_pdu::{PduKind, PduRead, read_pdu};
use scm_text::{Items, OutOfMemory};
use std::alloc::Global;
use std::marker::Model;
use thiserror::Error;

/// The part of a stream that isn't consumed yet.
#[derive(Drop)]
pub struct Stream {
    bytes: Vec<u8>,
    /// How many of the bytes are consumed.
    used: usize,
    /// Where in the stream the next byte stands.
    place: u64,
}

impl Model for Stream {
    ghost use Rattle.std.specs.Prelude.{◌≤◌, ◌<◌, ◌+◌, ◌^◌, length, drop};
    ghost use Rattle.rpc_session.specs.Held.{Held};

    ghost Value = { Held };

    ghost view = { λ s. record { place = s.place; rest = drop s.used s.bytes.items } };

    ghost invariant = { λ s. (s.used ≤ length s.bytes.items)
        × (s.place + length s.bytes.items < 2 ^ 64 + s.used) };
}

/// Drops the front of this length.
fn remove_front(bytes: &mut Vec<u8>, front: usize)
    requires { front ≤ length bytes.old.items }
    ensures { bytes.new.items ≡ drop front bytes.old.items }
{
    let left = bytes.len() - front;
    bytes.copy_within(front.., 0);
    bytes.truncate(left);
}

impl Stream {
    pub fn new(alloc: Global) -> Self
        ensures { result ≡ record { place = 0; rest = [] } }
    {
        Stream {
            bytes: Vec::new(alloc),
            used: 0,
            place: 0,
        }
    }

    /// The bytes that aren't consumed yet.
    pub fn rest(&self) -> &[u8]
        ensures { result.now ≡ self.now.rest }
    {
        &self.bytes[self.used..]
    }

    /// The bytes that aren't consumed yet, without the first few.
    pub fn ahead(&self, count: usize) -> &[u8]
        requires { count ≤ length self.now.rest }
        ensures rest { result.now ≡ drop count self.now.rest }
        ensures bound { length self.now.rest < 2 ^ 64 }
    {
        &self.bytes[self.used + count..]
    }

    /// Where the byte stands that comes after the next few.
    pub fn place(&self, count: usize) -> u64
        requires { count ≤ length self.now.rest }
        ensures { result ≡ self.now.place + count }
    {
        self.place + count as u64
    }

    /// Appends a piece. The consumed bytes are removed once they are half of those kept, so each
    /// byte is moved at most once on the average.
    pub fn feed(&mut self, piece: &[u8]) -> Result<(), OutOfMemory>
        ensures ok { OnOk result (self.new ≡ with_more self.old piece.now) }
        ensures err { OnErr result (self.new ≡ self.old) }
    {
        let left = self.bytes.len() - self.used;
        if u64::MAX - self.place - (left as u64) < piece.len() as u64 {
            return Err(OutOfMemory);
        }
        if left <= self.used {
            remove_front(&mut self.bytes, self.used);
            self.used = 0;
        }
        if self.bytes.extend_from_slice(piece).is_err() {
            return Err(OutOfMemory);
        }
        Ok(())
    }

    /// Consumes this many bytes.
    pub fn pass(&mut self, count: usize)
        requires { count ≤ length self.old.rest }
        ensures { self.new ≡ further self.old count }
    {
        self.used += count;
        self.place += count as u64;
    }
}

/// Why a session gives no further item.
#[derive(Clone, Copy, Debug, PartialEq, Eq, Error)]
pub enum SessionFault {
    /// The PDU at this place of the stream is bad.
    #[error("bad PDU at {0}: {1}")]
    BadPdu(u64, PduKind),
    /// A request's stub would have this length.
    #[error("a stub of {0} bytes")]
    TooLong(u64),
    #[error("out of memory")]
    OutOfMemory,
}

fn fault_of(place: u64, refusal: Refusal) -> SessionFault
    ensures { result ≡ fault_by place refusal }
{
    match refusal {
        Refusal::Order => SessionFault::BadPdu(place, PduKind::Order),
        Refusal::TooLong(length) => SessionFault::TooLong(length),
        Refusal::OutOfMemory => SessionFault::OutOfMemory,
    }
}

/// Takes the PDU that stands some bytes ahead: `None` where none is whole, and else the item that
/// it gives, if it gives one.
fn take_pdu(
    alloc: Global,
    spare: &mut SpareBytes,
    state: &mut State,
    stream: &Stream,
    ahead: &mut usize,
) -> Result<Option<Option<Incoming>>, SessionFault>
    requires { ahead.old ≤ length stream.now.rest }
    ensures within { ahead.new ≤ length stream.now.rest }
    ensures comes { StepComes (ahead_by state.old stream.now ahead.old)
        (ahead_by state.new stream.now ahead.new) result }
    ensures room { FitsSize state.old.terms → FitsSize state.new.terms }
    ensures transmit { IfOk result (λ taken. IfSome taken (IsFor state.new.terms)) }
    ensures kept { IfSome state.old.terms (λ terms. state.new.terms ≡ Some terms) }
    ensures further { IfOk result (λ taken. IfSome taken (λ _. ahead.old < ahead.new)) }
    ensures no_less { ahead.old ≤ ahead.new }
    ensures stuck { IfErr result (IsStuck (ahead_by state.new stream.now ahead.new)) }
    ensures again { TellsAgain (ahead_by state.old stream.now ahead.old)
        (ahead_by state.new stream.now ahead.new) result }
    ensures joins { StepJoins state.old state.new result }
{
    let (pdu, used) = match read_pdu(stream.ahead(*ahead)) {
        PduRead::Whole(pdu, used) => (pdu, used),
        PduRead::Short(_) => return Ok(None),
        PduRead::Bad(kind) => return Err(SessionFault::BadPdu(stream.place(*ahead), kind)),
    };
    match state.take(alloc, spare, &pdu) {
        Ok(item) => {
            *ahead += used;
            Ok(Some(item))
        }
        Err(refusal) => Err(fault_of(stream.place(*ahead), refusal)),
    }
}

/// Takes PDUs that stand ahead, up to the next item.
fn find_item(
    alloc: Global,
    spare: &mut SpareBytes,
    state: &mut State,
    stream: &Stream,
    ahead: &mut usize,
) -> Result<Option<Incoming>, SessionFault>
    requires { ahead.old ≤ length stream.now.rest }
    ensures within { ahead.new ≤ length stream.now.rest }
    ensures comes { Comes (ahead_by state.old stream.now ahead.old)
        (ahead_by state.new stream.now ahead.new) result }
    ensures room { FitsSize state.old.terms → FitsSize state.new.terms }
    ensures transmit { IfOk result (IsFor state.new.terms) }
    ensures kept { IfSome state.old.terms (λ terms. state.new.terms ≡ Some terms) }
    ensures further { IfOk result (λ item. IfSome item (λ _. ahead.old < ahead.new)) }
    ensures stuck { IfErr result (IsStuck (ahead_by state.new stream.now ahead.new)) }
    ensures again { TellsAgain (ahead_by state.old stream.now ahead.old)
        (ahead_by state.new stream.now ahead.new) result }
    ensures joined { OnWant result (HasJoined state.old state.new) }
{
    loop {
        match take_pdu(alloc, spare, state, stream, ahead) {
            Ok(None) => return Ok(None),
            Ok(Some(Some(item))) => return Ok(Some(item)),
            Ok(Some(None)) => {}
            Err(fault) => return Err(fault),
        }
    }
}

/// Takes PDUs up to the next item. Where there is no memory for one of them, those before it are
/// given back.
fn next_item(
    alloc: Global,
    spare: &mut SpareBytes,
    state: &mut State,
    stream: &mut Stream,
) -> Result<Option<Incoming>, SessionFault>
    ensures comes { Comes (record { state = state.old; held = stream.old })
        (record { state = state.new; held = stream.new }) result }
    ensures room { FitsSize state.old.terms → FitsSize state.new.terms }
    ensures transmit { IfOk result (IsFor state.new.terms) }
    ensures kept { IfSome state.old.terms (λ terms. state.new.terms ≡ Some terms) }
    ensures shorter { IfOk result (λ item. IfSome item
        (λ _. length stream.new.rest < length stream.old.rest)) }
    ensures no_longer { length stream.new.rest ≤ length stream.old.rest }
    ensures stuck { IfErr result (IsStuck (record { state = state.new; held = stream.new })) }
    ensures again { TellsAgain (record { state = state.old; held = stream.old })
        (record { state = state.new; held = stream.new }) result }
    ensures state { OnWant result (state.new ≡ state.old) }
    ensures stream { OnWant result (stream.new ≡ stream.old) }
{
    let joined = state.joined();
    let mut ahead = 0;
    match find_item(alloc, spare, state, stream, &mut ahead) {
        Ok(item) => {
            stream.pass(ahead);
            Ok(item)
        }
        Err(SessionFault::OutOfMemory) => {
            state.give_back(joined);
            Err(SessionFault::OutOfMemory)
        }
        Err(SessionFault::BadPdu(place, kind)) => {
            stream.pass(ahead);
            Err(SessionFault::BadPdu(place, kind))
        }
        Err(SessionFault::TooLong(length)) => {
            stream.pass(ahead);
            Err(SessionFault::TooLong(length))
        }
    }
}

/// The server's end of a connection: its stream so far, less the items that were given.
#[derive(Drop)]
pub struct Session {
    state: State,
    stream: Stream,
    /// The memory of an item that was answered.
    spare: SpareBytes,
}

impl Model for Session {
    ghost use Rattle.rpc_session.specs.Items.{Seen};
    ghost use Rattle.rpc_session.specs.contracts.known.Known as known;
    ghost use Rattle.std.specs.Coded.{codes};

    ghost Value = { Seen };

    ghost coded = { Prim.hlevel (codes, known.the_row.coded) };

    ghost view = { λ s. record { state = s.state; held = s.stream } };

    ghost use Rattle.rpc_session.specs.Replies.{FitsSize};

    ghost invariant = { λ s. FitsSize s.state.terms };
}

impl Session {
    /// An unbound session. It takes no memory.
    pub fn new(alloc: Global) -> Self
        ensures value { result ≡ record {
          state = unbound;
          held = record { place = 0; rest = [] };
        } }
        // Nothing was fed, and nothing given.
        ensures gave { Gave [] [] result }
    {
        Session {
            state: State {
                terms: None,
                known: Known::new(alloc),
                unfinished: None,
            },
            stream: Stream::new(alloc),
            spare: SpareBytes::new(alloc),
        }
    }

    /// Appends a piece to the stream. An `Err` leaves the session as it was. A stream that would be
    /// longer than a `u64` can say results in `OutOfMemory` too.
    pub fn feed(&mut self, piece: &[u8]) -> Result<(), OutOfMemory>
        ensures ok { OnOk result (self.new ≡ record {
          state = self.old.state;
          held = with_more self.old.held piece.now;
        }) }
        ensures err { OnErr result (self.new ≡ self.old) }
        ensures gave { OnOk result ((stream : List ℕ) (given : List Incoming)
            → Gave stream given self.old → Gave (stream ++ piece.now) given self.new) }
        // A fault that `next` returned stays, whatever bytes follow.
        ensures stuck { (fault : SessionFault) → IsStuck self.old fault → IsStuck self.new fault }
    {
        self.stream.feed(piece)
    }

    /// The next item of the stream.
    pub fn next(&mut self, alloc: Global) -> Result<Option<Incoming>, SessionFault>
        ensures comes { Comes self.old self.new result }
        // The items that were given are a prefix of the stream's.
        ensures gave { (stream : List ℕ) (given : List Incoming) → Gave stream given self.old
            → Gave stream (given ++ given_by result) self.new }
        // None comes where no further item is whole and the end is open, and `at_rest` then tells
        // which it is. A fault comes where the items end with it, whatever follows.
        ensures says { (stream : List ℕ) (given : List Incoming) → Gave stream given self.old
            → Says stream given self.new result }
        // A request comes of a bound session, and is answered by the transmit size that it tells.
        ensures transmit { IfOk result (IsFor self.new.state.terms) }
        // What a bind_ack settled stays.
        ensures kept { IfSome self.old.state.terms (λ terms. self.new.state.terms ≡ Some terms) }
        // An item takes bytes of those that are held.
        ensures shorter { IfOk result (λ item. IfSome item
            (λ _. length self.new.held.rest < length self.old.held.rest)) }
        ensures no_longer { length self.new.held.rest ≤ length self.old.held.rest }
        // Each later call returns a fault again, unless it was `OutOfMemory`.
        ensures stuck { IfErr result (IsStuck self.new) }
        ensures again { TellsAgain self.old self.new result }
        // Where there is no memory for the item, or for a fragment before it, the session is as it
        // was.
        ensures unchanged { OnWant result (self.new ≡ self.old) }
    {
        next_item(alloc, &mut self.spare, &mut self.state, &mut self.stream)
    }

    /// Takes an item back after its answer. Its memory serves the next item, if it is at most
    /// `KEPT_BYTES`, and is freed otherwise.
    pub fn recycle(&mut self, item: Incoming)
        ensures { self.new ≡ self.old }
    {
        let bytes = match item {
            Incoming::Local(bytes) => bytes,
            Incoming::Request(request) => request.body,
        };
        self.spare.keep(bytes.into_vec());
    }

    /// Whether the session holds no part of a PDU and no unfinished request.
    pub fn at_rest(&self) -> bool
        ensures { result ≡ is_at_rest self.now }
    {
        self.stream.rest().is_empty() && self.state.unfinished.is_none()
    }

    /// Writes one fault.
    pub fn fault<T: Sink>(
        &self,
        call: u32,
        context: u16,
        status: u32,
        sink: &mut T,
    ) -> Result<(), Failed>
        ensures written { Writes (T.held sink.old) (T.held sink.new) result
            (fault_bytes (record { call = call; hint = 0; context = context; status = status })) }
        ensures cause { HasCause (T.faults sink.old) (T.faults sink.new) result }
    {
        write_fault(sink, call, context, status)
    }

    /// Writes a body as the response fragments of a call.
    #[inline(always)]
    pub fn reply<T: Sink>(
        &self,
        call: u32,
        context: u16,
        body: &[u8],
        sink: &mut T,
    ) -> Result<(), Failed>
        requires bound { IsSome self.now.state.terms }
        requires size { length body.now < 2 ^ 32 }
        ensures written { IfSome self.now.state.terms
            (λ terms. Writes (T.held sink.old) (T.held sink.new) result
            (reply_fragments terms.transmit call context body.now)) }
        ensures cause { HasCause (T.faults sink.old) (T.faults sink.new) result }
    {
        match self.state.terms {
            Some(terms) => write_reply(sink, terms.transmit, call, context, body),
            None => Ok(()),
        }
    }
}
