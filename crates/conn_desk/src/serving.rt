ghost use Rattle.std.specs.Prelude.{◌≡◌, Err, IfErr, IfOk, IfSome, None, Ok, Result, ◌≤◌, ◌++◌};
ghost use Rattle.std.specs.Prelude.{IsTrue, Some, length};
ghost use Rattle.ndr_body.specs.Reading.{Fails};
ghost use Rattle.ndr_body.specs.declared.fault.BodyFault.{BodyFault as Fault};
ghost use Rattle.ndr_body.specs.declared.fault.BodyFault.TheVariants as faults;
ghost use Rattle.scm_model.specs.declared.calls.Request.{Request};
ghost use Rattle.rpc_session.specs.declared.contexts.Interface.TheVariants.{Trigger, Svcctl};
ghost use Rattle.conn_desk.specs.declared.asked.DecodedRequest.TheVariants.{Call, Raise};
ghost use Rattle.conn_desk.specs.Bodies.{asked_of, or_fault};
ghost use Rattle.scm_bodies.specs.Replies.{reply_bytes as body_of};
ghost use Rattle.scm_model.specs.Ranges.{in_range};
ghost use Rattle.scm_model.specs.declared.calls.Reply.TheVariants.{Code};
ghost use Rattle.scm_calls.specs.declared.raises.TheConstants.{RAISE_REPLY_BYTES};
ghost use Rattle.conn_desk.specs.Along.{Answered, HasStopCause, Replied, stop_at, write_stopped};
ghost use Rattle.conn_desk.specs.Along.{FedOn, stop_of};
ghost use Rattle.conn_desk.specs.Desks.{Unanswered};
ghost use Rattle.rpc_session.specs.Moves.{IsFor};
ghost use Rattle.rpc_session.specs.declared.state.Incoming.TheVariants as items;
ghost use Rattle.conn_desk.specs.Serves.{fed, Serves, served_as};
ghost use Rattle.feed_loop.specs.declared.fed.ReadEnd.{ReadEnd};
ghost use Rattle.conn_desk.specs.Connection.{IsServedFor};

use super::desk::{HandlerError, RequestHandler};
use super::reply_buffer::ReplyBuffer;
use super::served::Served;
use feed_loop::{ByteConsumer, ReadEnd, feed_all};
use ndr_body::BodyFault;
use outside::{Failed, Sink, Source, write_all};
use rpc_pdu::PduKind;
use rpc_session::{Incoming, Interface, RequestItem, Session, SessionFault};
use scm_bodies::{call_at, read_request, reply_bound, write_reply};
use scm_calls::{RAISE, RAISE_REPLY_BYTES, read_raise, write_raise_reply};
use scm_model::{Answer, Reply, Request};
use scm_text::Buffer;
use std::alloc::Global;

/// Why a connection isn't served on, although bytes are there.
#[derive(Clone, Copy)]
pub enum Stop {
    /// The PDU at this place of the stream is bad.
    Bad(u64, PduKind),
    /// A request's stub would have this length.
    TooLong(u64),
    /// The sink failed.
    WriteFault,
    /// The desk has no room for the next request.
    Full,
    /// There is no memory for what comes next.
    OutOfMemory,
}

/// nca_op_rng_error of C706: the call isn't served.
pub const OP_RANGE: u32 = 0x1C01_0002;

/// nca_s_fault_ndr of MS-RPCE: the body can't be read.
const BAD_BODY: u32 = 0x6F7;

/// The status of the fault that is answered to a call whose body can't be read; none where memory
/// ran out.
pub fn status_of(fault: BodyFault) -> Option<u32>
    ensures status { IfSome result (λ status. (read : Result Request Fault) → Fails fault read
        → or_fault Call read ≡ Err status) }
    ensures none { result ≡ None → fault ≡ faults.OutOfMemory }
{
    match fault {
        BodyFault::OutOfMemory => None,
        BodyFault::Short(_)
        | BodyFault::BadString(_)
        | BodyFault::BadCount(_)
        | BodyFault::Trailing(_) => Some(BAD_BODY),
    }
}

/// The subtype that a request of the trigger interface raises, or the status of the fault that is
/// answered.
#[tactic(auto, unfolding(crate::specs::Bodies::asked_in))]
pub fn subtype_of(item: &RequestItem) -> Result<[u8; 16], u32>
    requires { item.now.interface ≡ Trigger }
    ensures ok { IfOk result (λ subtype. asked_of item.now ≡ Ok (Raise subtype)) }
    ensures err { IfErr result (λ status. asked_of item.now ≡ Err status) }
{
    if item.opnum != RAISE {
        return Err(OP_RANGE);
    }
    match read_raise(item.body.as_slice()) {
        Ok(subtype) => Ok(subtype),
        Err(_) => Err(BAD_BODY),
    }
}

/// Why writing stopped.
fn stopped(written: Result<(), Failed>) -> Result<(), Stop>
    ensures { result ≡ write_stopped written }
{
    match written {
        Ok(()) => Ok(()),
        Err(Failed) => Err(Stop::WriteFault),
    }
}

/// Why a request without an answer stops the serving.
fn stop_at(lacks: HandlerError) -> Stop
    ensures { result ≡ stop_at lacks }
{
    match lacks {
        HandlerError::Full => Stop::Full,
        HandlerError::OutOfMemory => Stop::OutOfMemory,
    }
}

/// The body of a reply, for which there is room.
fn written(reply: &Reply, out: Buffer<u8>) -> Buffer<u8>
    requires { length (body_of reply.now) ≤ out.room }
    ensures { result.items ≡ out.items ++ body_of reply.now }
{
    match write_reply(reply, out) {
        Ok(body) => body,
        Err((_, out)) => out,
    }
}

/// Makes a call, and the body of its reply. There is room for the body before the call is made.
fn replied<D: RequestHandler>(
    alloc: Global,
    desk: &mut D,
    replies: &mut ReplyBuffer,
    request: Request,
) -> Result<Buffer<u8>, HandlerError>
    requires ready { D.ready desk.old }
    requires ranged { IsTrue (in_range request) }
    ensures ready { D.ready desk.new }
    ensures ok { IfOk result (λ body.
        Replied D.called desk.old desk.new (Call request) body.items) }
    ensures err { IfErr result (Unanswered D.rests D.full desk.old desk.new (Call request)) }
{
    let Ok(out) = replies.take(alloc, reply_bound(&request) as usize) else {
        drop(request);
        return Err(HandlerError::OutOfMemory);
    };
    let mut told = Answer::Done;
    match desk.call(request, &mut told) {
        Ok(()) => {
            let Answer::Reply(reply) = &told else {
                unreachable!()
            };
            let body = written(reply, out);
            drop(told);
            Ok(body)
        }
        Err(lacks) => {
            drop(told);
            drop(out);
            Err(lacks)
        }
    }
}

/// The body of a code that a raise is answered, for which there is room.
fn written_code(code: u32, out: Buffer<u8>) -> Buffer<u8>
    requires { RAISE_REPLY_BYTES ≤ out.room }
    ensures { result.items ≡ out.items ++ body_of (Code code) }
{
    match write_raise_reply(code, out) {
        Ok(body) => body,
        Err((_, out)) => out,
    }
}

/// Raises a subtype, and makes the body of the code that is answered. There is room for the body
/// before.
fn raised<D: RequestHandler>(
    alloc: Global,
    desk: &mut D,
    replies: &mut ReplyBuffer,
    subtype: [u8; 16],
) -> Result<Buffer<u8>, HandlerError>
    requires { D.ready desk.old }
    ensures ready { D.ready desk.new }
    ensures ok { IfOk result (λ body.
        Replied D.called desk.old desk.new (Raise subtype) body.items) }
    ensures err { IfErr result (Unanswered D.rests D.full desk.old desk.new (Raise subtype)) }
{
    let out = replies.take(alloc, RAISE_REPLY_BYTES)?;
    let code = desk.raise(subtype)?;
    Ok(written_code(code, out))
}

/// Answers a call of svcctl.
fn answer_call<D: RequestHandler, O: Sink>(
    alloc: Global,
    desk: &mut D,
    replies: &mut ReplyBuffer,
    session: &Session,
    item: &RequestItem,
    output: &mut O,
) -> Result<(), Stop>
    requires ready { D.ready desk.old }
    requires svcctl { item.now.interface ≡ Svcctl }
    requires bound { IsFor session.now.state.terms (Some (items.Request item.now)) }
    ensures ready { D.ready desk.new }
    ensures answered { Answered D.called D.rests D.full desk.old desk.new
        (O.held output.old) (O.held output.new) (items.Request item.now) result }
    ensures cause { HasStopCause (O.faults output.old) (O.faults output.new) result }
{
    let Some(call) = call_at(item.opnum) else {
        return stopped(session.fault(item.call, item.context, OP_RANGE, output));
    };
    match read_request(alloc, call, item.body.as_slice()) {
        Ok(request) => match replied(alloc, desk, replies, request) {
            Ok(body) => {
                let sent = session.reply(item.call, item.context, body.as_slice(), output);
                replies.keep(body);
                stopped(sent)
            }
            Err(lacks) => Err(stop_at(lacks)),
        },
        Err(fault) => match status_of(fault) {
            Some(status) => stopped(session.fault(item.call, item.context, status, output)),
            None => Err(Stop::OutOfMemory),
        },
    }
}

/// Answers a request of the trigger interface.
fn answer_raise<D: RequestHandler, O: Sink>(
    alloc: Global,
    desk: &mut D,
    replies: &mut ReplyBuffer,
    session: &Session,
    item: &RequestItem,
    output: &mut O,
) -> Result<(), Stop>
    requires ready { D.ready desk.old }
    requires trigger { item.now.interface ≡ Trigger }
    requires bound { IsFor session.now.state.terms (Some (items.Request item.now)) }
    ensures ready { D.ready desk.new }
    ensures answered { Answered D.called D.rests D.full desk.old desk.new
        (O.held output.old) (O.held output.new) (items.Request item.now) result }
    ensures cause { HasStopCause (O.faults output.old) (O.faults output.new) result }
{
    match subtype_of(item) {
        Ok(subtype) => match raised(alloc, desk, replies, subtype) {
            Ok(body) => {
                let sent = session.reply(item.call, item.context, body.as_slice(), output);
                replies.keep(body);
                stopped(sent)
            }
            Err(lacks) => Err(stop_at(lacks)),
        },
        Err(status) => stopped(session.fault(item.call, item.context, status, output)),
    }
}

/// Answers a request.
fn answer_request<D: RequestHandler, O: Sink>(
    alloc: Global,
    desk: &mut D,
    replies: &mut ReplyBuffer,
    session: &Session,
    item: &RequestItem,
    output: &mut O,
) -> Result<(), Stop>
    requires ready { D.ready desk.old }
    requires bound { IsFor session.now.state.terms (Some (items.Request item.now)) }
    ensures ready { D.ready desk.new }
    ensures answered { Answered D.called D.rests D.full desk.old desk.new
        (O.held output.old) (O.held output.new) (items.Request item.now) result }
    ensures cause { HasStopCause (O.faults output.old) (O.faults output.new) result }
{
    match item.interface {
        Interface::Svcctl => answer_call(alloc, desk, replies, session, item, output),
        Interface::Trigger => answer_raise(alloc, desk, replies, session, item, output),
    }
}

/// Answers an item.
pub fn answer<D: RequestHandler, O: Sink>(
    alloc: Global,
    desk: &mut D,
    replies: &mut ReplyBuffer,
    session: &Session,
    item: &Incoming,
    output: &mut O,
) -> Result<(), Stop>
    requires ready { D.ready desk.old }
    requires bound { IsFor session.now.state.terms (Some item.now) }
    ensures ready { D.ready desk.new }
    ensures answered { Answered D.called D.rests D.full desk.old desk.new
        (O.held output.old) (O.held output.new) item.now result }
    ensures cause { HasStopCause (O.faults output.old) (O.faults output.new) result }
{
    match item {
        Incoming::Local(bytes) => stopped(write_all(output, bytes.as_slice())),
        Incoming::Request(request) => {
            answer_request(alloc, desk, replies, session, request, output)
        }
    }
}

/// Why a session's fault stops the serving.
fn stop_of(fault: SessionFault) -> Stop
    ensures { result ≡ stop_of fault }
{
    match fault {
        SessionFault::BadPdu(place, kind) => Stop::Bad(place, kind),
        SessionFault::TooLong(length) => Stop::TooLong(length),
        SessionFault::OutOfMemory => Stop::OutOfMemory,
    }
}

/// Answers the items that are whole.
fn drain<D: RequestHandler, O: Sink>(
    alloc: Global,
    desk: &mut D,
    replies: &mut ReplyBuffer,
    session: &mut Session,
    output: &mut O,
) -> Result<(), Stop>
    requires { D.ready desk.old }
    ensures ready { D.ready desk.new }
    ensures fed { FedOn D.called D.rests D.full (λ stream. stream)
        (record { session = session.old; desk = desk.old; held = O.held output.old })
        (record { session = session.new; desk = desk.new; held = O.held output.new })
        result }
    ensures cause { HasStopCause (O.faults output.old) (O.faults output.new) result }
{
    loop {
        match session.next(alloc) {
            Ok(None) => return Ok(()),
            Ok(Some(item)) => match answer(alloc, desk, replies, session, &item, output) {
                Ok(()) => session.recycle(item),
                Err(stop) => {
                    drop(item);
                    return Err(stop);
                }
            },
            Err(fault) => return Err(stop_of(fault)),
        }
    }
}

/// Takes a piece, and answers the items that it makes whole.
pub fn feed<D: RequestHandler, O: Sink>(
    alloc: Global,
    desk: &mut D,
    replies: &mut ReplyBuffer,
    session: &mut Session,
    piece: &[u8],
    output: &mut O,
) -> Result<(), Stop>
    requires { D.ready desk.old }
    ensures ready { D.ready desk.new }
    ensures fed { FedOn D.called D.rests D.full (fed piece.now)
        (record { session = session.old; desk = desk.old; held = O.held output.old })
        (record { session = session.new; desk = desk.new; held = O.held output.new })
        result }
    ensures cause { HasStopCause (O.faults output.old) (O.faults output.new) result }
{
    match session.feed(piece) {
        Ok(()) => drain(alloc, desk, replies, session, output),
        Err(_) => Err(Stop::OutOfMemory),
    }
}

/// Takes the pieces of a connection, and answers the items that they make whole, at a desk.
pub struct ConnectionReader {
    pub alloc: Global,
    pub session: Session,
    pub replies: ReplyBuffer,
}

/// A drop of its own: a function that owns one drops it by a call, which is proved once.
impl Drop for ConnectionReader {
    fn drop(self) {
        let ConnectionReader {
            alloc: _alloc,
            session,
            replies,
        } = self;
        drop(session);
        drop(replies);
    }
}

impl<D: RequestHandler, O: Sink> ByteConsumer<D, O> for ConnectionReader {
    ghost use Rattle.conn_desk.specs.Along.{point_of};
    ghost use Rattle.conn_desk.specs.Serves.{Eaten, Stopped};

    type Stop = Stop;

    ghost ready = { λ a most. D.ready a.place };

    ghost eats = { λ a b piece. Eaten D.called (point_of O.held a) (point_of O.held b)
        (O.faults a.output) (O.faults b.output) piece };

    ghost stops = { λ a b piece why. Stopped D.called D.rests D.full (point_of O.held a)
        (point_of O.held b) (O.faults a.output) (O.faults b.output) piece why };

    fn consume(&mut self, desk: &mut D, output: &mut O, piece: &[u8]) -> Result<(), Stop> {
        feed(
            self.alloc,
            desk,
            &mut self.replies,
            &mut self.session,
            piece,
            output,
        )
    }
}

/// How a connection ends whose feeding ended so, where its session is at rest or isn't.
fn served_as(fed: ReadEnd<Stop>, at_rest: bool) -> Served
    ensures { result ≡ served_as fed at_rest }
{
    match fed {
        ReadEnd::Ended if at_rest => Served::Ended,
        ReadEnd::Ended => Served::Truncated,
        ReadEnd::ReadFault => Served::ReadFault,
        ReadEnd::Worn => Served::Worn,
        ReadEnd::Stopped(Stop::Bad(place, kind)) => Served::BadPdu(place, kind),
        ReadEnd::Stopped(Stop::TooLong(length)) => Served::TooLong(length),
        ReadEnd::Stopped(Stop::WriteFault) => Served::WriteFault,
        ReadEnd::Stopped(Stop::Full) => Served::Full,
        ReadEnd::Stopped(Stop::OutOfMemory) => Served::OutOfMemory,
    }
}

/// Serves a connection at a desk until it ends. Each item is answered before the next read.
pub fn serve<D: RequestHandler, I: Source, O: Sink>(
    alloc: Global,
    desk: &mut D,
    input: &mut I,
    output: &mut O,
) -> Served
    requires { D.ready desk.old }
    ensures ready { D.ready desk.new }
    ensures served { Serves D.called D.rests D.full desk.old desk.new
        (I.left input.old) (I.left input.new) (O.held output.old) (O.held output.new) result }
    ensures input { I.faults input.old ≤ I.faults input.new }
    ensures output { O.faults output.old ≤ O.faults output.new }
    ensures cause { IsServedFor result (I.faults input.old) (I.faults input.new)
        (O.faults output.old) (O.faults output.new) }
{
    let mut talker = ConnectionReader {
        alloc,
        session: Session::new(alloc),
        replies: ReplyBuffer::new(),
    };
    let mut read = 0u64;
    let fed = feed_all(&mut talker, desk, output, input, &mut read);
    served_as(fed, talker.session.at_rest())
}
