ghost use Rattle.std.specs.Prelude.{◌≡◌, ◌≤◌, ◌<◌, ◌+◌, ◌^◌, ℕ, List, length, take, drop};
ghost use Rattle.rpc_pdu.specs.Pdu.{seen_response};
ghost use Rattle.rpc_pdu.specs.Written.{response_bytes, fault_bytes};
ghost use Rattle.rpc_session.specs.Replies.{room_of, fragment, reply_fragments};
ghost use Rattle.outside.specs.Causes.{HasCause};
ghost use Rattle.outside.specs.Written.{Writes};

use outside::{Failed, Sink, write_all};
use rpc_pdu::{FaultPdu, ResponsePdu, fault_pdu, response_header};

/// Lays a response at the front of a buffer, and answers its length.
#[tactic(auto, unfolding(rpc_pdu::specs::Written::response_bytes))]
fn lay(buffer: &mut [u8], r: &ResponsePdu<&[u8]>) -> usize
    requires fits { 24 + length r.now.stub.now < 2 ^ 16 }
    requires room { 24 + length r.now.stub.now ≤ length buffer.old }
    ensures bound { result ≤ length buffer.new }
    ensures laid { take result buffer.new ≡ response_bytes (seen_response r.now) }
{
    let size = 24 + r.stub.len();
    buffer[..24].copy_from_slice(&response_header(r));
    buffer[24..size].copy_from_slice(r.stub);
    size
}

/// The next stub, and the rest after it.
fn cut(rest: &[u8], room: usize) -> (&[u8], &[u8])
    ensures bound { length result.0.now ≤ room }
    ensures front { result.0.now ≡ take room rest.now }
    ensures back { result.1.now ≡ drop room rest.now }
{
    if rest.len() <= room {
        (rest, &[])
    } else {
        rest.split_at(room)
    }
}

/// How many stub bytes a fragment has at most.
fn room(transmit: u16) -> usize
    requires { 24 ≤ transmit }
    ensures { result ≡ room_of transmit }
{
    (usize::from(transmit) - 24) / 8 * 8
}

/// Writes a response by a buffer, in one call where the sink takes it at once.
#[inline(always)]
fn write_by<T: Sink>(
    sink: &mut T,
    buffer: &mut [u8],
    response: &ResponsePdu<&[u8]>,
) -> Result<(), Failed>
    requires fits { 24 + length response.now.stub.now < 2 ^ 16 }
    requires room { 24 + length response.now.stub.now ≤ length buffer.old }
    ensures written { Writes (T.held sink.old) (T.held sink.new) result
        (response_bytes (seen_response response.now)) }
    ensures cause { HasCause (T.faults sink.old) (T.faults sink.new) result }
{
    let size = lay(buffer, response);
    write_all(sink, &buffer[..size])
}

/// Writes a response in one call where the sink takes it at once. To make a buffer costs its size,
/// so a short stub has a short one: that of 64 bytes holds each reply without texts.
fn write_response<T: Sink>(sink: &mut T, response: &ResponsePdu<&[u8]>) -> Result<(), Failed>
    requires { 24 + length response.now.stub.now ≤ 5840 }
    ensures written { Writes (T.held sink.old) (T.held sink.new) result
        (response_bytes (seen_response response.now)) }
    ensures cause { HasCause (T.faults sink.old) (T.faults sink.new) result }
{
    match response.stub.len() {
        0..=40 => write_by(sink, &mut [0; 64], response),
        41..=488 => write_by(sink, &mut [0; 512], response),
        _ => write_by(sink, &mut [0; 5840], response),
    }
}

/// Writes the fragment that the rest of a body begins with, in one call where the sink takes it at
/// once.
#[tactic(auto, unfolding(crate::specs::Replies::fragment))]
fn write_fragment<T: Sink>(
    sink: &mut T,
    transmit: u16,
    call: u32,
    context: u16,
    first: bool,
    rest: &[u8],
) -> Result<(), Failed>
    requires low { 1432 ≤ transmit }
    requires high { transmit ≤ 5840 }
    requires size { length rest.now < 2 ^ 32 }
    ensures written { Writes (T.held sink.old) (T.held sink.new) result
        (fragment transmit call context first rest.now) }
    ensures cause { HasCause (T.faults sink.old) (T.faults sink.new) result }
{
    let room = room(transmit);
    let (stub, _) = cut(rest, room);
    let response = ResponsePdu {
        call,
        first,
        last: rest.len() <= room,
        hint: rest.len() as u32,
        context,
        stub,
    };
    write_response(sink, &response)
}

/// Writes a body in response fragments, each in one call where the sink takes it at once.
pub fn write_reply<T: Sink>(
    sink: &mut T,
    transmit: u16,
    call: u32,
    context: u16,
    body: &[u8],
) -> Result<(), Failed>
    requires low { 1432 ≤ transmit }
    requires high { transmit ≤ 5840 }
    requires size { length body.now < 2 ^ 32 }
    ensures written { Writes (T.held sink.old) (T.held sink.new) result
        (reply_fragments transmit call context body.now) }
    ensures cause { HasCause (T.faults sink.old) (T.faults sink.new) result }
{
    let mut rest = body;
    let mut first = true;
    for _ in 0..body.len() {
        if rest.is_empty() {
            break;
        }
        if let Err(fault) = write_fragment(sink, transmit, call, context, first, rest) {
            return Err(fault);
        }
        let (_, after) = cut(rest, room(transmit));
        rest = after;
        first = false;
    }
    Ok(())
}

/// Writes a fault.
pub fn write_fault<T: Sink>(
    sink: &mut T,
    call: u32,
    context: u16,
    status: u32,
) -> Result<(), Failed>
    ensures written { Writes (T.held sink.old) (T.held sink.new) result
        (fault_bytes (record { call = call; hint = 0; context = context; status = status })) }
    ensures cause { HasCause (T.faults sink.old) (T.faults sink.new) result }
{
    let fault = FaultPdu {
        call,
        hint: 0,
        context,
        status,
    };
    write_all(sink, &fault_pdu(&fault))
}
