ghost use Rattle.std.specs.Prelude.{◌≡◌, ℕ, List, IsTrue, Ok, IfOk, ◌≤◌, ◌++◌, IfErr, IsOk, length};
ghost use Rattle.scm_bodies.specs.Calls.{call_at, to_call, reply_kind};
ghost use Rattle.ndr_body.specs.Reading.{FindsMemory, Gives};
ghost use Rattle.scm_shapes.specs.HandleBodies.{handle_body_values, is_handle_body};
ghost use Rattle.scm_shapes.specs.Plain.{ArePlain};
ghost use Rattle.scm_shapes.specs.Written.{IsWritten};
ghost use Rattle.scm_model.specs.declared.calls.Request.{Request as ARequest};
ghost use Rattle.scm_model.specs.Ranges.{in_range};
ghost use Rattle.scm_bodies.specs.declared.bodies.Call.{Call as ACall};
ghost use Rattle.scm_bodies.specs.Requests.{shape_of, request_from, values_of, request_at};
ghost use Rattle.scm_bodies.specs.Requests.{IsRequest, request_bytes, AreCarried};
ghost use Rattle.std.specs.List.{AllByRecursion};
ghost use Rattle.scm_shapes.specs.Laws.{IsEncodable};
ghost use Rattle.scm_model.specs.declared.calls.Reply.{Reply as AReply};
ghost use Rattle.scm_calls.specs.Replies.{reply_shape, reply_values, kind_of};
ghost use Rattle.scm_bodies.specs.Replies.{reply_told, reply_at, IsBodyOf, Answers, read_back};
ghost use Rattle.scm_bodies.specs.Replies.{reply_bound, reply_bytes};

use ndr_body::BodyFault;
use scm_calls::{ReplyKind, asked_size, longest, put_reply, reply_of, reply_shape};
use scm_model::{Reply, Request};
use scm_shapes::{
    HandleBody, Item, Values, is_handle_body, read_body, read_body_into, read_handle_body,
};
use scm_text::{Buffer, Items, OutOfMemory};
use std::alloc::Global;

/// A call that is served, by the crate that has its bodies.
#[derive(Clone, Copy, Debug, PartialEq, Eq)]
pub enum Call {
    Plain(scm_calls::Call),
    Config(scm_calls_cfg::Call),
    Enum(scm_calls_enum::Call),
    Security(scm_calls_sec::Call),
}

/// The call of an opnum, if it is served.
#[inline(always)]
pub fn call_at(opnum: u16) -> Option<Call>
    ensures { result ≡ call_at opnum }
{
    if let Some(call) = scm_calls::call_at(opnum) {
        return Some(Call::Plain(call));
    }
    if let Some(call) = scm_calls_cfg::call_at(opnum) {
        return Some(Call::Config(call));
    }
    if let Some(call) = scm_calls_enum::call_at(opnum) {
        return Some(Call::Enum(call));
    }
    let call = scm_calls_sec::call_at(opnum)?;
    Some(Call::Security(call))
}

/// The call of a request.
pub fn call_of(request: &Request) -> Option<Call>
    ensures { result ≡ to_call request.now }
{
    if let Some(call) = scm_calls::call_of(request) {
        return Some(Call::Plain(call));
    }
    if let Some(call) = scm_calls_cfg::call_of(request) {
        return Some(Call::Config(call));
    }
    if let Some(call) = scm_calls_enum::call_of(request) {
        return Some(Call::Enum(call));
    }
    let call = scm_calls_sec::call_of(request)?;
    Some(Call::Security(call))
}

/// The kind of a call's replies.
pub fn reply_kind(call: Call) -> ReplyKind
    ensures { result ≡ reply_kind call }
{
    match call {
        Call::Plain(call) => scm_calls::reply_kind(call),
        Call::Config(call) => scm_calls_cfg::reply_kind(call),
        Call::Enum(call) => scm_calls_enum::reply_kind(call),
        Call::Security(call) => scm_calls_sec::reply_kind(call),
    }
}

fn shape_of(call: Call) -> &'static [Item]
    ensures { result.now ≡ shape_of call }
{
    match call {
        Call::Plain(call) => scm_calls::request_shape(call),
        Call::Config(call) => scm_calls_cfg::request_shape(call),
        Call::Enum(call) => scm_calls_enum::request_shape(call),
        Call::Security(call) => scm_calls_sec::request_shape(call),
    }
}

fn asked_by(alloc: Global, call: Call, values: &mut Values) -> Result<Request, OutOfMemory>
    ensures value { IfOk result (λ request. request ≡ request_from call values.old) }
    ensures memory { ArePlain (shape_of call) → IsOk result }
{
    match call {
        Call::Plain(call) => Ok(scm_calls::request_of(alloc, call, values)),
        Call::Config(call) => scm_calls_cfg::request_of(alloc, call, values),
        Call::Enum(call) => Ok(scm_calls_enum::request_of(call, values)),
        Call::Security(call) => Ok(scm_calls_sec::request_of(alloc, call, values)),
    }
}

fn asked_by_handle_body(call: Call, body: HandleBody) -> Request
    requires { IsTrue (is_handle_body (shape_of call)) }
    ensures { result ≡ request_from call (handle_body_values body) }
{
    match call {
        Call::Plain(call) => scm_calls::request_of_handle_body(call, body),
        Call::Config(call) => scm_calls_cfg::request_of_handle_body(call, body),
        Call::Enum(call) => scm_calls_enum::request_of_handle_body(call, body),
        Call::Security(call) => scm_calls_sec::request_of_handle_body(call, body),
    }
}

/// What a body asks that is a handle and at most two numbers.
fn read_as_handle_body(call: Call, body: &[u8]) -> Result<Request, BodyFault>
    requires { IsTrue (is_handle_body (shape_of call)) }
    ensures exact { Gives (λ r. r) result (request_at call body.now) }
    ensures memory { FindsMemory result }
{
    let held = read_handle_body(shape_of(call), body)?;
    Ok(asked_by_handle_body(call, held))
}

/// What a body asks, by way of values: what lies in them before plays no part.
fn read_by_values(
    alloc: Global,
    call: Call,
    body: &[u8],
    values: &mut Values,
) -> Result<Request, BodyFault>
    ensures exact { Gives (λ r. r) result (request_at call body.now) }
    ensures memory { ArePlain (shape_of call) → FindsMemory result }
{
    values.clear();
    read_body_into(alloc, shape_of(call), body, values)?;
    Ok(asked_by(alloc, call, values)?)
}

/// The result of `read_request`, with values that serve body after body: none are made or dropped
/// for each body. What they hold before and after a call plays no part.
pub fn read_request_by(
    alloc: Global,
    call: Call,
    body: &[u8],
    values: &mut Values,
) -> Result<Request, BodyFault>
    ensures exact { Gives (λ r. r) result (request_at call body.now) }
    ensures memory { ArePlain (shape_of call) → FindsMemory result }
{
    if is_handle_body(shape_of(call)) {
        read_as_handle_body(call, body)
    } else {
        read_by_values(alloc, call, body, values)
    }
}

/// What a body asks, by way of values that are made for it.
fn read_anew(alloc: Global, call: Call, body: &[u8]) -> Result<Request, BodyFault>
    ensures exact { Gives (λ r. r) result (request_at call body.now) }
    ensures memory { ArePlain (shape_of call) → FindsMemory result }
{
    let mut values = Values::new(alloc);
    read_by_values(alloc, call, body, &mut values)
}

fn read(alloc: Global, call: Call, body: &[u8]) -> Result<Request, BodyFault>
    ensures exact { Gives (λ r. r) result (request_at call body.now) }
    ensures memory { ArePlain (shape_of call) → FindsMemory result }
{
    if is_handle_body(shape_of(call)) {
        read_as_handle_body(call, body)
    } else {
        read_anew(alloc, call, body)
    }
}

/// What the body of a request asks.
pub fn read_request(alloc: Global, call: Call, body: &[u8]) -> Result<Request, BodyFault>
    // What is read is asked by the body, whatever its padding and its referents are.
    ensures found { IfOk result (λ r. IsRequest call body.now r) }
    // What the body asks is read, unless memory runs out.
    ensures only { (r : ARequest) → IsRequest call body.now r → Gives (λ s. s) result (Ok r) }
    // No size in it is beyond its range.
    ensures ranged { IfOk result (λ r. IsTrue (in_range r)) }
    // Nor is a part of it too long for a body.
    ensures carried { IfOk result AreCarried }
    // No memory is taken for a handle and numbers.
    ensures memory { ArePlain (shape_of call) → FindsMemory result }
    // Which fault it is.
    ensures exact { Gives (λ r. r) result (request_at call body.now) }
{
    read(alloc, call, body)
}

/// Writes the body of a request after what the buffer holds. If memory runs out, the buffer is
/// given back as it was.
fn put_request(request: &Request, out: Buffer<u8>) -> Result<Buffer<u8>, (OutOfMemory, Buffer<u8>)>
    ensures { IsWritten (values_of request.now) out result }
{
    match call_of(request) {
        Some(Call::Plain(_)) => scm_calls::put_request(request, out),
        Some(Call::Config(_)) => scm_calls_cfg::put_request(request, out),
        Some(Call::Enum(_)) => scm_calls_enum::put_request(request, out),
        Some(Call::Security(_)) | None => scm_calls_sec::put_request(request, out),
    }
}

fn bytes_of(alloc: Global, request: &Request) -> Result<Items<u8>, OutOfMemory>
    ensures { IfOk result (λ bytes. bytes ≡ request_bytes request.now) }
{
    match put_request(request, Buffer::with_room(alloc, 256)?) {
        Ok(out) => Ok(Items::from_vec(out.into_vec())),
        Err((fault, _)) => Err(fault),
    }
}

/// The body of a request, in the one form that is written.
pub fn write_request(alloc: Global, request: &Request) -> Result<Items<u8>, OutOfMemory>
    ensures form { IfOk result (λ bytes. bytes ≡ request_bytes request.now) }
    // What some body asks is in its ranges, has no part that is too long, and is read back from the
    // one that is written.
    ensures back { (call : ACall) (bytes : List ℕ) → IsRequest call bytes request.now
        → IsTrue (in_range request.now) × AreCarried request.now
        × (request_at call (request_bytes request.now) ≡ Ok request.now) }
    // And such a request is one that a body asks. A text in memory can have more units than a body
    // can count: no body asks for it.
    ensures ranged { IsTrue (in_range request.now) → AreCarried request.now → (call : ACall)
        × (request_at call (request_bytes request.now) ≡ Ok request.now) }
{
    bytes_of(alloc, request)
}

fn read_told(alloc: Global, call: Call, body: &[u8]) -> Result<Reply, BodyFault>
    ensures exact { Gives (λ r. r) result (reply_at call body.now) }
    ensures memory { ArePlain (reply_shape (reply_kind call)) → FindsMemory result }
{
    let kind = reply_kind(call);
    let mut values = read_body(alloc, reply_shape(kind), body)?;
    Ok(reply_of(alloc, kind, &mut values))
}

/// Reads the body of a reply to a call.
pub fn read_reply(alloc: Global, call: Call, body: &[u8]) -> Result<Reply, BodyFault>
    // A reply that is read is the body's, whatever its padding and its referents are.
    ensures found { IfOk result (λ told. IsBodyOf call body.now told) }
    // The body's reply is read, unless memory runs out.
    ensures only { (told : AReply) → IsBodyOf call body.now told → Gives (λ r. r) result (Ok told) }
    // No memory is taken for a handle and numbers.
    ensures memory { ArePlain (reply_shape (reply_kind call)) → FindsMemory result }
    // Which fault it is.
    ensures exact { Gives (λ r. r) result (reply_at call body.now) }
{
    read_told(alloc, call, body)
}

/// Writes the body of a reply after what the buffer holds. If memory runs out, the buffer is given
/// back as it was.
#[inline(always)]
pub fn write_reply(reply: &Reply, out: Buffer<u8>) -> Result<Buffer<u8>, (OutOfMemory, Buffer<u8>)>
    ensures ok { IfOk result (λ written. written.items ≡ out.items ++ reply_bytes reply.now) }
    ensures err { IfErr result (λ failed. failed.1.items ≡ out.items) }
    // It takes no memory where there is room for the body.
    ensures enough { length (reply_bytes reply.now) ≤ out.room → IsOk result }
    // Nor where there is room for every reply that answers a request.
    ensures bounded { (request : ARequest) → Answers request reply.now
        → reply_bound request ≤ out.room → IsOk result }
    // What some body tells is read back from the one that is written.
    ensures back { (call : ACall) (bytes : List ℕ) → IsBodyOf call bytes reply.now
        → reply_at call (reply_bytes reply.now) ≡ Ok reply.now }
    // So is a reply whose parts can stand in a body, but that bytes come with zeros up to their
    // size.
    ensures carried { AllByRecursion IsEncodable (reply_values reply.now)
        → reply_told (kind_of reply.now) (reply_bytes reply.now) ≡ Ok (read_back reply.now) }
{
    put_reply(reply, out)
}

#[tactic(auto, using(crate::proofs::Codecs::has_call))]
fn bound_of(request: &Request) -> u32
    requires { IsTrue (in_range request.now) }
    ensures { result ≡ reply_bound request.now }
{
    let Some(call) = call_of(request) else {
        unreachable!();
    };
    longest(reply_kind(call), asked_size(request))
}

/// The greatest length of the body of a reply that answers a request.
#[inline(always)]
pub fn reply_bound(request: &Request) -> u32
    // What is read is in its ranges. Beyond them no number of 32 bits may be great enough.
    requires { IsTrue (in_range request.now) }
    ensures value { result ≡ reply_bound request.now }
    ensures bound { (told : AReply) → Answers request.now told
        → length (reply_bytes told) ≤ result }
    ensures reached { (told : AReply) × Answers request.now told
        × (length (reply_bytes told) ≡ result) }
{
    bound_of(request)
}
