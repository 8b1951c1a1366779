ghost use Rattle.std.specs.Prelude.{◌≡◌, ◌≤◌, ◌<◌, ◌^◌, ◌++◌, IfOk, OnOk, drop, length, take};
ghost use Rattle.sc_client.specs.Requests.{bind_text, fragmented, request_fragment};
ghost use Rattle.sc_client.specs.Requests.{request_fragments, request_text};

use rpc_pdu::{Bind, Pdu, RequestPdu, write_pdu};
use scm_bodies::write_request;
use scm_model::Request;
use scm_text::{Items, OutOfMemory};
use std::alloc::Global;

/// svcctl, version 2.0 (MS-SCMR 2.1.2).
pub const SVCCTL: [u8; 20] = [
    0x81, 0xbb, 0x7a, 0x36, 0x44, 0x98, 0xf1, 0x35, 0xad, 0x32, 0x98, 0xf0, 0x38, 0x00, 0x10, 0x03,
    2, 0, 0, 0,
];

/// NDR, version 2.0 (C706, chapter 14).
pub const NDR: [u8; 20] = [
    0x04, 0x5d, 0x88, 0x8a, 0xeb, 0x1c, 0xc9, 0x11, 0x9f, 0xe8, 0x08, 0x00, 0x2b, 0x10, 0x48, 0x60,
    2, 0, 0, 0,
];

/// The one context of the bind: number 0, svcctl in NDR.
const CONTEXTS: [u8; 44] = [
    0x00, 0x00, 0x01, 0x00, 0x81, 0xbb, 0x7a, 0x36, 0x44, 0x98, 0xf1, 0x35, 0xad, 0x32, 0x98, 0xf0,
    0x38, 0x00, 0x10, 0x03, 0x02, 0x00, 0x00, 0x00, 0x04, 0x5d, 0x88, 0x8a, 0xeb, 0x1c, 0xc9, 0x11,
    0x9f, 0xe8, 0x08, 0x00, 0x2b, 0x10, 0x48, 0x60, 0x02, 0x00, 0x00, 0x00,
];

/// How many stub bytes a fragment has at most.
const ROOM: usize = 1408;

/// The bytes of the bind.
#[tactic(auto, unfolding(crate::specs::Requests::bind_text))]
pub fn bind_text(alloc: Global) -> Result<Items<u8>, OutOfMemory>
    ensures { IfOk result (λ text. text ≡ bind_text) }
{
    let mut text = Items::new(alloc);
    let bind = Bind {
        call: 1,
        auth: 0,
        transmit: 5840,
        receive: 5840,
        group: 0,
        count: 1,
        contexts: CONTEXTS.as_slice(),
    };
    write_pdu(&Pdu::Bind(bind), &mut text)?;
    Ok(text)
}

/// The front of some bytes in a fragment, and the rest after it.
fn cut(rest: &[u8]) -> (&[u8], &[u8])
    ensures bound { length result.0.now ≤ 1408 }
    ensures front { result.0.now ≡ take 1408 rest.now }
    ensures back { result.1.now ≡ drop 1408 rest.now }
{
    if rest.len() <= ROOM {
        (rest, &[])
    } else {
        rest.split_at(ROOM)
    }
}

/// Appends the fragment that the rest of a body begins with.
#[tactic(auto, unfolding(crate::specs::Requests::request_fragment))]
fn append_fragment(
    text: &mut Items<u8>,
    call: u32,
    opnum: u16,
    first: bool,
    rest: &[u8],
) -> Result<(), OutOfMemory>
    requires { length rest.now < 2 ^ 32 }
    ensures { OnOk result (text.new ≡ text.old ++ request_fragment call opnum first rest.now) }
{
    let (stub, _) = cut(rest);
    let request = RequestPdu {
        call,
        first,
        last: rest.len() <= ROOM,
        hint: rest.len() as u32,
        context: 0,
        opnum,
        object: None,
        stub,
    };
    write_pdu(&Pdu::Request(request), text)
}

/// A body in fragments.
fn fragmented(alloc: Global, call: u32, opnum: u16, body: &[u8]) -> Result<Items<u8>, OutOfMemory>
    requires { length body.now < 2 ^ 32 }
    ensures { IfOk result (λ text. text ≡ fragmented call opnum body.now) }
{
    let mut text = Items::new(alloc);
    let mut rest = body;
    let mut first = true;
    for _ in 0..body.len() {
        if rest.is_empty() {
            return Ok(text);
        }
        append_fragment(&mut text, call, opnum, first, rest)?;
        let (_, after) = cut(rest);
        rest = after;
        first = false;
    }
    Ok(text)
}

/// The bytes of a request under a call id. A body of 2^32 bytes or more results in `OutOfMemory`:
/// no hint can say its length.
#[tactic(auto, unfolding(crate::specs::Requests::request_text))]
pub fn request_text(alloc: Global, call: u32, request: &Request) -> Result<Items<u8>, OutOfMemory>
    ensures { IfOk result (λ text. text ≡ request_text call request.now) }
{
    let body = write_request(alloc, request)?;
    if u32::try_from(body.len()).is_err() {
        return Err(OutOfMemory);
    }
    fragmented(alloc, call, request.opnum(), body.as_slice())
}
