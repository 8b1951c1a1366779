ghost use Rattle.std.specs.Prelude.{◌/◌, ◌*◌, ◌≤◌, ◌<◌, ◌≡◌, length, IfOk, OnOk};
ghost use Rattle.rpc_pdu.specs.Contexts.{contexts_of};
ghost use Rattle.rpc_session.specs.Contexts.{same_syntax, interface_of, offers, context_answer};
ghost use Rattle.rpc_session.specs.Contexts.{result_bytes, results_of, accepted_by, AreBelow};
ghost use Rattle.rpc_session.specs.Contexts.{as_value};

use rpc_pdu::{Context, read_context};
use scm_text::{Items, OutOfMemory};
use std::alloc::Global;

/// The interfaces that are served.
#[derive(Clone, Copy, Debug, PartialEq, Eq)]
pub enum Interface {
    Svcctl,
    Trigger,
}

/// 367ABB81-9844-35F1-AD32-98F038001003, version 2.0.
const SVCCTL: [u8; 20] = [
    0x81, 0xbb, 0x7a, 0x36, 0x44, 0x98, 0xf1, 0x35, 0xad, 0x32, 0x98, 0xf0, 0x38, 0x00, 0x10, 0x03,
    2, 0, 0, 0,
];

/// 5C3F0A10-2E4B-4D61-9A77-0D5B1E6F2C01, version 1.0.
const TRIGGER: [u8; 20] = [
    0x10, 0x0a, 0x3f, 0x5c, 0x4b, 0x2e, 0x61, 0x4d, 0x9a, 0x77, 0x0d, 0x5b, 0x1e, 0x6f, 0x2c, 0x01,
    1, 0, 0, 0,
];

/// 8A885D04-1CEB-11C9-9FE8-08002B104860, version 2.
const NDR: [u8; 20] = [
    0x04, 0x5d, 0x88, 0x8a, 0xeb, 0x1c, 0xc9, 0x11, 0x9f, 0xe8, 0x08, 0x00, 0x2b, 0x10, 0x48, 0x60,
    2, 0, 0, 0,
];

/// What a context gets.
#[derive(Clone, Copy, Debug, PartialEq, Eq)]
pub enum Answer {
    Accepted(Interface),
    NotServed,
    NoTransferSyntax,
}

#[tactic(auto, unfolding(crate::specs::Contexts::same_syntax))]
fn is_syntax(bytes: &[u8], syntax: &[u8; 20]) -> bool
    ensures { result ≡ same_syntax bytes.now syntax.now }
{
    bytes == syntax.as_slice()
}

fn served(syntax: &[u8]) -> Option<Interface>
    ensures { result ≡ interface_of syntax.now }
{
    if is_syntax(syntax, &SVCCTL) {
        return Some(Interface::Svcctl);
    }
    if is_syntax(syntax, &TRIGGER) {
        return Some(Interface::Trigger);
    }
    None
}

/// Whether NDR is among these syntaxes.
fn offers_ndr(syntaxes: &[u8]) -> bool
    ensures { result ≡ offers (length syntaxes.now / 20) syntaxes.now }
{
    let mut rest = syntaxes;
    for _ in 0..syntaxes.len() / 20 {
        let (syntax, after) = rest.split_at(20);
        if is_syntax(syntax, &NDR) {
            return true;
        }
        rest = after;
    }
    false
}

pub fn answer_of(context: &Context<&[u8]>) -> Answer
    ensures { result ≡ context_answer (as_value context.now) }
{
    match served(context.abstract_syntax) {
        None => Answer::NotServed,
        Some(interface) => {
            if offers_ndr(context.transfer_syntaxes) {
                Answer::Accepted(interface)
            } else {
                Answer::NoTransferSyntax
            }
        }
    }
}

/// The bytes of a result.
#[tactic(auto, unfolding(crate::specs::Contexts::result_bytes))]
fn result_of(answer: Answer) -> [u8; 24]
    ensures { result ≡ result_bytes answer }
{
    let mut bytes = [0; 24];
    match answer {
        Answer::Accepted(_) => bytes[4..].copy_from_slice(&NDR),
        Answer::NotServed => {
            bytes[0] = 2;
            bytes[2] = 1;
        }
        Answer::NoTransferSyntax => {
            bytes[0] = 2;
            bytes[2] = 2;
        }
    }
    bytes
}

/// The interface of an accepted context.
pub fn accepted(answer: Answer) -> Option<Interface>
    ensures { result ≡ accepted_by answer }
{
    match answer {
        Answer::Accepted(interface) => Some(interface),
        _ => None,
    }
}

/// What a bind or an alter_context is answered.
#[derive(Drop)]
pub struct Answers {
    /// The bytes of the results.
    pub results: Items<u8>,
    /// Each id is below this.
    pub room: usize,
}

/// Answers this many contexts.
pub fn answer_all(alloc: Global, count: u8, contexts: &[u8]) -> Result<Answers, OutOfMemory>
    ensures bound { IfOk result (λ a. length a.results ≤ 24 * count) }
    ensures results { IfOk result (λ a. a.results ≡ results_of (contexts_of count contexts.now)) }
    ensures room { IfOk result (λ a. AreBelow a.room (contexts_of count contexts.now)) }
{
    let mut results = Items::new(alloc);
    let mut room = 0;
    let mut rest = contexts;
    for _ in 0..count {
        let Some((context, after)) = read_context(rest) else {
            break;
        };
        results.append(&result_of(answer_of(&context)))?;
        room = above(room, context.id);
        rest = after;
    }
    Ok(Answers { results, room })
}

/// The least number that is not below `room` and is above an id.
fn above(room: usize, id: u16) -> usize
    ensures least { room ≤ result }
    ensures above { id < result }
{
    room.max(usize::from(id) + 1)
}
