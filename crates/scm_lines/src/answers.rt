ghost use Rattle.std.specs.Prelude.{◌≡◌, IfOk, OnOk, decimal, string_bytes, true};
ghost use Rattle.hex.specs.Hex.{encode_lower};
ghost use Rattle.scm_bodies.specs.Replies.{reply_bytes};
ghost use Rattle.scm_model.specs.declared.steps.Answer.TheVariants as answers;
ghost use Rattle.scm_lines.specs.Answers.{line_with, order_line, told_line};

use scm_bodies::write_reply;
use scm_model::{Answer, Order, Reply};
use scm_text::{Buffer, OutOfMemory};
use std::alloc::{AllocError, Global};

/// Room for the body of most replies.
const BODY: usize = 64;

/// The same, with the reason of an error.
fn put_two(line: &mut Vec<u8>, front: &str, rest: &[u8]) -> Result<(), AllocError>
    ensures { OnOk result (line.new.items ≡ line_with front.now rest.now) }
{
    line.clear();
    line.extend_from_slice(front.as_bytes())?;
    line.extend_from_slice(rest)?;
    line.extend_from_slice(b"\n")
}

/// Puts two texts and a line feed into a line, in place of what it was.
pub fn put_line(line: &mut Vec<u8>, front: &str, rest: &[u8]) -> Result<(), OutOfMemory>
    ensures { OnOk result (line.new.items ≡ line_with front.now rest.now) }
{
    match put_two(line, front, rest) {
        Ok(()) => Ok(()),
        Err(_) => Err(OutOfMemory),
    }
}

/// Puts a text, a number and a line feed into a line, in place of what it was.
pub fn put_number(line: &mut Vec<u8>, front: &str, number: u64) -> Result<(), OutOfMemory>
    ensures { OnOk result (line.new.items ≡ line_with front.now (decimal number)) }
{
    put_line(line, front, itoa::Buffer::new().format(number).as_bytes())
}

/// Puts the number of a service and a control for it into a line.
fn put_both(line: &mut Vec<u8>, order: &Order) -> Result<(), AllocError>
    ensures { OnOk result (line.new.items ≡ order_line order.now true) }
{
    line.clear();
    line.extend_from_slice(b"control ")?;
    line.extend_from_slice(itoa::Buffer::new().format(order.service).as_bytes())?;
    line.extend_from_slice(b" ")?;
    line.extend_from_slice(itoa::Buffer::new().format(order.code).as_bytes())?;
    line.extend_from_slice(b"\n")
}

/// Puts the line for an order that was taken in place of another. For a shared process it has the
/// number of the service too.
pub fn put_order(line: &mut Vec<u8>, order: &Order, shared: bool) -> Result<(), OutOfMemory>
    ensures { OnOk result (line.new.items ≡ order_line order.now shared) }
{
    if !shared {
        return put_number(line, "control ", u64::from(order.code));
    }
    match put_both(line, order) {
        Ok(()) => Ok(()),
        Err(_) => Err(OutOfMemory),
    }
}

/// The body of a reply.
fn body_of(alloc: Global, reply: &Reply) -> Result<Buffer<u8>, OutOfMemory>
    ensures { IfOk result (λ body. body.items ≡ reply_bytes reply.now) }
{
    match write_reply(reply, Buffer::with_room(alloc, BODY)?) {
        Ok(body) => Ok(body),
        Err(_) => Err(OutOfMemory),
    }
}

/// Bytes in hexadecimal, in lower case.
pub fn hex_of(alloc: Global, bytes: &[u8]) -> Result<String, OutOfMemory>
    ensures { IfOk result (λ text. string_bytes text ≡ encode_lower bytes.now) }
{
    match hex::encode(alloc, bytes) {
        Ok(text) => Ok(text),
        Err(_) => Err(OutOfMemory),
    }
}

/// Puts what tells a reply into a line.
fn put_reply(alloc: Global, line: &mut Vec<u8>, reply: &Reply) -> Result<(), OutOfMemory>
    ensures { OnOk result (line.new.items ≡ told_line (answers.Reply reply.now)) }
{
    let body = body_of(alloc, reply)?;
    let text = hex_of(alloc, body.as_slice())?;
    put_line(line, "reply ", text.as_bytes())
}

/// Puts the line that tells what a step answered in place of another.
pub fn put_told(alloc: Global, line: &mut Vec<u8>, answer: &Answer) -> Result<(), OutOfMemory>
    ensures { OnOk result (line.new.items ≡ told_line answer.now) }
{
    match answer {
        Answer::Caller(number) => put_number(line, "caller ", *number),
        Answer::Reply(reply) => put_reply(alloc, line, reply),
        Answer::Begun(plan) => put_number(line, "plan ", *plan),
        Answer::Launch(process) => put_number(line, "launch ", *process),
        Answer::Control(order) => put_order(line, order, false),
        Answer::Refused(code) => put_number(line, "refused ", u64::from(*code)),
        Answer::Stale => put_line(line, "stale", b""),
        Answer::Done => put_line(line, "done", b""),
    }
}
