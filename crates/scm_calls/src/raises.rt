ghost use Rattle.std.specs.Prelude.{◌≡◌, ◌≤◌, ℕ, List, Ok, IfOk, IsOk};
ghost use Rattle.ndr_body.specs.Reading.{FindsMemory, Gives};
ghost use Rattle.scm_model.specs.declared.calls.Reply.TheVariants as reply;
ghost use Rattle.scm_shapes.specs.Written.{IsWritten};
ghost use Rattle.scm_shapes.specs.Shapes.{body_bytes};
ghost use Rattle.scm_calls.specs.Replies.{reply_values};
ghost use Rattle.scm_calls.specs.declared.raises.TheConstants.{RAISE_REPLY_BYTES};
ghost use Rattle.scm_calls.specs.Raises.{IsRaise, IsRaiseReply, raise_at, raise_reply_at};

use crate::kinds::ReplyKind;
use crate::replies::reply_shape;
use ndr_body::BodyFault;
use scm_shapes::{Piece, read_body, write_pieces};
use scm_text::{Buffer, Items, OutOfMemory};
use std::alloc::Global;

/// The one method of the trigger interface.
pub const RAISE: u16 = 0;

/// How many bytes a subtype of triggers has: it is a UUID as it lies in memory.
pub const SUBTYPE_BYTES: usize = 16;

/// How many bytes the body of a reply to a raise has.
pub const RAISE_REPLY_BYTES: usize = 4;

/// The subtype that a body raises.
#[tactic(auto, unfolding(crate::specs::Raises::raise_at))]
pub fn read_raise(body: &[u8]) -> Result<[u8; 16], BodyFault>
    // What is read is raised by the body.
    ensures found { IfOk result (λ subtype. IsRaise body.now subtype) }
    // What the body raises is read.
    ensures only { (subtype : List ℕ) → IsRaise body.now subtype → result ≡ Ok subtype }
    // Which fault it is.
    ensures exact { result ≡ raise_at body.now }
{
    if body.len() < SUBTYPE_BYTES {
        return Err(BodyFault::Short(0));
    }
    if body.len() > SUBTYPE_BYTES {
        return Err(BodyFault::Trailing(SUBTYPE_BYTES));
    }
    let mut subtype = [0; 16];
    subtype.copy_from_slice(body);
    Ok(subtype)
}

/// The body that raises a subtype.
pub fn write_raise(alloc: Global, subtype: &[u8; 16]) -> Result<Items<u8>, OutOfMemory>
    ensures form { IfOk result (λ bytes. IsRaise bytes subtype.now) }
    // It is read back.
    ensures back { IfOk result (λ bytes. raise_at bytes ≡ Ok subtype.now) }
{
    Ok(Items::from_slice(alloc, subtype.as_slice())?)
}

fn read_code(alloc: Global, body: &[u8]) -> Result<u32, BodyFault>
    ensures exact { Gives (λ c. c) result (raise_reply_at body.now) }
    ensures memory { FindsMemory result }
{
    let mut values = read_body(alloc, reply_shape(ReplyKind::Code), body)?;
    Ok(values.number())
}

/// The code in the body of a reply to a raise.
pub fn read_raise_reply(alloc: Global, body: &[u8]) -> Result<u32, BodyFault>
    // A code that is read is the body's, whatever the padding is.
    ensures found { IfOk result (λ code. IsRaiseReply body.now code) }
    // The body's code is read.
    ensures only { (code : ℕ) → IsRaiseReply body.now code → Gives (λ c. c) result (Ok code) }
    // No memory is taken for it.
    ensures memory { FindsMemory result }
    // Which fault it is.
    ensures exact { Gives (λ c. c) result (raise_reply_at body.now) }
{
    read_code(alloc, body)
}

/// Writes the body of a reply to a raise after what the buffer holds. If memory runs out, the
/// buffer is given back as it was.
pub fn write_raise_reply(
    code: u32,
    out: Buffer<u8>,
) -> Result<Buffer<u8>, (OutOfMemory, Buffer<u8>)>
    ensures written { IsWritten (reply_values (reply.Code code)) out result }
    // It takes no memory where there is room for the code.
    ensures enough { RAISE_REPLY_BYTES ≤ out.room → IsOk result }
    // It is read back.
    ensures back { raise_reply_at (body_bytes (reply_values (reply.Code code))) ≡ Ok code }
{
    write_pieces(&[Piece::Number(code)], out)
}
