ghost use Rattle.std.specs.Prelude.{◌≡◌, ◌+◌, ◌^◌, ◌<◌, drop, IsTrue, ◌*◌, ◌≤◌, ◌++◌, ◌∷◌, map};
ghost use Rattle.std.specs.Prelude.{length};
ghost use Rattle.ndr_body.specs.Reading.{FindsMemory, Gives, aligned};
ghost use Rattle.scm_shapes.specs.Ranges.{within_at};
ghost use Rattle.scm_shapes.specs.Calls.{read_as};
ghost use Rattle.scm_shapes.specs.HandleBodies.{handle_body_at, handle_body_of, is_handle_body};
ghost use Rattle.scm_shapes.specs.HandleBodies.{is_numeric, next_number_at};
ghost use Rattle.std.specs.List.{flat_map};
ghost use Rattle.ndr_body.specs.Writing.{handle_bytes, number_bytes};
ghost use Rattle.scm_shapes.specs.Written.{IsWritten};
ghost use Rattle.scm_shapes.specs.declared.item.Value.TheVariants as value;

use crate::item::Item;
use ndr_body::{BodyFault, NdrReader};
use scm_text::{Buffer, OutOfMemory};

/// Where the next item begins.
pub fn next_place(reader: &NdrReader) -> usize
    ensures place { result ≡ aligned reader.now.place }
    ensures small { result < 2 ^ 63 + 4 }
{
    (reader.place() + 3) / 4 * 4
}

/// A number of at most so much. A greater one is `BadCount` where it begins.
#[tactic(auto, unfolding(crate::specs::Ranges::within_at))]
pub fn read_within(reader: &mut NdrReader, most: u32) -> Result<u32, BodyFault>
    ensures value { Gives (λ v. (v, reader.new.place)) result
        (within_at most reader.old.body reader.old.place) }
    ensures body { reader.new.body ≡ reader.old.body }
    ensures memory { FindsMemory result }
{
    let start = next_place(reader);
    let number = reader.number()?;
    if number <= most {
        Ok(number)
    } else {
        Err(BodyFault::BadCount(start))
    }
}

/// What a body holds that is a context handle and at most two numbers of 32 bits (NDR of C706). A
/// number that the body doesn't have is 0.
#[derive(Clone, Copy)]
pub struct HandleBody {
    pub handle: u64,
    pub first: u32,
    pub second: u32,
}

/// Whether an item is a number of 32 bits.
fn is_number(item: &Item) -> bool
    ensures { result ≡ is_numeric item.now }
{
    matches!(item, Item::Number | Item::NumberTo(_))
}

/// Whether the bodies of a shape are a handle and at most two numbers.
pub fn is_handle_body(shape: &[Item]) -> bool
    ensures { result ≡ is_handle_body shape.now }
{
    match shape {
        [Item::Handle] => true,
        [Item::Handle, first] => is_number(first),
        [Item::Handle, first, second] => is_number(first) && is_number(second),
        _ => false,
    }
}

/// The items after the first.
fn rest(items: &[Item]) -> &[Item]
    ensures { result.now ≡ drop 1 items.now }
{
    match items {
        [_, others @ ..] => others,
        [] => items,
    }
}

/// The number that some items begin with, or 0 where there are none.
#[inline(always)]
#[tactic(auto, unfolding(crate::specs::HandleBodies::next_number_at))]
fn read_next(reader: &mut NdrReader, items: &[Item]) -> Result<u32, BodyFault>
    ensures value { Gives (λ v. (v, reader.new.place)) result
        (next_number_at items.now reader.old.body reader.old.place) }
    ensures body { reader.new.body ≡ reader.old.body }
    ensures memory { FindsMemory result }
{
    match items {
        [] => Ok(0),
        [Item::NumberTo(most), ..] => read_within(reader, *most),
        [_, ..] => reader.number(),
    }
}

/// Reads a handle and the numbers after it.
#[tactic(auto, unfolding(crate::specs::HandleBodies::handle_body_at))]
fn read(numbers: &[Item], body: &[u8]) -> Result<HandleBody, BodyFault>
    ensures exact { Gives (λ held. held) result (handle_body_at numbers.now body.now) }
    ensures memory { FindsMemory result }
{
    let mut reader = NdrReader::new(body);
    let handle = reader.handle()?;
    let first = read_next(&mut reader, numbers)?;
    let second = read_next(&mut reader, rest(numbers))?;
    reader.finish()?;
    Ok(HandleBody {
        handle,
        first,
        second,
    })
}

/// Reads a body of a handle and at most two numbers, without a queue of values. A fault is the
/// first one of the body, at its place.
pub fn read_handle_body(shape: &[Item], body: &[u8]) -> Result<HandleBody, BodyFault>
    requires { IsTrue (is_handle_body shape.now) }
    // What is read is what the values of the body are, and which fault it is else.
    ensures exact { Gives (λ held. held) result (read_as shape.now handle_body_of body.now) }
    // No memory is taken for it.
    ensures memory { FindsMemory result }
{
    read(rest(shape), body)
}

/// Appends numbers of 32 bits, for which there is room. No padding is between them.
#[tactic(auto, unfolding(ndr_body::specs::Writing::number_bytes))]
fn append_numbers(out: &mut Buffer<u8>, numbers: &[u32])
    requires { 4 * length numbers.now ≤ out.old.room }
    ensures { out.new.items ≡ out.old.items ++ flat_map number_bytes numbers.now }
{
    for number in numbers {
        out.extend(&number.to_le_bytes());
    }
}

/// Appends a context handle, for which there is room.
#[tactic(auto, using(crate::proofs::WrittenAtOnce::handle_in_parts))]
fn append_handle(out: &mut Buffer<u8>, handle: u64)
    requires { 20 ≤ out.old.room }
    ensures items { out.new.items ≡ out.old.items ++ handle_bytes handle }
    ensures room { out.new.room + 20 ≡ out.old.room }
{
    out.extend(&[0, 0, 0, 0]);
    out.extend(&handle.to_le_bytes());
    out.extend(&[0, 0, 0, 0, 0, 0, 0, 0]);
}

/// Writes a body of numbers of 32 bits alone after what the buffer holds. When memory runs out the
/// buffer is given back as it was.
#[tactic(auto, using(crate::proofs::WrittenAtOnce::numbers_written))]
pub fn write_numbers(
    numbers: &[u32],
    out: Buffer<u8>,
) -> Result<Buffer<u8>, (OutOfMemory, Buffer<u8>)>
    ensures { IsWritten (map value.Number numbers.now) out result }
{
    let mut out = out;
    match out.reserve(4 * numbers.len()) {
        Ok(()) => {
            append_numbers(&mut out, numbers);
            Ok(out)
        }
        Err(fault) => Err((fault, out)),
    }
}

/// Writes a body of a context handle and numbers of 32 bits after what the buffer holds. When
/// memory runs out the buffer is given back as it was.
#[tactic(auto, using(crate::proofs::WrittenAtOnce::handle_written))]
pub fn write_handle(
    handle: u64,
    numbers: &[u32],
    out: Buffer<u8>,
) -> Result<Buffer<u8>, (OutOfMemory, Buffer<u8>)>
    ensures { IsWritten (value.Handle handle ∷ map value.Number numbers.now) out result }
{
    let mut out = out;
    match out.reserve(20 + 4 * numbers.len()) {
        Ok(()) => {
            append_handle(&mut out, handle);
            append_numbers(&mut out, numbers);
            Ok(out)
        }
        Err(fault) => Err((fault, out)),
    }
}
