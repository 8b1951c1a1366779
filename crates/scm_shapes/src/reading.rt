ghost use Rattle.std.specs.Prelude.{◌≡◌, ◌==◌, List, [], Ok, IfOk};
ghost use Rattle.ndr_body.specs.Reading.{FindsMemory, Gives};
ghost use Rattle.scm_shapes.specs.Sized.{is_size, sized_array_at, sized_at};
ghost use Rattle.scm_shapes.specs.declared.item.Value.{Value as AValue};
ghost use Rattle.scm_shapes.specs.Shapes.{item_at, values_at, closed_at, body_values};
ghost use Rattle.scm_shapes.specs.Plain.{IsPlain, ArePlain};
ghost use Rattle.scm_shapes.specs.Bodies.{IsBody};
ghost use Rattle.scm_shapes.specs.Laws.{CanHoldAll};

use crate::handle_body::{next_place, read_within};
use crate::item::{Item, Value};
use crate::levels::read_info;
use crate::records::{read_lock, read_shown};
use crate::values::Values;
use crate::words::read_words;
use ndr_body::{BodyFault, NdrReader};
use scm_text::Items;
use std::alloc::Global;

/// Whether a size is that of the bytes before it.
fn is_size(held: &Option<Items<u8>>, size: u32) -> bool
    ensures { result ≡ is_size held.now size }
{
    match held {
        None => true,
        Some(bytes) => bytes.len() == size as usize,
    }
}

/// A unique pointer to bytes, and the size of these.
#[tactic(auto, unfolding(crate::specs::Sized::sized_at))]
fn read_sized(reader: &mut NdrReader, alloc: Global) -> Result<Option<Items<u8>>, BodyFault>
    ensures value { Gives (λ v. (v, reader.new.place)) result
        (sized_at reader.old.body reader.old.place) }
    ensures body { reader.new.body ≡ reader.old.body }
{
    let held = reader.some_bytes(alloc)?;
    let start = next_place(reader);
    let size = reader.number()?;
    if is_size(&held, size) {
        Ok(held)
    } else {
        Err(BodyFault::BadCount(start))
    }
}

/// A conformant array of bytes, and its size after it. A size that is greater than `most`, or that
/// isn't the count of the bytes, is `BadCount` where it begins.
#[tactic(auto, unfolding(crate::specs::Sized::sized_array_at))]
fn read_sized_array(
    reader: &mut NdrReader,
    alloc: Global,
    most: u32,
) -> Result<Items<u8>, BodyFault>
    ensures value { Gives (λ v. (v, reader.new.place)) result
        (sized_array_at most reader.old.body reader.old.place) }
    ensures body { reader.new.body ≡ reader.old.body }
{
    let held = reader.bytes(alloc)?;
    let start = next_place(reader);
    let size = read_within(reader, most)?;
    if held.len() == size as usize {
        Ok(held)
    } else {
        Err(BodyFault::BadCount(start))
    }
}

#[tactic(auto, unfolding(crate::specs::Shapes::item_at))]
fn read_item(reader: &mut NdrReader, alloc: Global, item: Item) -> Result<Value, BodyFault>
    ensures value { Gives (λ v. (v, reader.new.place)) result
        (item_at item reader.old.body reader.old.place) }
    ensures body { reader.new.body ≡ reader.old.body }
    ensures memory { IsPlain item → FindsMemory result }
{
    match item {
        Item::Handle => Ok(Value::Handle(reader.handle()?)),
        Item::Number => Ok(Value::Number(reader.number()?)),
        Item::NumberTo(most) => Ok(Value::Number(read_within(reader, most)?)),
        Item::Text => Ok(Value::Text(reader.text(alloc)?)),
        Item::SomeText => Ok(Value::SomeText(reader.some_text(alloc)?)),
        Item::UnkeptText => {
            drop(reader.some_text(alloc)?);
            Ok(Value::UnkeptText)
        }
        Item::SomeNumber => Ok(Value::SomeNumber(reader.some_number()?)),
        Item::SomeBytes => Ok(Value::SomeBytes(read_sized(reader, alloc)?)),
        Item::UnkeptBytes => {
            drop(read_sized(reader, alloc)?);
            Ok(Value::UnkeptBytes)
        }
        Item::SizedArray(most) => Ok(Value::SizedArray(read_sized_array(reader, alloc, most)?)),
        Item::Bytes => {
            let held = reader.bytes(alloc)?;
            let Ok(size) = u32::try_from(held.len()) else {
                return Err(BodyFault::OutOfMemory);
            };
            Ok(Value::Bytes(size, held))
        }
        Item::Words => Ok(Value::Words(read_words(reader, alloc)?)),
        Item::Lock => read_lock(reader, alloc),
        Item::Shown => Ok(Value::Shown(read_shown(reader, alloc)?)),
        Item::Info => Ok(Value::Info(read_info(reader, alloc)?)),
    }
}

/// Reads the items of a shape one after the other.
fn read_values(
    reader: &mut NdrReader,
    alloc: Global,
    shape: &[Item],
    values: &mut Values,
) -> Result<(), BodyFault>
    requires none { values.old ≡ [] }
    ensures value { Gives (λ _. (values.new, reader.new.place)) result
        (values_at shape.now reader.old.body reader.old.place) }
    ensures body { reader.new.body ≡ reader.old.body }
    ensures memory { ArePlain shape.now → FindsMemory result }
{
    for item in shape {
        let value = read_item(reader, alloc, *item)?;
        values.push(value)?;
    }
    Ok(())
}

/// Ends a body, unless the values leave it open.
#[tactic(auto, unfolding(crate::specs::Shapes::closed_at))]
fn close(reader: &NdrReader, values: &Values) -> Result<(), BodyFault>
    ensures value { Gives (λ done. done) result (closed_at values.now reader.now.body
        reader.now.place) }
    ensures memory { FindsMemory result }
{
    if values.leave_open() {
        Ok(())
    } else {
        reader.finish()
    }
}

/// Reads the values of a body of this shape where they are to lie, and none lies there yet.
#[tactic(auto, unfolding(crate::specs::Shapes::body_values))]
pub fn read_body_into(
    alloc: Global,
    shape: &[Item],
    body: &[u8],
    values: &mut Values,
) -> Result<(), BodyFault>
    requires none { values.old ≡ [] }
    // No memory is taken for a few numbers and handles.
    ensures memory { ArePlain shape.now → FindsMemory result }
    // What is read is what the body holds, and which fault it is else.
    ensures exact { Gives (λ _. values.new) result (body_values shape.now body.now) }
{
    let mut reader = NdrReader::new(body);
    read_values(&mut reader, alloc, shape, values)?;
    close(&reader, values)
}

fn values_of(alloc: Global, shape: &[Item], body: &[u8]) -> Result<Values, BodyFault>
    ensures values { Gives (λ v. v) result (body_values shape.now body.now) }
    ensures memory { ArePlain shape.now → FindsMemory result }
{
    let mut values = Values::new(alloc);
    read_body_into(alloc, shape, body, &mut values)?;
    Ok(values)
}

/// The values of a body of this shape.
pub fn read_body(alloc: Global, shape: &[Item], body: &[u8]) -> Result<Values, BodyFault>
    // What is read is held by the body, whatever its padding and its referents are.
    ensures found { IfOk result (λ vs. IsBody shape.now body.now vs) }
    // What the body holds is read, unless memory runs out.
    ensures only { (vs : List AValue) → IsBody shape.now body.now vs
        → Gives (λ v. v) result (Ok vs) }
    // No value is beyond the range of its item.
    ensures ranged { IfOk result (λ vs. CanHoldAll shape.now vs) }
    // No memory is taken for a few numbers and handles.
    ensures memory { ArePlain shape.now → FindsMemory result }
    // Which fault it is.
    ensures exact { Gives (λ v. v) result (body_values shape.now body.now) }
{
    values_of(alloc, shape, body)
}
