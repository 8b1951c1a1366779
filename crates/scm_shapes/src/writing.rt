ghost use Rattle.std.specs.Prelude.{◌≡◌, ◌≤◌, map, length, take, IsOk, OnOk, List, Ok};
ghost use Rattle.scm_shapes.specs.Sized.{put_sized, put_sized_array};
ghost use Rattle.scm_shapes.specs.declared.item.Item.{Item as AnItem};
ghost use Rattle.scm_shapes.specs.Written.{IsWritten};
ghost use Rattle.scm_shapes.specs.Laws.{CanHoldAll, as_read};
ghost use Rattle.scm_shapes.specs.Shapes.{body_values, value_of, put_value, put_values, body_bytes};

use crate::item::Piece;
use crate::levels_written::put_info;
use crate::records::{put_lock, put_shown};
use crate::words::put_words;
use ndr_body::NdrWriter;
use scm_text::{Buffer, Items, OutOfMemory};

/// Bytes with their count, and the count again.
#[tactic(auto, using(crate::proofs::Widths::grows))]
fn put_sized_array(writer: &mut NdrWriter, held: &Items<u8>) -> Result<(), OutOfMemory>
    ensures front { writer.new.front ≡ writer.old.front }
    ensures ok { OnOk result (writer.new.draft ≡ put_sized_array held.now writer.old.draft) }
    ensures space { writer.old.space ≤ writer.new.space }
    ensures enough { length (put_sized_array held.now writer.old.draft).bytes ≤ writer.old.space
        → IsOk result }
{
    let bytes = held.as_slice();
    writer.bytes(bytes, bytes.len())?;
    writer.count(bytes.len())
}

/// A unique pointer to bytes, and the size of these.
#[tactic(auto, using(crate::proofs::Widths::grows), unfolding(crate::specs::Sized::put_sized))]
fn put_sized(writer: &mut NdrWriter, held: &Option<Items<u8>>) -> Result<(), OutOfMemory>
    ensures front { writer.new.front ≡ writer.old.front }
    ensures ok { OnOk result (writer.new.draft ≡ put_sized held.now writer.old.draft) }
    ensures space { writer.old.space ≤ writer.new.space }
    ensures enough { length (put_sized held.now writer.old.draft).bytes ≤ writer.old.space
        → IsOk result }
{
    match held {
        None => {
            writer.number(0)?;
            writer.number(0)
        }
        Some(held) => {
            writer.referent()?;
            put_sized_array(writer, held)
        }
    }
}

#[tactic(auto, unfolding(crate::specs::Shapes::put_value))]
fn put_piece(writer: &mut NdrWriter, piece: Piece) -> Result<(), OutOfMemory>
    ensures front { writer.new.front ≡ writer.old.front }
    ensures ok { OnOk result (writer.new.draft ≡
        put_value (value_of piece.entry) writer.old.draft) }
    ensures space { writer.old.space ≤ writer.new.space }
    ensures enough { length (put_value (value_of piece.entry) writer.old.draft).bytes ≤
        writer.old.space → IsOk result }
{
    match piece {
        Piece::Handle(handle) => writer.handle(handle),
        Piece::Number(number) => writer.number(number),
        Piece::Text(text) => writer.text(text),
        Piece::SomeText(text) => writer.some_text(text.as_ref()),
        Piece::UnkeptText => writer.some_text(None),
        Piece::SomeNumber(number) => writer.some_number(number),
        Piece::SomeBytes(held) => put_sized(writer, held),
        Piece::UnkeptBytes => put_sized(writer, &None),
        Piece::SizedArray(held) => put_sized_array(writer, held),
        Piece::Bytes(size, held) => writer.bytes(first(held.as_slice(), size), size as usize),
        Piece::Words(words) => put_words(writer, words),
        Piece::Lock(held, owner, seconds) => put_lock(writer, held, owner, seconds),
        Piece::Shown(shown) => put_shown(writer, shown),
        Piece::Info(asked) => put_info(writer, asked),
    }
}

/// The first so many bytes, or all.
fn first(bytes: &[u8], size: u32) -> &[u8]
    ensures { result.now ≡ take size bytes.now }
{
    if bytes.len() <= size as usize {
        bytes
    } else {
        &bytes[..size as usize]
    }
}

/// Writes values one after the other.
fn put_pieces(writer: &mut NdrWriter, pieces: &[Piece]) -> Result<(), OutOfMemory>
    ensures front { writer.new.front ≡ writer.old.front }
    ensures ok { OnOk result (writer.new.draft ≡ put_values
        (map value_of pieces.now) writer.old.draft) }
    ensures space { writer.old.space ≤ writer.new.space }
    ensures enough { length (put_values (map value_of pieces.now) writer.old.draft).bytes ≤
        writer.old.space → IsOk result }
{
    for piece in pieces {
        put_piece(writer, *piece)?;
    }
    Ok(())
}

#[tactic(auto, unfolding(crate::specs::Shapes::body_bytes))]
fn written(pieces: &[Piece], out: Buffer<u8>) -> Result<Buffer<u8>, (OutOfMemory, Buffer<u8>)>
    ensures { IsWritten (map value_of pieces.now) out result }
{
    let mut writer = NdrWriter::new(out);
    match put_pieces(&mut writer, pieces) {
        Ok(()) => Ok(writer.end()),
        Err(fault) => Err((fault, writer.undo())),
    }
}

/// Writes a body after what the buffer holds. If memory runs out, the buffer is given back as it
/// was.
pub fn write_pieces(
    pieces: &[Piece],
    out: Buffer<u8>,
) -> Result<Buffer<u8>, (OutOfMemory, Buffer<u8>)>
    ensures written { IsWritten (map value_of pieces.now) out result }
    // Values that a shape can hold are read back from their body.
    ensures back { (shape : List AnItem) → CanHoldAll shape (map value_of pieces.now)
        → body_values shape (body_bytes (map value_of pieces.now)) ≡ Ok
        (map as_read (map value_of pieces.now)) }
{
    written(pieces, out)
}
