use crate::bytes::{bytes, text, units};
use ndr_body::{BodyFault, NdrReader, NdrWriter};
use scm_text::Buffer;
use std::alloc::Global;
use std::test::Fail;

/// An item of a body.
#[derive(Clone, Copy)]
enum Item {
    Handle(u64),
    Number(u32),
    Name(&'static str),
    SomeName(&'static str),
    NoName,
    SomeNumber(u32),
    NoNumber,
    /// A pointer to 9, 8 and what is missing to three bytes.
    SomeBytes,
    NoBytes,
}

fn write(alloc: Global, writer: &mut NdrWriter, item: Item) -> Result<(), Fail> {
    match item {
        Item::Handle(handle) => writer.handle(handle)?,
        Item::Number(number) => writer.number(number)?,
        Item::Name(name) => writer.text(&text(alloc, name)?)?,
        Item::SomeName(name) => writer.some_text(Some(&text(alloc, name)?))?,
        Item::NoName => writer.some_text(None)?,
        Item::SomeNumber(number) => writer.some_number(Some(number))?,
        Item::NoNumber => writer.some_number(None)?,
        Item::SomeBytes => {
            writer.referent()?;
            writer.bytes(&[9, 8], 3)?;
        }
        Item::NoBytes => writer.number(0)?,
    }
    Ok(())
}

/// Whether this text is read next.
fn reads_text(alloc: Global, reader: &mut NdrReader, name: &str) -> Result<bool, Fail> {
    let found = reader.text(alloc)?;
    Ok(found.units() == units(alloc, name)?.as_slice())
}

/// Whether a pointer to this text is read next, or to none.
fn reads_some_text(
    alloc: Global,
    reader: &mut NdrReader,
    name: Option<&str>,
) -> Result<bool, Fail> {
    let found = reader.some_text(alloc)?;
    match (found, name) {
        (Some(found), Some(name)) => Ok(found.units() == units(alloc, name)?.as_slice()),
        (None, None) => Ok(true),
        _ => Ok(false),
    }
}

/// Whether a pointer to these bytes is read next, or to none.
fn reads_some_bytes(
    alloc: Global,
    reader: &mut NdrReader,
    bytes: Option<&[u8]>,
) -> Result<bool, Fail> {
    let found = reader.some_bytes(alloc)?;
    Ok(match (found, bytes) {
        (Some(found), Some(bytes)) => found.as_slice() == bytes,
        (None, None) => true,
        _ => false,
    })
}

/// Whether this item is read next.
fn is_read(alloc: Global, reader: &mut NdrReader, item: Item) -> Result<bool, Fail> {
    match item {
        Item::Handle(handle) => Ok(reader.handle() == Ok(handle)),
        Item::Number(number) => Ok(reader.number() == Ok(number)),
        Item::Name(name) => reads_text(alloc, reader, name),
        Item::SomeName(name) => reads_some_text(alloc, reader, Some(name)),
        Item::NoName => reads_some_text(alloc, reader, None),
        Item::SomeNumber(number) => Ok(reader.some_number() == Ok(Some(number))),
        Item::NoNumber => Ok(reader.some_number() == Ok(None)),
        Item::SomeBytes => reads_some_bytes(alloc, reader, Some(&[9, 8, 0])),
        Item::NoBytes => reads_some_bytes(alloc, reader, None),
    }
}

/// Each item with its bytes, its padding before them. The first three are the body of
/// ROpenServiceW.
const ROWS: &[(Item, &str)] = &[
    (
        Item::Handle(1),
        "00000000 0100000000000000 0000000000000000",
    ),
    (Item::Name("Db"), "03000000 00000000 03000000 440062000000"),
    (Item::Number(4), "0000 04000000"),
    (
        Item::SomeName("A"),
        "00000200 02000000 00000000 02000000 41000000",
    ),
    (Item::NoName, "00000000"),
    (Item::SomeNumber(7), "04000200 07000000"),
    (Item::NoNumber, "00000000"),
    (Item::SomeBytes, "08000200 03000000 090800"),
    (Item::NoBytes, "00 00000000"),
];

/// The bytes of the rows.
fn stated(alloc: Global) -> Result<Vec<u8>, Fail> {
    let mut body = Vec::new(alloc);
    for (_, digits) in ROWS {
        body.extend_from_slice(bytes(alloc, digits)?.as_slice())?;
    }
    Ok(body)
}

fn write_rows(alloc: Global, writer: &mut NdrWriter) -> Result<(), Fail> {
    for (item, _) in ROWS {
        write(alloc, writer, *item)?;
    }
    Ok(())
}

/// The items of the rows, as they are written.
fn written(alloc: Global) -> Result<Buffer<u8>, Fail> {
    let mut writer = NdrWriter::new(Buffer::with_room(alloc, 0)?);
    match write_rows(alloc, &mut writer) {
        Ok(()) => Ok(writer.end()),
        Err(fault) => Err(fault),
    }
}

/// Whether the rows are written as these bytes.
fn are_written(alloc: Global, body: &[u8]) -> Result<bool, Fail> {
    Ok(written(alloc)?.as_slice() == body)
}

/// How many of the rows are read one after another.
fn count_read(alloc: Global, reader: &mut NdrReader) -> Result<usize, Fail> {
    for (i, (item, _)) in ROWS.iter().enumerate() {
        if !is_read(alloc, reader, *item)? {
            return Ok(i);
        }
    }
    Ok(ROWS.len())
}

#[test]
fn items_are_written_and_read(rt: HostRuntime) -> Result<(), Fail> {
    let body = stated(rt.alloc())?;
    assert!(rt; are_written(rt.alloc(), body.as_slice())?);
    let mut reader = NdrReader::new(body.as_slice());
    assert_eq!(rt; count_read(rt.alloc(), &mut reader)?, 9);
    assert_eq!(rt; reader.finish(), Ok(()));
    Ok(())
}

/// The fault of reading an item of this kind after a handle, or else the fault of `finish`.
fn fault(alloc: Global, item: Item, body: &[u8]) -> Result<String, Fail> {
    let mut reader = NdrReader::new(body);
    let _handle = reader.handle()?;
    let told = match item {
        Item::Name(_) => reader.text(alloc).err(),
        Item::SomeName(_) => reader.some_text(alloc).err(),
        Item::Number(_) => reader.number().err(),
        _ => reader.finish().err(),
    };
    match told {
        Some(fault) => Ok(format!(in alloc; "{fault}")?),
        None => Ok(String::new(alloc)),
    }
}

/// The same of a body in hex that follows a handle.
fn fault_in(alloc: Global, item: Item, digits: &str) -> Result<String, Fail> {
    let mut body = bytes(alloc, "00000000 0100000000000000 0000000000000000")?;
    body.extend_from_slice(bytes(alloc, digits)?.as_slice())?;
    fault(alloc, item, body.as_slice())
}

#[test]
fn faults_tell_their_places(rt: HostRuntime) -> Result<(), Fail> {
    let rows = [
        (
            Item::Name("Db"),
            "03000000 00000000 03000000 440062000100",
            "the string at 20 is not in the rule",
        ),
        (
            Item::Name("Db"),
            "03000000 00000000 03000000 440062",
            "the item at 20 runs past the end",
        ),
        (
            Item::Name("Db"),
            "ffffffff 00000000 ffffffff 440062000000",
            "the item at 20 runs past the end",
        ),
        (
            Item::SomeName("A"),
            "00000200 02000000 00000000 0200",
            "the item at 20 runs past the end",
        ),
        (Item::Number(4), "0400", "the item at 20 runs past the end"),
        (
            Item::NoName,
            "00000000",
            "bytes stand at 20 after the last item",
        ),
    ];
    for (item, digits, want) in rows {
        assert_eq!(rt; fault_in(rt.alloc(), item, digits)?.as_str(), want);
    }
    Ok(())
}
