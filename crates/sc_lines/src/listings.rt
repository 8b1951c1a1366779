ghost use Rattle.std.specs.Prelude.{◌≡◌, ◌++◌, OnOk, map};
ghost use Rattle.std.specs.List.{flat_map};
ghost use Rattle.sc_lines.specs.Listings.{entry_text, listing_text, name_fields};
ghost use Rattle.sc_lines.specs.Lines.{lines};

use super::lines::{Appended, Line, add_lines};
use super::reading::{number_at, rows, text_at};
use super::statuses::{add_numbers, status_at};
use scm_text::Items;
use std::alloc::Global;

/// Appends a name and a display name.
fn add_names<'a>(
    text: &mut Items<u8>,
    alloc: Global,
    name: &'a [u16],
    display: &'a [u16],
) -> Appended
    ensures { OnOk result (text.new ≡ text.old ++ lines (name_fields name.now display.now)) }
{
    let fields = [
        Line::Text("SERVICE_NAME: ", name),
        Line::Text("DISPLAY_NAME: ", display),
    ];
    add_lines(text, alloc, &fields)
}

/// Appends the service of a record, and an empty line.
fn add_entry(text: &mut Items<u8>, alloc: Global, bytes: &[u8], row: &[u8]) -> Appended
    ensures { OnOk result (text.new ≡ text.old ++ entry_text bytes.now row.now) }
{
    let name = text_at(alloc, bytes, number_at(row, 0))?;
    let display = text_at(alloc, bytes, number_at(row, 4))?;
    add_names(text, alloc, name.as_slice(), display.as_slice())?;
    add_numbers(text, alloc, &status_at(row, 8))?;
    text.append(b"\n")
}

/// Appends the services of records.
fn add_entries(text: &mut Items<u8>, alloc: Global, bytes: &[u8], list: &[&[u8]]) -> Appended
    ensures { OnOk result (text.new
        ≡ text.old ++ flat_map (entry_text bytes.now) (map (λ row. row.now) list.now)) }
{
    for row in list {
        add_entry(text, alloc, bytes, row)?;
    }
    Ok(())
}

/// Appends the services of a listing: as many records of 36 bytes as a reply says, as far as they
/// are whole, each with the offsets of two texts and a status (ENUM_SERVICE_STATUSW, MS-SCMR
/// 2.2.11).
#[tactic(auto, unfolding(crate::specs::Listings::listing_text))]
pub fn add_listing(text: &mut Items<u8>, alloc: Global, returned: u32, bytes: &[u8]) -> Appended
    ensures { OnOk result (text.new ≡ text.old ++ listing_text returned bytes.now) }
{
    let list = rows(alloc, 36, returned, bytes)?;
    add_entries(text, alloc, bytes, list.as_slice())
}
