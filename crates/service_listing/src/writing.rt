ghost use Rattle.std.specs.Prelude.{◌≡◌, ◌+◌, ◌*◌, ◌^◌, ◌<◌, ◌++◌, IfOk, OnOk, length, map};
ghost use Rattle.std.specs.List.{flat_map};
ghost use Rattle.std.specs.Int.{w16, w32, to_le_bytes};
ghost use Rattle.service_listing.specs.Layout.{listing_bytes, listing_size, names_bytes};
ghost use Rattle.service_listing.specs.Layout.{names_size};
ghost use Rattle.service_listing.specs.Layout.{numbers_bytes, process_status_bytes, record_bytes};
ghost use Rattle.service_listing.specs.Layout.{records_bytes, name_bytes, text_size};
ghost use Rattle.service_listing.specs.Sizes.{names_sizes};

use scm_model::{ProcessStatus, Service};
use scm_text::{Items, OutOfMemory, WText};
use std::alloc::Global;

/// Appends numbers of four bytes each, the low one first.
#[tactic(auto, unfolding(crate::specs::Layout::numbers_bytes))]
pub fn put_numbers(out: &mut Items<u8>, numbers: &[u32]) -> Result<(), OutOfMemory>
    ensures { OnOk result (out.new ≡ out.old ++ numbers_bytes numbers.now) }
{
    for number in numbers {
        out.append(&number.to_le_bytes())?;
    }
    Ok(())
}

/// Appends units of two bytes each, the low one first.
fn put_units(out: &mut Items<u8>, units: &[u16]) -> Result<(), OutOfMemory>
    ensures { OnOk result (out.new ≡ out.old ++ flat_map (to_le_bytes w16) units.now) }
{
    for unit in units {
        out.append(&unit.to_le_bytes())?;
    }
    Ok(())
}

/// Appends a text with its zero.
#[tactic(auto, unfolding(crate::specs::Layout::name_bytes))]
pub fn put_text(out: &mut Items<u8>, text: &WText) -> Result<(), OutOfMemory>
    ensures { OnOk result (out.new ≡ out.old ++ name_bytes text.now) }
{
    put_units(out, text.units())?;
    out.append(&0u16.to_le_bytes())
}

/// A status with its process, as bytes.
pub fn process_status(status: &ProcessStatus, alloc: Global) -> Result<Items<u8>, OutOfMemory>
    ensures { IfOk result (λ bytes. bytes ≡ process_status_bytes status.now) }
{
    let service = &status.status;
    let mut out = Items::new(alloc);
    put_numbers(
        &mut out,
        &[
            service.kind,
            service.state,
            service.accepted,
            service.win32,
            service.specific,
            service.checkpoint,
            service.hint,
            status.pid,
            status.flags,
        ],
    )?;
    Ok(out)
}

/// Appends the record of a service whose name stands at a place.
fn put_record(out: &mut Items<u8>, place: u32, service: &Service) -> Result<(), OutOfMemory>
    requires { place + names_size service.now < 2 ^ 32 }
    ensures { OnOk result (out.new ≡ out.old ++ record_bytes place service.now) }
{
    let status = &service.status;
    put_numbers(
        out,
        &[
            place,
            place + text_size(&service.config.name),
            status.kind,
            status.state,
            status.accepted,
            status.win32,
            status.specific,
            status.checkpoint,
            status.hint,
        ],
    )
}

/// How many bytes a text takes.
fn text_size(text: &WText) -> u32
    requires { text_size text.now < 2 ^ 32 }
    ensures { result ≡ text_size text.now }
{
    2 * (text.units().len() as u32 + 1)
}

/// How many bytes the names of a service take.
fn names_size(service: &Service) -> u32
    requires { names_size service.now < 2 ^ 32 }
    ensures { result ≡ names_size service.now }
{
    text_size(&service.config.name) + text_size(&service.config.display)
}

/// Appends the records of services whose names stand one after the other from a place on.
fn put_records(out: &mut Items<u8>, first: u32, services: &[&Service]) -> Result<(), OutOfMemory>
    requires { first + names_sizes (map (λ s. s.now) services.now) < 2 ^ 32 }
    ensures { OnOk result (out.new
        ≡ out.old ++ records_bytes first (map (λ s. s.now) services.now)) }
{
    let mut place = first;
    for service in services {
        put_record(out, place, service)?;
        place += names_size(service);
    }
    Ok(())
}

/// Appends the names of services.
fn put_names(out: &mut Items<u8>, services: &[&Service]) -> Result<(), OutOfMemory>
    ensures { OnOk result (out.new ≡ out.old ++ flat_map names_bytes
        (map (λ s. s.now) services.now)) }
{
    for service in services {
        put_text(out, &service.config.name)?;
        put_text(out, &service.config.display)?;
    }
    Ok(())
}

/// Services as the bytes of a listing.
pub fn listing(services: &[&Service], alloc: Global) -> Result<Items<u8>, OutOfMemory>
    requires { listing_size (map (λ s. s.now) services.now) < 2 ^ 32 }
    ensures { IfOk result (λ bytes. bytes ≡ listing_bytes (map (λ s. s.now) services.now)) }
{
    let mut out = Items::new(alloc);
    put_records(&mut out, services.len() as u32 * 36, services)?;
    put_names(&mut out, services)?;
    Ok(out)
}
