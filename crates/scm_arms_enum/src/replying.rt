ghost use Rattle.std.specs.Prelude.{◌≡◌, ◌<◌, ◌^◌, IfOk, map, option_map};
ghost use Rattle.service_listing.specs.Layout.{listing_size};
ghost use Rattle.scm_rules.specs.EnumDependents.{told_size};
ghost use Rattle.scm_rules.specs.EnumServices.{last_number, page_of};
ghost use Rattle.scm_arms_enum.specs.Replies.{listing_reply, page_reply, page_told};

use scm_model::codes::{ERROR_MORE_DATA, MAX_ENUM_SIZE};
use scm_model::{Reply, Service};
use scm_text::{Items, OutOfMemory};
use service_listing::{count, fitting, listing, listing_size};
use std::alloc::Global;

/// How many bytes a listing takes, as far as numbers go.
fn told_size(rows: &[&Service]) -> u32
    ensures { result ≡ told_size (map (λ s. s.now) rows.now) }
{
    listing_size(rows).min(0xFFFF_FFFF) as u32
}

/// A listing of all services, or how many bytes it would take.
pub fn listing_reply(size: u32, rows: &[&Service], alloc: Global) -> Result<Reply, OutOfMemory>
    ensures { IfOk result (λ reply. reply ≡ listing_reply size (map (λ s. s.now) rows.now)) }
{
    if (size as u64) < listing_size(rows) {
        return Ok(Reply::Listing {
            size,
            bytes: Items::new(alloc),
            needed: told_size(rows),
            returned: 0,
            code: ERROR_MORE_DATA,
        });
    }
    Ok(Reply::Listing {
        size,
        bytes: listing(rows, alloc)?,
        needed: 0,
        returned: count(rows),
        code: 0,
    })
}

/// The number of the last service, as far as numbers go, or another where there is none.
fn last_number(none: u32, rows: &[&Service]) -> u32
    ensures { result ≡ last_number none (map (λ s. s.now) rows.now) }
{
    let mut last = none;
    for row in rows {
        last = row.number.min(0xFFFF_FFFF) as u32;
    }
    last
}

/// The number after which the next page begins, if one was read.
fn resumed(resume: Option<u32>, page: &[&Service]) -> Option<u32>
    ensures { result ≡ option_map (λ read. last_number read (map (λ s. s.now) page.now)) resume }
{
    match resume {
        Some(read) => Some(last_number(read, page)),
        None => None,
    }
}

/// The services of a page, and how many bytes those would take that are left.
fn page_told(
    size: u32,
    resume: Option<u32>,
    page: &[&Service],
    left: &[&Service],
    alloc: Global,
) -> Result<Reply, OutOfMemory>
    requires { listing_size (map (λ s. s.now) page.now) < 2 ^ 32 }
    ensures { IfOk result (λ reply. reply ≡ page_told size resume (map (λ s. s.now) page.now)
        (map (λ s. s.now) left.now)) }
{
    Ok(Reply::Page {
        size,
        bytes: listing(page, alloc)?,
        needed: listing_size(left).min(MAX_ENUM_SIZE as u64) as u32,
        returned: count(page),
        resume: resumed(resume, page),
        code: ERROR_MORE_DATA,
    })
}

/// As many services as fit, from the first one on.
fn page_of(
    size: u32,
    resume: Option<u32>,
    rows: &[&Service],
    alloc: Global,
) -> Result<Reply, OutOfMemory>
    ensures { IfOk result (λ reply. reply ≡ page_of size resume (map (λ s. s.now) rows.now)) }
{
    let given = fitting(rows, size);
    page_told(size, resume, &rows[..given], &rows[given..], alloc)
}

/// A page of all services, or of as many as fit.
pub fn page_reply(
    size: u32,
    resume: Option<u32>,
    rows: &[&Service],
    alloc: Global,
) -> Result<Reply, OutOfMemory>
    ensures { IfOk result (λ reply. reply ≡ page_reply size resume (map (λ s. s.now) rows.now)) }
{
    if (size as u64) < listing_size(rows) {
        return page_of(size, resume, rows, alloc);
    }
    Ok(Reply::Page {
        size,
        bytes: listing(rows, alloc)?,
        needed: 0,
        returned: count(rows),
        resume: match resume {
            Some(_) => Some(0),
            None => None,
        },
        code: 0,
    })
}
