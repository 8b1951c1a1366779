ghost use Rattle.std.specs.Prelude.{◌≡◌, ◌++◌, IfOk, IsOk, OnOk};
ghost use Rattle.std.specs.List.{flat_map};
ghost use Rattle.journal_compact.specs.Compact.{HasCreated, HaveEntries, compact_text};
ghost use Rattle.journal_compact.specs.Compact.{created_entry};

use scm_model::Config;
use scm_text::{Items, OutOfMemory};
use service_record::{put_count, record_bytes};
use std::alloc::Global;

/// What a journal begins with: `SCMJ`, and 2 for the form of its entries.
const HEADER: [u8; 8] = [0x53, 0x43, 0x4D, 0x4A, 2, 0, 0, 0];

/// The kind of an entry that creates a service.
const CREATED: u8 = 1;

/// Adds the entry that creates a service with a configuration.
#[tactic(auto, unfolding(record_journal::specs::Format::entry_in))]
fn put_created(alloc: Global, out: &mut Items<u8>, config: &Config) -> Result<(), OutOfMemory>
    ensures bytes { OnOk result (out.new ≡ out.old ++ created_entry config.now) }
    ensures fits { OnOk result (HasCreated config.now) }
{
    let body = record_bytes(alloc, config)?;
    out.append(&[CREATED])?;
    put_count(out, body.len())?;
    out.append(body.as_slice())
}

/// Adds such an entry for each configuration, in order.
fn put_all(alloc: Global, out: &mut Items<u8>, configs: &[Config]) -> Result<(), OutOfMemory>
    ensures bytes { OnOk result (out.new ≡ out.old ++ flat_map created_entry configs.now) }
    ensures fits { OnOk result (HaveEntries configs.now) }
{
    for config in configs {
        put_created(alloc, out, config)?;
    }
    Ok(())
}

/// The journal of form 2 in which a service is created for each configuration, in order. A
/// configuration whose entry has no length of 32 bits counts as out of memory.
pub fn compact_text(alloc: Global, configs: &Items<Config>) -> Result<Items<u8>, OutOfMemory>
    ensures text { IfOk result (λ text. text ≡ compact_text configs.now) }
    ensures fits { IsOk result → HaveEntries configs.now }
{
    let mut out = Items::from_slice(alloc, &HEADER)?;
    match put_all(alloc, &mut out, configs.as_slice()) {
        Ok(()) => Ok(out),
        Err(OutOfMemory) => {
            drop(out);
            Err(OutOfMemory)
        }
    }
}
