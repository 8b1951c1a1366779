ghost use Rattle.std.specs.Prelude.{◌≡◌, IfOk};
ghost use Rattle.scm_generate.specs.Summary.{four_lines};

use scm_summary::add_numbered;
use scm_text::{Items, OutOfMemory};
use std::alloc::Global;

/// The four lines of a summary.
pub fn summary_lines(
    alloc: Global,
    steps: u64,
    services: u64,
    launches: u64,
    running: u64,
) -> Result<Items<u8>, OutOfMemory>
    ensures { IfOk result (λ text. text ≡ four_lines steps services launches running) }
{
    let mut text = Items::new(alloc);
    add_numbered(&mut text, "steps ", steps)?;
    add_numbered(&mut text, "services ", services)?;
    add_numbered(&mut text, "launches ", launches)?;
    add_numbered(&mut text, "running ", running)?;
    Ok(text)
}
