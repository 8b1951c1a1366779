ghost use Rattle.std.specs.Prelude.{◌≡◌, IfOk};
ghost use Rattle.scm_summary.specs.Summary.{summary};

use crate::counting::calls;
use crate::lines::{add_callers, add_numbered};
use scm_text::{Items, OutOfMemory};
use scm_trail::Trail;
use std::alloc::Global;

/// What a history came to that left so many services. The trail holds all of it.
pub fn summary_of(alloc: Global, trail: &Trail, services: u64) -> Result<Items<u8>, OutOfMemory>
    requires { trail.now.past ≡ 0 }
    ensures { IfOk result (λ text. text ≡ summary trail.now.entries services) }
{
    let calls = calls(alloc, trail)?;
    let mut text = Items::new(alloc);
    add_numbered(&mut text, "steps ", trail.len())?;
    add_callers(&mut text, &calls)?;
    add_numbered(&mut text, "services ", services)?;
    Ok(text)
}
