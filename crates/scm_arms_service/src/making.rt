ghost use Rattle.std.specs.Prelude.{◌≡◌, [], unwrap_or, IfOk};
ghost use Rattle.scm_rules.specs.Create.{created_config, display_of, tag_of, told_tag};

use super::needing::needs_or;
use scm_model::{Config, NewService};
use scm_tables::Tables;
use scm_text::{Items, OutOfMemory, WText};
use std::alloc::Global;

/// The display name of a new service, which is its name where none is given.
pub fn shown<'a>(name: &'a WText, display: &'a Option<WText>) -> &'a WText
    ensures { result.now ≡ display_of name.now display.now }
{
    match display {
        Some(display) => {
            if display.units().len() == 0 {
                name
            } else {
                display
            }
        }
        None => name,
    }
}

/// A copy of a text, or the empty one where it is absent.
fn copy_or_empty(text: &Option<WText>, alloc: Global) -> Result<WText, OutOfMemory>
    ensures { IfOk result (λ copy. copy ≡ unwrap_or text.now []) }
{
    match text {
        Some(text) => text.copy(alloc),
        None => Ok(WText::new(alloc)),
    }
}

/// The tag of a new service: one more than the greatest of its group where one is asked for, else
/// 0.
fn tag_of(tables: &Tables, group: &Option<WText>, asked: Option<u32>) -> u32
    ensures { result ≡ tag_of tables.now.flat (unwrap_or group.now []) asked }
{
    match (asked, group) {
        (Some(_), Some(group)) => {
            if group.units().len() == 0 {
                0
            } else {
                tables.next_tag(group)
            }
        }
        _ => 0,
    }
}

/// The tag where one was asked for.
pub fn told_tag(tag: u32, asked: Option<u32>) -> Option<u32>
    ensures { result ≡ told_tag tag asked }
{
    match asked {
        Some(_) => Some(tag),
        None => None,
    }
}

/// The configuration that a new service is to have. Needs that can't be read are left out of it.
pub fn config_of(tables: &Tables, new: &NewService, alloc: Global) -> Result<Config, OutOfMemory>
    ensures { IfOk result (λ config. config ≡ created_config tables.now.flat new.now) }
{
    Ok(Config {
        name: new.name.copy(alloc)?,
        display: shown(&new.name, &new.display).copy(alloc)?,
        kind: new.kind,
        start: new.start,
        error: new.error,
        path: new.path.copy(alloc)?,
        group: copy_or_empty(&new.group, alloc)?,
        tag: tag_of(tables, &new.group, new.tag),
        needs: needs_or(&[], &new.needs, alloc)?,
        description: WText::new(alloc),
        reset: 0,
        actions: Items::new(alloc),
        command: WText::new(alloc),
        on_exit: false,
        delayed: false,
        triggers: Items::new(alloc),
    })
}
