ghost use Rattle.std.specs.Prelude.{◌≡◌, unwrap_or, IfOk};
ghost use Rattle.scm_arms_service.specs.Replaced.{config_parts, with_parts};
ghost use Rattle.std.specs.Cmp.Lexicographic.{pointwise};
ghost use Rattle.scm_rules.specs.Change.{config_alike, config_with, display_or, end_alike};
ghost use Rattle.scm_rules.specs.Change.{front_alike, is_need, middle_alike, number_or, tag_or};

use super::making::shown;
use super::needing::needs_or;
use scm_model::codes::{SERVICE_AUTO_START, SERVICE_NO_CHANGE};
use scm_model::{ChangeService, Config, Need};
use scm_tables::Tables;
use scm_text::{Items, OutOfMemory, WText};
use std::alloc::Global;
use std::mem::replace;

/// The number that is asked for, or the old one.
fn number_or(old: u32, asked: u32) -> u32
    ensures { result ≡ number_or old asked }
{
    if asked == SERVICE_NO_CHANGE {
        old
    } else {
        asked
    }
}

/// The text that is asked for, or the old one.
pub fn text_or<'a>(old: &'a WText, asked: &'a Option<WText>) -> &'a WText
    ensures { result.now ≡ unwrap_or asked.now old.now }
{
    match asked {
        Some(text) => text,
        None => old,
    }
}

/// The display name that is asked for, or the old one. An empty one is the name.
fn display_or<'a>(old: &'a Config, asked: &'a Option<WText>) -> &'a WText
    ensures { result.now ≡ display_or old.now asked.now }
{
    match asked {
        Some(_) => shown(&old.name, asked),
        None => &old.display,
    }
}

/// The tag of a service in the group that it will be in.
pub fn tag_or(tables: &Tables, old: &Config, change: &ChangeService) -> u32
    ensures { result ≡ tag_or tables.now.flat old.now
        (unwrap_or change.now.group old.now.group) change.now.tag }
{
    match change.tag {
        Some(_) => tables.next_tag(text_or(&old.group, &change.group)),
        None => old.tag,
    }
}

/// What a change puts in place of what was there.
#[derive(Drop)]
struct Parts {
    display: WText,
    kind: u32,
    start: u32,
    error: u32,
    path: WText,
    group: WText,
    tag: u32,
    needs: Items<Need>,
    delayed: bool,
}

/// What is asked for, or what was there, apart from the tag. Needs that can't be read leave the old
/// ones.
fn parts_of(
    old: &Config,
    change: &ChangeService,
    tag: u32,
    alloc: Global,
) -> Result<Parts, OutOfMemory>
    ensures { IfOk result (λ parts. parts ≡ config_parts tag old.now change.now) }
{
    let start = number_or(old.start, change.start);
    Ok(Parts {
        display: display_or(old, &change.display).copy(alloc)?,
        kind: number_or(old.kind, change.kind),
        start,
        error: number_or(old.error, change.error),
        path: text_or(&old.path, &change.path).copy(alloc)?,
        group: text_or(&old.group, &change.group).copy(alloc)?,
        tag,
        needs: needs_or(old.needs.as_slice(), &change.needs, alloc)?,
        delayed: old.delayed && start == SERVICE_AUTO_START,
    })
}

/// A configuration with other parts.
fn with_parts(mut old: Config, parts: Parts) -> Config
    ensures { result ≡ with_parts old parts }
{
    let Parts {
        display,
        kind,
        start,
        error,
        path,
        group,
        tag,
        needs,
        delayed,
    } = parts;
    drop(replace(&mut old.display, display));
    old.kind = kind;
    old.start = start;
    old.error = error;
    drop(replace(&mut old.path, path));
    drop(replace(&mut old.group, group));
    old.tag = tag;
    drop(replace(&mut old.needs, needs));
    old.delayed = delayed;
    old
}

/// The new configuration.
pub fn config_with(
    old: &Config,
    change: &ChangeService,
    tag: u32,
    alloc: Global,
) -> Result<Config, OutOfMemory>
    ensures { IfOk result (λ config. config ≡ config_with tag old.now change.now) }
{
    let parts = parts_of(old, change, tag, alloc)?;
    let old = old.copy(alloc)?;
    Ok(with_parts(old, parts))
}

fn is_need(old: &Need, new: &Need) -> bool
    ensures { result ≡ is_need old.now new.now }
{
    match (old, new) {
        (Need::Service(old), Need::Service(new)) | (Need::Group(old), Need::Group(new)) => {
            old.units() == new.units()
        }
        _ => false,
    }
}

fn are_needs(old: &[Need], new: &[Need]) -> bool
    ensures { result ≡ pointwise is_need old.now new.now }
{
    if old.len() != new.len() {
        return false;
    }
    for i in 0..old.len() {
        if !is_need(&old[i], &new[i]) {
            return false;
        }
    }
    true
}

fn front_alike(old: &Config, new: &Config) -> bool
    ensures { result ≡ front_alike old.now new.now }
{
    old.name.units() == new.name.units()
        && old.display.units() == new.display.units()
        && old.kind == new.kind
        && old.start == new.start
        && old.error == new.error
        && old.path.units() == new.path.units()
}

fn middle_alike(old: &Config, new: &Config) -> bool
    ensures { result ≡ middle_alike old.now new.now }
{
    old.group.units() == new.group.units()
        && old.tag == new.tag
        && are_needs(old.needs.as_slice(), new.needs.as_slice())
        && old.description.units() == new.description.units()
}

fn end_alike(old: &Config, new: &Config) -> bool
    ensures { result ≡ end_alike old.now new.now }
{
    old.reset == new.reset
        && old.actions.as_slice() == new.actions.as_slice()
        && old.command.units() == new.command.units()
        && old.on_exit == new.on_exit
        && old.delayed == new.delayed
        && old.triggers.as_slice() == new.triggers.as_slice()
}

/// Whether two configurations are equal, unit for unit. It takes no memory.
pub fn are_alike(old: &Config, new: &Config) -> bool
    ensures { result ≡ config_alike old.now new.now }
{
    front_alike(old, new) && middle_alike(old, new) && end_alike(old, new)
}
