//! The lines of an opening, before the first entry.
ghost use Rattle.std.specs.Prelude.{◌≡◌, ◌&&◌, ◌+◌, ◌<◌, ◌^◌, IfOk, OnErr, OnOk};
ghost use Rattle.std.specs.Prelude.{length, nat_lt};
ghost use Rattle.scm_model.specs.declared.steps.Change.TheVariants.{Created};
ghost use Rattle.record_journal.specs.Entries.{can_replay};
ghost use Rattle.record_journal.specs.Opening.{CanBegin};
ghost use Rattle.record_journal.specs.Replay.{after_change};
ghost use Rattle.trail_text.specs.Audits.{BeforeLimits, BeforeMoment, are_small, config_next};
ghost use Rattle.trail_text.specs.Audits.{group_next, if_added, next};
ghost use Rattle.std.specs.Option.{option_or};
ghost use Rattle.trail_text.specs.Histories.{AreAuditable, first_of};
ghost use Rattle.trail_audit.specs.Heads.{CanStart, IsSound, IsUnlisted, Takes, head_at};
ghost use Rattle.trail_audit.specs.Heads.{head_next, opening_of, start_of};
ghost use Rattle.trail_audit.specs.declared.head.Stage.TheVariants as stages;

use super::entering::Entering;
use opening_lines::{read_config, read_group, read_limits, read_moment};
use record_journal::Configs;
use scm_model::{Change, Config, Limits};
use scm_text::{Buffer, Items, OutOfMemory, WText};
use std::alloc::Global;
use std::mem::replace;

/// What the first two lines say.
#[derive(Clone, Copy)]
pub struct Start {
    pub limits: Limits,
    /// In milliseconds.
    pub moment: u64,
}

/// Which line may come next.
#[derive(Clone, Copy)]
pub enum Stage {
    BeforeLimits,
    BeforeMoment(Limits),
    /// A group, or what may come after the groups.
    InGroups(Start),
    /// A configuration, or the first entry.
    InConfigs(Start),
}

/// What the lines after them list.
#[derive(Drop)]
pub struct Lists {
    pub groups: Items<WText>,
    pub configs: Configs,
    /// How many configurations there are.
    pub services: u64,
}

/// What the lines so far say.
#[derive(Drop)]
pub struct Head {
    pub stage: Stage,
    pub lists: Lists,
}

impl Stage {
    /// What the first two lines said, if both were read.
    pub fn start(&self) -> Option<Start>
        ensures { result ≡ start_of self.now }
    {
        match *self {
            Stage::BeforeLimits | Stage::BeforeMoment(_) => None,
            Stage::InGroups(start) => Some(start),
            Stage::InConfigs(start) => Some(start),
        }
    }
}

impl Lists {
    /// Lists of nothing.
    fn new(alloc: Global) -> Result<Lists, OutOfMemory>
        ensures { IfOk result IsUnlisted }
    {
        let configs = Configs::new(alloc)?;
        Ok(Lists {
            groups: Items::new(alloc),
            configs,
            services: 0,
        })
    }
}

impl Head {
    /// No line was read.
    pub fn new(alloc: Global) -> Result<Head, OutOfMemory>
        ensures at { IfOk result (λ head. head_at head ≡ BeforeLimits) }
        ensures sound { IfOk result IsSound }
    {
        let lists = Lists::new(alloc)?;
        Ok(Head {
            stage: Stage::BeforeLimits,
            lists,
        })
    }
}

/// Whether no limit is greater than the program's.
fn are_small(limits: &Limits) -> bool
    ensures { result ≡ are_small limits.now }
{
    limits.services <= 1024
        && limits.handles <= 1024
        && limits.registrations <= 64
        && limits.callers <= 64
        && limits.processes <= 128
        && limits.controls <= 16
        && limits.steps <= 16_777_216
        && limits.text <= 268_435_456
}

fn take_limits(alloc: Global, head: &mut Head, line: &[u8]) -> Result<bool, OutOfMemory>
    requires { IsUnlisted head.old.lists }
    ensures ok { IfOk result (Takes (next BeforeLimits line.now) head.old head.new) }
    ensures err { OnErr result (head.new ≡ head.old) }
{
    let Some(limits) = read_limits(alloc, line)? else {
        return Ok(false);
    };
    if !are_small(&limits) {
        return Ok(false);
    }
    head.stage = Stage::BeforeMoment(limits);
    Ok(true)
}

fn take_moment(
    alloc: Global,
    head: &mut Head,
    limits: Limits,
    line: &[u8],
) -> Result<bool, OutOfMemory>
    requires small { AreAuditable limits }
    requires unlisted { IsUnlisted head.old.lists }
    ensures ok { IfOk result (Takes (next (BeforeMoment limits) line.now) head.old head.new) }
    ensures err { OnErr result (head.new ≡ head.old) }
{
    match read_moment(alloc, line)? {
        Some(moment) => {
            head.stage = Stage::InGroups(Start { limits, moment });
            Ok(true)
        }
        None => Ok(false),
    }
}

fn take_group(
    alloc: Global,
    head: &mut Head,
    start: Start,
    line: &[u8],
) -> Result<bool, OutOfMemory>
    requires { CanStart start.limits head.old.lists }
    ensures ok { IfOk result (Takes (group_next (opening_of start head.old.lists) line.now)
        head.old head.new) }
    ensures err { OnErr result (head.new ≡ head.old) }
{
    let Some(group) = read_group(alloc, line)? else {
        return Ok(false);
    };
    match head.lists.groups.push(group) {
        Ok(()) => {
            head.stage = Stage::InGroups(start);
            Ok(true)
        }
        Err(_) => Err(OutOfMemory),
    }
}

/// Whether a service may be created so, beside those that are listed.
fn can_add(
    lists: &Lists,
    searched: &mut Buffer<u64>,
    limits: &Limits,
    change: &Change,
) -> Result<bool, OutOfMemory>
    requires { CanStart limits.now lists.now }
    ensures { IfOk result (λ can. can ≡ (can_replay lists.now.configs change.now
        && nat_lt (length lists.now.configs) limits.now.services)) }
{
    let can = lists.configs.can_replay(change, searched)?;
    Ok(can && lists.services < limits.services as u64)
}

/// Lists the configuration that a change creates.
fn list_config(head: &mut Head, start: Start, change: Change) -> Result<(), OutOfMemory>
    requires begins { CanBegin head.old.lists.configs }
    requires few { head.old.lists.services < 2 ^ 32 }
    ensures configs { OnOk result
        (head.new.lists.configs ≡ after_change head.old.lists.configs change) }
    ensures groups { OnOk result (head.new.lists.groups ≡ head.old.lists.groups) }
    ensures services { OnOk result
        (head.new.lists.services ≡ head.old.lists.services + 1) }
    ensures stage { OnOk result (head.new.stage ≡ stages.InConfigs start) }
    ensures err { OnErr result (head.new ≡ head.old) }
{
    head.lists.configs.apply(change)?;
    head.lists.services += 1;
    head.stage = Stage::InConfigs(start);
    Ok(())
}

fn add_config(
    head: &mut Head,
    searched: &mut Buffer<u64>,
    start: Start,
    config: Config,
) -> Result<bool, OutOfMemory>
    requires { CanStart start.limits head.old.lists }
    ensures ok { IfOk result (Takes (if_added (opening_of start head.old.lists) config)
        head.old head.new) }
    ensures err { OnErr result (head.new ≡ head.old) }
{
    let change = Change::Created(config);
    match can_add(&head.lists, searched, &start.limits, &change) {
        Ok(true) => {
            list_config(head, start, change)?;
            Ok(true)
        }
        Ok(false) => {
            drop(change);
            Ok(false)
        }
        Err(OutOfMemory) => {
            drop(change);
            Err(OutOfMemory)
        }
    }
}

fn take_config(
    alloc: Global,
    head: &mut Head,
    searched: &mut Buffer<u64>,
    start: Start,
    line: &[u8],
) -> Result<bool, OutOfMemory>
    requires { CanStart start.limits head.old.lists }
    ensures ok { IfOk result (Takes (config_next (opening_of start head.old.lists) line.now)
        head.old head.new) }
    ensures err { OnErr result (head.new ≡ head.old) }
{
    match read_config(alloc, line)? {
        Some(config) => add_config(head, searched, start, config),
        None => Ok(false),
    }
}

/// Takes a line that lists a group or, after the groups, a configuration.
fn take_listed(
    alloc: Global,
    head: &mut Head,
    searched: &mut Buffer<u64>,
    start: Start,
    line: &[u8],
) -> Result<bool, OutOfMemory>
    requires { CanStart start.limits head.old.lists }
    ensures ok { IfOk result (Takes (option_or
        (group_next (opening_of start head.old.lists) line.now)
        (config_next (opening_of start head.old.lists) line.now)) head.old head.new) }
    ensures err { OnErr result (head.new ≡ head.old) }
{
    if take_group(alloc, head, start, line)? {
        return Ok(true);
    }
    take_config(alloc, head, searched, start, line)
}

/// Takes the next line, if it is one of the opening that may come. The list is used as room.
pub fn take_head(
    alloc: Global,
    head: &mut Head,
    searched: &mut Buffer<u64>,
    line: &[u8],
) -> Result<bool, OutOfMemory>
    requires { IsSound head.old }
    ensures ok { IfOk result (Takes (head_next (head_at head.old) line.now) head.old head.new) }
    ensures err { OnErr result (head.new ≡ head.old) }
{
    match head.stage {
        Stage::BeforeLimits => take_limits(alloc, head, line),
        Stage::BeforeMoment(limits) => take_moment(alloc, head, limits, line),
        Stage::InGroups(start) => take_listed(alloc, head, searched, start, line),
        Stage::InConfigs(start) => take_config(alloc, head, searched, start, line),
    }
}

/// Makes what makes the entries, of the opening that was read. The lists are then empty.
pub fn begin(alloc: Global, lists: &mut Lists, start: Start) -> Result<Entering, OutOfMemory>
    requires { CanStart start.limits lists.old }
    ensures flat { IfOk result (λ made. made.flat ≡ first_of (opening_of start lists.old)) }
    ensures limits { IfOk result (λ made. made.limits ≡ start.limits) }
    ensures steps { IfOk result (λ made. made.steps ≡ 0) }
    ensures can { CanStart start.limits lists.new }
{
    let empty = Lists::new(alloc)?;
    let Lists {
        groups,
        mut configs,
        services: _,
    } = replace(lists, empty);
    let taken = configs.take_all(alloc);
    drop(configs);
    match taken {
        Ok(configs) => Entering::new(alloc, start.limits, groups, configs, start.moment),
        Err(OutOfMemory) => {
            drop(groups);
            Err(OutOfMemory)
        }
    }
}
