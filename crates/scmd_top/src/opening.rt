ghost use Rattle.std.specs.Prelude.{◌≡◌, [], false, true, IfOk, IfSome, None, Some, is_some};
ghost use Rattle.outside.specs.Asked.{text_of};
ghost use Rattle.record_journal.specs.Bearing.{StandsIn, stood_in};
ghost use Rattle.scmd_top.specs.Files.{AsksFor};
ghost use Rattle.scmd_top.specs.Groups.{groups_in};
ghost use Rattle.scmd_top.specs.Opening.{BeginsAt, IsNew, OpensJournal, OpensSettled};
ghost use Rattle.scmd_top.specs.Opening.{beginning_of, status_of_fault};
ghost use Rattle.scmd_top.specs.Parts.{lent};
ghost use Rattle.scmd_top.specs.Sides.{side};

use crate::groups::groups_in;
use crate::limits::LIMITS;
use opening_lines::Opening;
use record_journal::{Journal, JournalFault, Keeper};
use scm_core::Manager;
use scm_model::Config;
use scm_restored::{Opened, open_manager};
use scm_text::{Items, OutOfMemory};
use std::alloc::Global;

/// The status of a program whose journal was not opened.
pub fn status_of_fault(fault: JournalFault) -> u8
    ensures { result ≡ status_of_fault fault }
{
    match fault {
        JournalFault::Failed => 3,
        JournalFault::Damaged(_) => 4,
        JournalFault::OutOfMemory => 8,
    }
}

/// A manager in which nobody and nothing is, at this moment, with the groups of a list.
pub fn new_manager(alloc: Global, names: Option<&str>, moment: u64) -> Result<Manager, OutOfMemory>
    ensures { IfOk result (IsNew (groups_in (lent names.entry)) [] moment) }
{
    let groups = groups_in(alloc, names)?;
    Manager::new(alloc, LIMITS, groups, Items::new(alloc), moment)
}

/// A list without configurations, if one is asked for.
fn no_configs(alloc: Global, asked: bool) -> Option<Items<Config>>
    ensures asked { is_some result ≡ asked }
    ensures none { IfSome result (λ configs. configs ≡ []) }
{
    if asked { Some(Items::new(alloc)) } else { None }
}

/// The same over a keeper that is emptied.
fn open_empty<K: Keeper>(
    alloc: Global,
    keeper: &mut K,
    names: Option<&str>,
    moment: u64,
    copies: bool,
) -> Result<Opened, JournalFault>
    ensures opens { OpensJournal false (groups_in (lent names.entry))
        (side K.held K.faults keeper.old keeper.new) moment result }
    ensures copied { IfOk result (λ opened. is_some opened.configs ≡ copies) }
    ensures settled { OpensSettled (K.settled keeper.old)
        (K.faults keeper.old) (K.faults keeper.new) result (K.settled keeper.new) }
    // A crash after it leaves what is held.
    ensures stands { IfOk result (λ opened. StandsIn
        (stood_in opened.journal.form (K.held keeper.new)) (K.crashes keeper.new)) }
    ensures asked { AsksFor None (K.asked keeper.old) (K.asked keeper.new) result }
{
    let Ok(()) = keeper.open_at(None) else {
        return Err(JournalFault::Failed);
    };
    match new_manager(alloc, names, moment) {
        Ok(manager) => Ok(Opened {
            manager,
            journal: Journal::empty(),
            configs: no_configs(alloc, copies),
        }),
        Err(_) => Err(JournalFault::OutOfMemory),
    }
}

/// The same over what stands under a path.
pub fn open_stored<K: Keeper>(
    alloc: Global,
    keeper: &mut K,
    path: &str,
    names: Option<&str>,
    moment: u64,
    copies: bool,
) -> Result<Opened, JournalFault>
    ensures opens { OpensJournal true (groups_in (lent names.entry))
        (side K.held K.faults keeper.old keeper.new) moment result }
    ensures copied { IfOk result (λ opened. is_some opened.configs ≡ copies) }
    ensures settled { OpensSettled (K.settled keeper.old)
        (K.faults keeper.old) (K.faults keeper.new) result (K.settled keeper.new) }
    // A crash after it leaves what is held.
    ensures stands { IfOk result (λ opened. StandsIn
        (stood_in opened.journal.form (K.held keeper.new)) (K.crashes keeper.new)) }
    ensures asked { AsksFor (Some path.now) (K.asked keeper.old) (K.asked keeper.new) result }
{
    let Ok(groups) = groups_in(alloc, names) else {
        return Err(JournalFault::OutOfMemory);
    };
    open_manager(alloc, LIMITS, groups, keeper, Some(path), moment, copies)
}

/// A manager over what stands under the path, with the groups of a list, at this moment. Without a
/// path the keeper is emptied, and keeps in memory. `copies` asks for a copy of the configurations.
pub fn open_at<K: Keeper>(
    alloc: Global,
    keeper: &mut K,
    path: Option<&str>,
    names: Option<&str>,
    moment: u64,
    copies: bool,
) -> Result<Opened, JournalFault>
    ensures opens { OpensJournal (is_some path.entry) (groups_in (lent names.entry))
        (side K.held K.faults keeper.old keeper.new) moment result }
    ensures copied { IfOk result (λ opened. is_some opened.configs ≡ copies) }
    ensures settled { OpensSettled (K.settled keeper.old)
        (K.faults keeper.old) (K.faults keeper.new) result (K.settled keeper.new) }
    // A crash after it leaves what is held.
    ensures stands { IfOk result (λ opened. StandsIn
        (stood_in opened.journal.form (K.held keeper.new)) (K.crashes keeper.new)) }
    ensures asked { AsksFor (text_of path.entry) (K.asked keeper.old) (K.asked keeper.new) result }
{
    match path {
        Some(path) => open_stored(alloc, keeper, path, names, moment, copies),
        None => open_empty(alloc, keeper, names, moment, copies),
    }
}

/// What a server begins with.
#[derive(Drop)]
pub struct Begun {
    pub manager: Manager,
    pub journal: Journal,
    /// What the manager begins with, if its history is to be exported.
    pub opening: Option<Opening>,
}

/// What a manager with these configurations, if there are any, begins with.
fn opening_with(
    alloc: Global,
    names: Option<&str>,
    configs: Option<Items<Config>>,
    moment: u64,
) -> Result<Option<Opening>, OutOfMemory>
    ensures { IfOk result (λ opening. opening
        ≡ beginning_of (groups_in (lent names.entry)) configs moment) }
{
    let Some(configs) = configs else {
        return Ok(None);
    };
    match groups_in(alloc, names) {
        Ok(groups) => Ok(Some(Opening {
            limits: LIMITS,
            groups,
            configs,
            moment,
        })),
        Err(fault) => {
            drop(configs);
            Err(fault)
        }
    }
}

/// A manager as `open_at` makes it, and what it begins with, if its history is to be exported.
pub fn begin_at<K: Keeper>(
    alloc: Global,
    keeper: &mut K,
    path: Option<&str>,
    names: Option<&str>,
    moment: u64,
    export: bool,
) -> Result<Begun, JournalFault>
    ensures opens { BeginsAt export (is_some path.entry) (groups_in (lent names.entry))
        (side K.held K.faults keeper.old keeper.new) moment result }
    ensures settled { OpensSettled (K.settled keeper.old)
        (K.faults keeper.old) (K.faults keeper.new) result (K.settled keeper.new) }
    // A crash after it leaves what is held.
    ensures stands { IfOk result (λ begun. StandsIn
        (stood_in begun.journal.form (K.held keeper.new)) (K.crashes keeper.new)) }
    ensures asked { AsksFor (text_of path.entry) (K.asked keeper.old) (K.asked keeper.new) result }
{
    match open_at(alloc, keeper, path, names, moment, export) {
        Ok(
            Opened {
                manager,
                journal,
                configs,
            },
        ) => match opening_with(alloc, names, configs, moment) {
            Ok(opening) => Ok(Begun {
                manager,
                journal,
                opening,
            }),
            Err(_) => {
                manager.close();
                Err(JournalFault::OutOfMemory)
            }
        },
        Err(fault) => Err(fault),
    }
}
