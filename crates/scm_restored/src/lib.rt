//! A manager over what a keeper has.
#![tactic(auto)]

mod configs;

ghost use Rattle.std.specs.Prelude.{◌≡◌, ◌≤◌, IfOk, IsErrOf, OnOk, is_some};
ghost use Rattle.outside.specs.Asked.{text_of};
ghost use Rattle.outside.specs.Causes.{Rose};
ghost use Rattle.record_journal.specs.Bearing.{Bears, StandsIn, stood_in};
ghost use Rattle.record_journal.specs.Crashes.{Crashing};
ghost use Rattle.record_journal.specs.Keepers.{Settles, opened_at};
ghost use Rattle.record_journal.specs.Opening.{AsksAt, IsOpened};
ghost use Rattle.scm_core.specs.Managed.{AreSmall};
ghost use Rattle.scm_rules.specs.Opening.{IsOpening};
ghost use Rattle.scm_restored.specs.Restored.{Comes, IsUnmoved};

use crate::configs::copied_if;
use record_journal::{Journal, JournalFault, Keeper, Restored, open_journal};
use scm_core::Manager;
use scm_model::{Config, Limits};
use scm_text::{Items, WText};
use std::alloc::Global;

/// A manager that made no step, and the journal of its configurations.
#[derive(Drop)]
pub struct Opened {
    pub manager: Manager,
    pub journal: Journal,
    /// The configurations that the manager began with, if a copy of them was asked for.
    pub configs: Option<Items<Config>>,
}

/// Opens a keeper, and makes a manager whose services have the configurations that its journal
/// results in: each is stopped, and never ran. Those that start by themselves are due, in the order
/// of these groups. If there was no memory for the manager, the keeper stays as the opening of its
/// journal left it. `copies` asks for a copy of the configurations.
pub fn open_manager<K: Keeper>(
    alloc: Global,
    limits: Limits,
    groups: Items<WText>,
    keeper: &mut K,
    path: Option<&str>,
    moment: u64,
    copies: bool,
) -> Result<Opened, JournalFault>
    requires places { 1024 ≤ limits.services }
    requires small { AreSmall limits }
    ensures comes { Comes limits groups moment (is_some path.entry)
        (K.held keeper.old) (K.held keeper.new) result }
    ensures opens { IfOk result (λ opened. IsOpening limits opened.manager.flat) }
    ensures copied { IfOk result (λ opened. is_some opened.configs ≡ copies) }
    ensures unmoved { IfOk result (λ opened. IsUnmoved limits opened.manager) }
    ensures bears { IfOk result (λ opened.
        Bears (stood_in opened.journal.form (K.held keeper.new)) opened.journal
        (K.held keeper.new)) }
    ensures grows { K.faults keeper.old ≤ K.faults keeper.new }
    ensures cause { IsErrOf result JournalFault.Failed →
        Rose (K.faults keeper.old) (K.faults keeper.new) }
    ensures kept { OnOk result (K.faults keeper.new ≡ K.faults keeper.old) }
    ensures settled { Settles (K.faults keeper.old) (K.faults keeper.new) result
        (K.settled keeper.new) }
    // A crash on the way leaves what was there, or what is read as it.
    ensures moments { Crashing (λ x. IsOpened (opened_at (is_some path.entry) x))
        (K.held keeper.old) (K.crashes keeper.old) (K.crashes keeper.new) }
    // A crash after it leaves what is held.
    ensures stands { IfOk result (λ opened.
        StandsIn (stood_in opened.journal.form (K.held keeper.new)) (K.crashes keeper.new)) }
    ensures asked { AsksAt (text_of path.entry)
        (K.asked keeper.old) (K.asked keeper.new) result }
{
    let Restored { journal, configs } = open_journal(alloc, keeper, path)?;
    let Ok(copy) = copied_if(alloc, copies, &configs) else {
        drop(groups);
        drop(configs);
        return Err(JournalFault::OutOfMemory);
    };
    match Manager::new(alloc, limits, groups, configs, moment) {
        Ok(manager) => Ok(Opened {
            manager,
            journal,
            configs: copy,
        }),
        Err(_) => {
            drop(copy);
            Err(JournalFault::OutOfMemory)
        }
    }
}
