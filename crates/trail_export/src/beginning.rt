// A manager that begins as a history did.
ghost use Rattle.std.specs.Prelude.{◌≡◌, ◌++◌, ◌∷◌, [], IfOk, OnOk};
ghost use Rattle.scm_core.specs.Managed.{AreSmall};
ghost use Rattle.scm_rules.specs.Opening.{CanOpen};
ghost use Rattle.trail_text.specs.Histories.{first_of};

use opening_lines::Opening;
use scm_core::Manager;
use scm_model::{Config, copy_texts};
use scm_text::{Items, OutOfMemory};
use std::alloc::Global;

/// Appends a copy of a configuration.
fn add_copy(alloc: Global, copies: &mut Items<Config>, config: &Config) -> Result<(), OutOfMemory>
    ensures { OnOk result (copies.new ≡ copies.old ++ config.now ∷ []) }
{
    let copy = config.copy(alloc)?;
    match copies.push(copy) {
        Ok(()) => Ok(()),
        Err(failed) => {
            drop(failed);
            Err(OutOfMemory)
        }
    }
}

/// Appends copies of some configurations.
fn add_copies(
    alloc: Global,
    copies: &mut Items<Config>,
    configs: &[Config],
) -> Result<(), OutOfMemory>
    ensures { OnOk result (copies.new ≡ copies.old ++ configs.now) }
{
    for config in configs {
        add_copy(alloc, copies, config)?;
    }
    Ok(())
}

/// A copy of some configurations.
fn copy_configs(alloc: Global, configs: &[Config]) -> Result<Items<Config>, OutOfMemory>
    ensures { IfOk result (λ copies. copies ≡ configs.now) }
{
    let mut copies = Items::new(alloc);
    match add_copies(alloc, &mut copies, configs) {
        Ok(()) => Ok(copies),
        Err(fault) => {
            drop(copies);
            Err(fault)
        }
    }
}

/// A manager of its own that begins so.
pub fn manager_from(alloc: Global, opening: &Opening) -> Result<Manager, OutOfMemory>
    requires small { AreSmall opening.now.limits }
    requires can { CanOpen opening.now.limits opening.now.configs }
    ensures flat { IfOk result (λ manager. manager.flat ≡ first_of opening.now) }
    ensures limits { IfOk result (λ manager. manager.limits ≡ opening.now.limits) }
    ensures steps { IfOk result (λ manager. manager.steps ≡ 0) }
{
    let groups = copy_texts(opening.groups.as_slice(), alloc)?;
    match copy_configs(alloc, opening.configs.as_slice()) {
        Ok(configs) => Manager::new(alloc, opening.limits, groups, configs, opening.moment),
        Err(fault) => {
            drop(groups);
            Err(fault)
        }
    }
}
