// Copies of configurations.
ghost use Rattle.std.specs.Prelude.{◌≡◌, ◌++◌, ◌∷◌, [], IfOk, IfSome, OnOk, is_some};

use scm_model::Config;
use scm_text::{Items, OutOfMemory};
use std::alloc::Global;

/// Adds a copy of a configuration.
fn add_copy(alloc: Global, copies: &mut Items<Config>, config: &Config) -> Result<(), OutOfMemory>
    ensures { OnOk result (copies.new ≡ copies.old ++ config.now ∷ []) }
{
    match copies.push(config.copy(alloc)?) {
        Ok(()) => Ok(()),
        Err(full) => {
            drop(full);
            Err(OutOfMemory)
        }
    }
}

/// Adds copies of some configurations, in order, to none.
fn add_copies(
    alloc: Global,
    copies: &mut Items<Config>,
    configs: &[Config],
) -> Result<(), OutOfMemory>
    requires none { copies.old ≡ [] }
    ensures { OnOk result (copies.new ≡ configs.now) }
{
    for config in configs {
        add_copy(alloc, copies, config)?;
    }
    Ok(())
}

/// Copies of some configurations, in order.
fn copied(alloc: Global, configs: &[Config]) -> Result<Items<Config>, OutOfMemory>
    ensures { IfOk result (λ copies. copies ≡ configs.now) }
{
    let mut copies = Items::new(alloc);
    match add_copies(alloc, &mut copies, configs) {
        Ok(()) => Ok(copies),
        Err(fault) => {
            drop(copies);
            Err(fault)
        }
    }
}

/// The same, if they are asked for.
pub fn copied_if(
    alloc: Global,
    asked: bool,
    configs: &Items<Config>,
) -> Result<Option<Items<Config>>, OutOfMemory>
    ensures asked { IfOk result (λ copies. is_some copies ≡ asked) }
    ensures same { IfOk result (λ copies. IfSome copies (λ copy. copy ≡ configs.now)) }
{
    if asked {
        Ok(Some(copied(alloc, configs.as_slice())?))
    } else {
        Ok(None)
    }
}
