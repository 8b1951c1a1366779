//! What tests of several crates build their values with.
#![tactic(auto)]

ghost use Rattle.std.specs.Prelude.{◌≡◌, ◌++◌, [], ◌∷◌, IfOk, OnOk};
ghost use Rattle.test_values.specs.Built.{restart_after, units_of, unnamed};

use scm_model::{Action, Config};
use scm_text::{Items, OutOfMemory, WText};
use std::alloc::Global;

/// Appends letters in ASCII. A 0 is left out.
pub fn append_ascii(text: &mut WText, ascii: &str) -> Result<(), OutOfMemory>
    ensures { OnOk result (text.new ≡ text.old ++ units_of ascii.now) }
{
    for byte in ascii.as_bytes() {
        if 0 < *byte {
            text.append_unit(u16::from(*byte))?;
        }
    }
    Ok(())
}

/// A text in ASCII. A 0 is left out.
pub fn text(alloc: Global, ascii: &str) -> Result<WText, OutOfMemory>
    ensures { IfOk result (λ text. text ≡ units_of ascii.now) }
{
    let mut text = WText::new(alloc);
    match append_ascii(&mut text, ascii) {
        Ok(()) => Ok(text),
        Err(why) => {
            drop(text);
            Err(why)
        }
    }
}

/// A restart after a second.
pub fn restart(alloc: Global) -> Result<Items<Action>, OutOfMemory>
    ensures { IfOk result (λ actions. actions ≡ restart_after 1000 ∷ []) }
{
    let restart = Action {
        what: 1,
        delay: 1000,
    };
    match Vec::from_array(alloc, [restart]) {
        Ok(actions) => Ok(Items::from_vec(actions)),
        Err(_) => Err(OutOfMemory),
    }
}

/// A configuration without texts and needs, of a service that a call starts and that has a process
/// of its own.
pub fn unnamed(alloc: Global) -> Config
    ensures { result ≡ unnamed }
{
    Config {
        name: WText::new(alloc),
        display: WText::new(alloc),
        kind: 0x10,
        start: 3,
        error: 1,
        path: WText::new(alloc),
        group: WText::new(alloc),
        tag: 0,
        needs: Items::new(alloc),
        description: WText::new(alloc),
        reset: 0,
        actions: Items::new(alloc),
        command: WText::new(alloc),
        on_exit: false,
        delayed: false,
        triggers: Items::new(alloc),
    }
}
