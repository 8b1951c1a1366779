ghost use Rattle.std.specs.Prelude.{◌≡◌, ◌≤◌, OnOk, OnErr, length, get_or, None};
ghost use Rattle.std.specs.FinMap as map;
ghost use Rattle.rpc_pdu.specs.Contexts.{contexts_of};
ghost use Rattle.rpc_session.specs.Contexts.{known_after, listed, AreBelow};

use crate::contexts::{Interface, accepted, answer_of};
use rpc_pdu::read_context;
use scm_text::OutOfMemory;
use std::alloc::Global;
use std::marker::Model;

/// The contexts that are accepted. Contracts see which interface stands under an id.
#[derive(Drop)]
pub struct Known {
    /// By id. What lies beyond it isn't accepted.
    table: Vec<Option<Interface>>,
}

impl Model for Known {
    ghost use Rattle.std.specs.Coded.{coded_ℕ};
    ghost use Rattle.std.specs.FinMap as map;
    ghost use Rattle.rpc_session.specs.Contexts.{Interfaces, listed, coded_interface};

    ghost Value = { Interfaces };

    ghost coded = { map.code coded_ℕ coded_interface };

    ghost view = { λ k. listed k.table.items };
}

/// What a table lists under an id.
fn table_at(table: &Vec<Option<Interface>>, id: u16) -> Option<Interface>
    ensures { result ≡ get_or table.now.items id None }
{
    let id = usize::from(id);
    if id < table.len() { table[id] } else { None }
}

/// Makes the table so long at least.
fn widen(table: &mut Vec<Option<Interface>>, room: usize) -> Result<(), OutOfMemory>
    ensures same { listed table.new.items ≡ listed table.old.items }
    ensures room { OnOk result (room ≤ length table.new.items) }
{
    if room <= table.len() {
        return Ok(());
    }
    if table.resize(room, None).is_err() {
        return Err(OutOfMemory);
    }
    Ok(())
}

/// Enters the answers to this many contexts, each in place of an earlier one.
fn enter(table: &mut Vec<Option<Interface>>, count: u8, contexts: &[u8])
    requires { AreBelow (length table.old.items) (contexts_of count contexts.now) }
    ensures { listed table.new.items ≡ known_after (listed table.old.items)
        (contexts_of count contexts.now) }
{
    let mut rest = contexts;
    for _ in 0..count {
        let Some((context, after)) = read_context(rest) else {
            break;
        };
        table[usize::from(context.id)] = accepted(answer_of(&context));
        rest = after;
    }
}

impl Known {
    /// No context is accepted. It takes no memory.
    pub fn new(alloc: Global) -> Self
        ensures { result ≡ map.empty }
    {
        Known {
            table: Vec::new(alloc),
        }
    }

    /// The interface that is accepted under an id.
    pub fn interface(&self, id: u16) -> Option<Interface>
        ensures { result ≡ map.get self.now id }
    {
        table_at(&self.table, id)
    }

    /// Takes the answers to this many contexts, or none. All their ids are below `room`.
    pub fn take(&mut self, room: usize, count: u8, contexts: &[u8]) -> Result<(), OutOfMemory>
        requires { AreBelow room (contexts_of count contexts.now) }
        ensures ok { OnOk result (self.new ≡
            known_after self.old (contexts_of count contexts.now)) }
        ensures err { OnErr result (self.new ≡ self.old) }
    {
        widen(&mut self.table, room)?;
        enter(&mut self.table, count, contexts);
        Ok(())
    }
}
