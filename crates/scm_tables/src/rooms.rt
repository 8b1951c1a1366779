ghost use Rattle.std.specs.Prelude.{◌≡◌, ◌≤◌, [], All, IfOk, IsOk, OnOk, length};
ghost use Rattle.scm_tables.specs.Rooms.{IsCommandRoom, IsStartRoom};

use scm_text::{Buffer, OutOfMemory, TextRoom, WText};
use std::alloc::Global;

/// How many units a command has at most.
const COMMAND_ROOM: u32 = 2048;

/// The lists of a plan without a caller.
#[derive(Drop)]
pub struct StartRoom {
    /// For the services that it goes by.
    pub entries: Buffer<u64>,
    /// For those that it will have tried.
    pub tried: Buffer<u64>,
}

/// What the launch of a command is made of.
#[derive(Drop)]
pub struct CommandRoom {
    pub text: TextRoom,
    /// For the one word.
    pub words: Buffer<WText>,
}

/// Room for a plan that goes by so many services.
fn start_room(alloc: Global, services: usize) -> Result<StartRoom, OutOfMemory>
    ensures { IfOk result (IsStartRoom services) }
{
    let entries = Buffer::with_room(alloc, services)?;
    let tried = Buffer::with_room(alloc, services)?;
    Ok(StartRoom { entries, tried })
}

/// Room for a command.
fn command_room(alloc: Global) -> Result<CommandRoom, OutOfMemory>
    ensures { IfOk result IsCommandRoom }
{
    let text = TextRoom::new(alloc, COMMAND_ROOM)?;
    let words = Buffer::with_room(alloc, 1)?;
    Ok(CommandRoom { text, words })
}

/// Makes the rooms for plans up to so many. Those that are there stay.
pub fn fill_starts(
    rooms: &mut Vec<StartRoom>,
    count: usize,
    services: usize,
    alloc: Global,
) -> Result<(), OutOfMemory>
    requires { All (IsStartRoom services) rooms.old.items }
    ensures rooms { All (IsStartRoom services) rooms.new.items }
    ensures more { length rooms.old.items ≤ length rooms.new.items }
    ensures count { OnOk result (count ≤ length rooms.new.items) }
    ensures enough { count ≤ length rooms.old.items → IsOk result }
{
    while rooms.len() < count {
        let room = start_room(alloc, services)?;
        if rooms.push(room).is_err() {
            return Err(OutOfMemory);
        }
    }
    Ok(())
}

/// Makes the rooms for commands up to so many. Those that are there stay.
pub fn fill_commands(
    rooms: &mut Vec<CommandRoom>,
    count: usize,
    alloc: Global,
) -> Result<(), OutOfMemory>
    requires { All IsCommandRoom rooms.old.items }
    ensures rooms { All IsCommandRoom rooms.new.items }
    ensures more { length rooms.old.items ≤ length rooms.new.items }
    ensures count { OnOk result (count ≤ length rooms.new.items) }
    ensures enough { count ≤ length rooms.old.items → IsOk result }
{
    while rooms.len() < count {
        let room = command_room(alloc)?;
        if rooms.push(room).is_err() {
            return Err(OutOfMemory);
        }
    }
    Ok(())
}
