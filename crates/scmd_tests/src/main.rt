//! What no clause says of the program: that calls succeed, and that bodies, answers and statuses
//! are those of the formats. `sc` goes through a session of an administrator here, too. In
//! `hostile`, malicious input, devices that fail and callers that go have a table each.
#![tactic(auto)]

#[cfg(test)]
mod children;
#[cfg(test)]
mod connections;
#[cfg(test)]
mod cuts;
#[cfg(test)]
mod faults;
#[cfg(test)]
mod feeds;
#[cfg(test)]
mod hostile;
#[cfg(test)]
mod input;
#[cfg(test)]
mod keepers;
#[cfg(test)]
mod launches;
#[cfg(test)]
mod links;
#[cfg(test)]
mod plays;
#[cfg(test)]
mod rows;
#[cfg(test)]
mod rundowns;
#[cfg(test)]
mod running;
#[cfg(test)]
mod runs;
#[cfg(test)]
mod sc_asking;
#[cfg(test)]
mod sc_rows;
#[cfg(test)]
mod sc_session;
#[cfg(test)]
mod serving;
#[cfg(test)]
mod stores;
#[cfg(test)]
mod talks;

use std::io;

/// The program does nothing: the crate is there for its tests.
fn main(_rt: HostRuntime) -> io::Result<()> {
    Ok(())
}
