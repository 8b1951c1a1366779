//! The server: connections of listeners over one book.
#![tactic(auto)]

mod accepting;
mod acceptor;
mod all;
mod both;
mod ending;
mod joining;
mod ports;
mod waiter;
mod worker;
mod working;

pub use all::{ServedAll, serve_all};
pub use both::{Both, serve_both};
pub use ending::ServeEnd;
pub use ports::{Port, serve_port};
pub use waiter::BellWaiter;
pub use working::{Worked, work};
