//! The service manager's starts: how they begin and end, and what becomes of launches.
#![tactic(auto)]

mod starting;

pub use starting::{
    end_start, fail_launch, finish, launched, start, start_entries, start_verdict, take_launch,
    tick,
};
