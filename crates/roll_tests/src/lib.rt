//! Runs of the small object that threads take turns at, by one thread and by many.
#![tactic(auto)]

#[cfg(test)]
mod runs;
