// What serves a port.
use crate::worker::Worker;
use outside::Clock;
use record_journal::Keeper;
use scm_book::{Book, Pass};
use scm_listener::Listener;
use scm_model::Principal;
use std::alloc::Global;

/// A listener that is served, between two steps.
#[derive(Drop)]
pub struct Acceptor<K: Keeper, N: Listener, C: Clock> {
    pub by: Pass,
    pub listener: N,
    /// The connections at work.
    pub workers: Vec<Worker<K, N, C>>,
    /// Whether there was no memory for a connection.
    pub is_short: bool,
}

/// What the connections of a port have in common: as whom their callers join, and what they are
/// served with.
#[derive(Drop)]
pub struct Host<'s, R, K: Keeper, C> {
    pub rt: &'s R,
    pub alloc: Global,
    pub book: &'s Book<K>,
    pub clock: &'s C,
    pub principal: Principal,
}
