/// What a job of the program meets outside: a source, a sink, a keeper, two listeners, a spawner
/// and a clock.
#[derive(Drop)]
pub struct JobWorld<I, O, K, N, P, C> {
    pub input: I,
    pub output: O,
    /// Keeps the journal of the configurations.
    pub keeper: K,
    /// Hands out the connections of administrators.
    pub admin: N,
    /// Hands out those of users.
    pub user: N,
    /// Starts the programs of services.
    pub spawner: P,
    pub clock: C,
}

/// What a run of the program meets outside: what a job does, and a store, which may keep the
/// journal in place of the keeper.
#[derive(Drop)]
pub struct World<I, O, K, Q, N, P, C> {
    pub input: I,
    pub output: O,
    /// Keeps the journal of the configurations in a plain file.
    pub keeper: K,
    /// Keeps the journal of the configurations, whatever a crash leaves.
    pub store: Q,
    /// Hands out the connections of administrators.
    pub admin: N,
    /// Hands out those of users.
    pub user: N,
    /// Starts the programs of services.
    pub spawner: P,
    pub clock: C,
}
