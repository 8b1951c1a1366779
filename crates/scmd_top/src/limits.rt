use scm_model::Limits;

/// How much there may be of what, in every job.
pub const LIMITS: Limits = Limits {
    services: 1024,
    handles: 1024,
    registrations: 64,
    callers: 64,
    processes: 128,
    controls: 16,
    steps: 16_777_216,
    text: 268_435_456,
};
