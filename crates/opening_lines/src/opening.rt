use scm_model::{Config, Limits};
use scm_text::{Items, WText};

/// What a manager begins with.
#[derive(Drop)]
pub struct Opening {
    pub limits: Limits,
    /// The listed groups, whose services start first.
    pub groups: Items<WText>,
    pub configs: Items<Config>,
    /// In milliseconds.
    pub moment: u64,
}
