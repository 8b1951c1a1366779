//! What each step of the service manager answers and makes of its state, as definitions. No code
//! stands here.
#![tactic(auto)]
