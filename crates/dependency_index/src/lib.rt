//! Needs: which services a service needs, and in which order they are started.
#![tactic(auto)]

mod dependents;
mod graph;
mod index;
mod keeping;
mod naming;
mod order;
mod rows;
mod steps;
mod visit;

pub use dependents::{dependents_follow_their_rule, dependents_need_it_by_name};
pub use graph::{Graph, NeedRows, NewRow};
pub use index::DependencyIndex;
pub use naming::{StateLook, is_named};
pub use order::{
    closes_cycle, cycles_are_told, has_cycle, makes_cycle, order_follows_its_rule, order_of,
};
pub use rows::meets;
pub use steps::Steps;
pub use visit::StateOf;
