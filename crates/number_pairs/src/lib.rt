//! Pairs of a key and a number in order, so that the numbers under a key are found by one search.
#![tactic(auto)]

mod pairs;

pub use pairs::{NumberPairs, Pair};
