//! Tests of the journal and its keepers, and nothing else: bytes that are stated outside, what
//! stands after each fault, and what is read.
#![tactic(auto)]

#[cfg(test)]
mod bytes;
#[cfg(test)]
mod faults;
#[cfg(test)]
mod files;
#[cfg(test)]
mod keepers;
#[cfg(test)]
mod opening;
#[cfg(test)]
mod parts;
#[cfg(test)]
mod upgrading;
#[cfg(test)]
mod values;
