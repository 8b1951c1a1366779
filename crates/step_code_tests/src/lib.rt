//! Codes of entries, each next to its bytes.
#![tactic(auto)]

#[cfg(test)]
mod fronts;
#[cfg(test)]
mod infos;
#[cfg(test)]
mod requests;
#[cfg(test)]
mod steps;
#[cfg(test)]
mod values;
