//! Tests of the parts, of the manager's tables and of the list of a history's entries, and nothing
//! else: what no clause says, in rows that show answers beside what they answer.
#![tactic(auto)]

#[cfg(test)]
mod access;
#[cfg(test)]
mod bench;
#[cfg(test)]
mod controls;
#[cfg(test)]
mod handles;
#[cfg(test)]
mod marks;
#[cfg(test)]
mod moves;
#[cfg(test)]
mod needs;
#[cfg(test)]
mod pairs;
#[cfg(test)]
mod records;
#[cfg(test)]
mod services;
#[cfg(test)]
mod starts;
#[cfg(test)]
mod trail;
#[cfg(test)]
mod unasked;
#[cfg(test)]
mod values;
