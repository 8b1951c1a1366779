//! Tests of the manager and of what makes its steps from lines and from a list, and nothing else:
//! what no clause says, in rows that show answers beside what they answer.
#![tactic(auto)]

#[cfg(test)]
mod generates;
#[cfg(test)]
mod limits;
#[cfg(test)]
mod needs;
#[cfg(test)]
mod replays;
#[cfg(test)]
mod steps;
