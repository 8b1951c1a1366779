//! Tests of a child's lines, of command lines, of what starts programs, and of what hands out
//! connections, in memory and on a port of the loopback, and nothing else: rows that show answers
//! beside what they answer, and programs of the system.
#![tactic(auto)]

#[cfg(test)]
mod commands;
#[cfg(test)]
mod in_memory;
#[cfg(test)]
mod lines;
#[cfg(test)]
mod loopback;
#[cfg(test)]
mod programs;
