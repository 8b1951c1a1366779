//! Tests of the book, and nothing else: rows of the answers to one caller, many callers in threads
//! of their own, whose closed history a manager alone replays with the same answers, and
//! connections, each alone at a book of its own.
#![tactic(auto)]

#[cfg(test)]
mod crowds;
#[cfg(test)]
mod pipes;
#[cfg(test)]
mod raising;
#[cfg(test)]
mod replays;
#[cfg(test)]
mod ringing;
#[cfg(test)]
mod rows;
#[cfg(test)]
mod starts;
#[cfg(test)]
mod talking;
