//! Tests of texts, bodies, lines, PDUs, sessions and connections, and a desk that counts: what no
//! clause says, in rows that show answers beside what they answer. The bodies of the calls stand in
//! hex beside what they ask or tell, and were written by hand after the formats, and not by the
//! crates below.
#![tactic(auto)]

#[cfg(test)]
mod bodies;
#[cfg(test)]
mod body_rows;
#[cfg(test)]
mod body_words;
#[cfg(test)]
mod bytes;
#[cfg(test)]
mod calls;
#[cfg(test)]
mod connections;
mod counter;
#[cfg(test)]
mod lines;
#[cfg(test)]
mod pdus;
#[cfg(test)]
mod raising;
#[cfg(test)]
mod sessions;
#[cfg(test)]
mod texts;
#[cfg(test)]
mod watched;

pub use counter::Counter;
