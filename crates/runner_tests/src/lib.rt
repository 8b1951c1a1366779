//! Tests of what starts processes over the book, and of the server, with connections, children and
//! ticks side by side over one book, and nothing else: rows that show answers beside what they
//! answer, and a program that obeys.
#![tactic(auto)]

#[cfg(test)]
mod clocks;
#[cfg(test)]
mod connections;
#[cfg(test)]
mod events;
#[cfg(test)]
mod formers;
#[cfg(test)]
mod held;
#[cfg(test)]
mod histories;
#[cfg(test)]
mod launcher;
#[cfg(test)]
mod programs;
#[cfg(test)]
mod sessions;
#[cfg(test)]
mod side;
#[cfg(test)]
mod stored;
