//! Rows of security descriptors: what is read of bytes and of texts, what is written as either, and
//! what is allowed. They come from the public standard, not from the crates below.
#![tactic(auto)]

#[cfg(test)]
mod bytes;
#[cfg(test)]
mod descriptor_rows;
#[cfg(test)]
mod descriptors;
#[cfg(test)]
mod text_rows;
#[cfg(test)]
mod texts;
