//! Services as the bytes of a listing, with the sizes of these, and levels of configurations as
//! bytes.
#![tactic(auto)]

mod laws;
mod levels;
mod sizes;
mod writing;

pub use laws::{
    bytes_have_their_sizes, levels_have_their_parts, levels_have_their_sizes, pages_are_longest,
};
pub use levels::level;
pub use sizes::{count, fitting, listing_size};
pub use writing::{listing, process_status};
