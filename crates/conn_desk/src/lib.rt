//! One connection, served from a source to a sink by whatever answers its requests.
#![tactic(auto)]

mod asked;
mod desk;
mod reply_buffer;
mod served;
mod serving;

pub use asked::DecodedRequest;
pub use desk::{HandlerError, RequestHandler};
pub use served::Served;
pub use serving::{Stop, serve};
