//! The PDUs of connection-oriented RPC (C706, chapter 12) as bytes, both ways.
#![tactic(auto)]

mod pdu;
mod reading;
mod writing;

pub use pdu::{Ack, Bind, FaultPdu, Nak, Pdu, PduKind, PduRead, RequestPdu, ResponsePdu};
pub use reading::{Context, read_context, read_pdu, read_reply_pdu};
pub use writing::{fault_pdu, response_header, write_pdu};
