use rpc_pdu::PduKind;

/// How the serving of a connection ended.
#[derive(Clone, Copy, PartialEq, Eq)]
pub enum Served {
    /// The source ended, and no PDU and no request was begun.
    Ended,
    /// The source failed.
    ReadFault,
    /// The sink failed.
    WriteFault,
    /// The source ended within a PDU or a request.
    Truncated,
    /// The PDU at this place of the stream is bad.
    BadPdu(u64, PduKind),
    /// A request's stub would have this length.
    TooLong(u64),
    /// The desk has no room for the next request.
    Full,
    /// As many bytes were read as a connection may have.
    Worn,
    /// There is no memory for what comes next.
    OutOfMemory,
}
