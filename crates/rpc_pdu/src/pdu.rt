use thiserror::Error;

/// The end that reads.
#[derive(Clone, Copy, Debug, PartialEq, Eq)]
pub enum End {
    Server,
    Client,
}

/// The types of PDU that an end reads.
#[derive(Clone, Copy, Debug, PartialEq, Eq)]
pub enum PduType {
    Request,
    Response,
    Fault,
    Bind,
    BindAck,
    BindNak,
    Alter,
    AlterAck,
}

/// Why bytes are no PDU: the first of these that applies. `Order` comes of a session alone.
#[derive(Clone, Copy, Debug, PartialEq, Eq, Error)]
pub enum PduKind {
    /// The version isn't 5.0.
    #[error("version")]
    Version,
    /// This end reads no such type.
    #[error("type")]
    Kind,
    /// The data representation isn't little endian with ASCII and IEEE.
    #[error("data representation")]
    Drep,
    /// The fragment length is shorter than the header.
    #[error("fragment length")]
    Length,
    /// There is an authentication, and the PDU is no bind.
    #[error("authentication")]
    Auth,
    /// A PDU that has no fragments isn't both first and last.
    #[error("flags")]
    Flags,
    /// The fields don't fit in the fragment, or bytes stand after the last context.
    #[error("body")]
    Body,
    /// The PDU stands where its association has no place for it.
    #[error("order")]
    Order,
}

/// A fragment of a request. `hint` says how many stub bytes are still to come from this fragment
/// on.
#[derive(Clone, Copy, Debug)]
pub struct RequestPdu<B> {
    pub call: u32,
    pub first: bool,
    pub last: bool,
    pub hint: u32,
    pub context: u16,
    pub opnum: u16,
    pub object: Option<[u8; 16]>,
    pub stub: B,
}

/// A fragment of a response.
#[derive(Clone, Copy, Debug)]
pub struct ResponsePdu<B> {
    pub call: u32,
    pub first: bool,
    pub last: bool,
    pub hint: u32,
    pub context: u16,
    pub stub: B,
}

/// A fault in answer to a request.
#[derive(Clone, Copy, Debug)]
pub struct FaultPdu {
    pub call: u32,
    pub hint: u32,
    pub context: u16,
    pub status: u32,
}

/// A bind or an alter_context. `contexts` is the bytes of `count` whole contexts. Behind an
/// authentication nothing is read: where `auth` isn't 0, the numbers after it are 0 and `contexts`
/// is empty.
#[derive(Clone, Copy, Debug)]
pub struct Bind<B> {
    pub call: u32,
    pub auth: u16,
    pub transmit: u16,
    pub receive: u16,
    pub group: u32,
    pub count: u8,
    pub contexts: B,
}

/// The answer to a bind or an alter_context. `results` is the bytes of `count` whole results.
#[derive(Clone, Copy, Debug)]
pub struct Ack<B> {
    pub call: u32,
    pub transmit: u16,
    pub receive: u16,
    pub group: u32,
    pub address: B,
    pub count: u8,
    pub results: B,
}

/// A bind that is refused.
#[derive(Clone, Copy, Debug)]
pub struct Nak {
    pub call: u32,
    pub reason: u16,
}

/// A PDU over its bytes, which are mostly borrowed from what was read.
#[derive(Clone, Copy, Debug)]
pub enum Pdu<B> {
    Request(RequestPdu<B>),
    Response(ResponsePdu<B>),
    Fault(FaultPdu),
    Bind(Bind<B>),
    Alter(Bind<B>),
    BindAck(Ack<B>),
    AlterAck(Ack<B>),
    BindNak(Nak),
}

/// What stands at the front of some bytes.
#[derive(Clone, Copy, Debug)]
pub enum PduRead<B> {
    /// A PDU, and how many bytes it takes.
    Whole(Pdu<B>, usize),
    /// The front of a PDU, of which this many bytes are needed.
    Short(usize),
    Bad(PduKind),
}
