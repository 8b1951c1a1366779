ghost use Rattle.std.specs.Prelude.{◌≡◌, ◌≤◌, length, IfOk, ◌+◌, option_map, is_some, List, ℕ};
ghost use Rattle.std.specs.Prelude.{◌++◌, ◌*◌};
ghost use Rattle.rpc_pdu.specs.Header.{header_at, type_of, header_fault, whole_fault, has_flag};
ghost use Rattle.rpc_pdu.specs.Contexts.{context_at, are_contexts as are_contexts_of, seen_context};
ghost use Rattle.rpc_pdu.specs.Number.{short_at, long_at};
ghost use Rattle.rpc_pdu.specs.declared.pdu.End.TheVariants.{Server, Client};
ghost use Rattle.rpc_pdu.specs.Pdu.{header_of as header_of_front, request_pdu_at, response_at};
ghost use Rattle.rpc_pdu.specs.Pdu.{fault_at, bind_at, ack_at, nak_at, pdu_body, whole_at, pdu_at};
ghost use Rattle.rpc_pdu.specs.Pdu.{seen_request, seen_response, seen_bind, seen_ack, seen_pdu};
ghost use Rattle.rpc_pdu.specs.Pdu.{seen_read, IsSettled, IfWhole};

use crate::pdu::{
    Ack, Bind, End, FaultPdu, Nak, Pdu, PduKind, PduRead, PduType, RequestPdu, ResponsePdu,
};

/// The first sixteen bytes of a PDU.
#[derive(Clone, Copy, Debug)]
pub struct Header {
    pub version: u8,
    pub minor: u8,
    pub kind: u8,
    pub flags: u8,
    pub drep: u32,
    pub length: u16,
    pub auth: u16,
    pub call: u32,
}

pub const HEADER_BYTES: usize = 16;

/// The data representation that is read: little endian, ASCII, IEEE.
const LITTLE_ENDIAN: u32 = 0x10;

const FIRST: u8 = 1;

const LAST: u8 = 2;

const OBJECT: u8 = 0x80;

pub fn header_of(bytes: &[u8]) -> Header
    requires { 16 ≤ length bytes.now }
    ensures { result ≡ header_at bytes.now }
{
    Header {
        version: bytes[0],
        minor: bytes[1],
        kind: bytes[2],
        flags: bytes[3],
        drep: u32::from_le_bytes([bytes[4], bytes[5], bytes[6], bytes[7]]),
        length: u16::from_le_bytes([bytes[8], bytes[9]]),
        auth: u16::from_le_bytes([bytes[10], bytes[11]]),
        call: u32::from_le_bytes([bytes[12], bytes[13], bytes[14], bytes[15]]),
    }
}

/// The type of PDU that a number means to this end.
pub fn kind_of(end: End, kind: u8) -> Option<PduType>
    ensures { result ≡ type_of end kind }
{
    match end {
        End::Server => match kind {
            0 => Some(PduType::Request),
            11 => Some(PduType::Bind),
            14 => Some(PduType::Alter),
            _ => None,
        },
        End::Client => match kind {
            2 => Some(PduType::Response),
            3 => Some(PduType::Fault),
            12 => Some(PduType::BindAck),
            13 => Some(PduType::BindNak),
            15 => Some(PduType::AlterAck),
            _ => None,
        },
    }
}

impl Header {
    pub fn is_first(&self) -> bool
        ensures { result ≡ has_flag 1 self.now.flags }
    {
        self.flags & FIRST != 0
    }

    pub fn is_last(&self) -> bool
        ensures { result ≡ has_flag 2 self.now.flags }
    {
        self.flags & LAST != 0
    }

    pub fn has_object(&self) -> bool
        ensures { result ≡ has_flag 128 self.now.flags }
    {
        self.flags & OBJECT != 0
    }

    /// The type, or why these sixteen bytes alone are no PDU's.
    pub fn check(&self, end: End) -> Result<PduType, PduKind>
        ensures value { result ≡ header_fault end self.now }
        ensures length { IfOk result (λ _. 16 ≤ self.now.length) }
    {
        if self.version != 5 || self.minor != 0 {
            return Err(PduKind::Version);
        }
        let Some(kind) = kind_of(end, self.kind) else {
            return Err(PduKind::Kind);
        };
        if self.drep != LITTLE_ENDIAN {
            return Err(PduKind::Drep);
        }
        if usize::from(self.length) < HEADER_BYTES {
            return Err(PduKind::Length);
        }
        Ok(kind)
    }

    /// Why a whole PDU with this header isn't read, whatever its body is.
    pub fn check_whole(&self, kind: PduType) -> Option<PduKind>
        ensures { result ≡ whole_fault kind self.now }
    {
        if self.auth != 0 && !matches!(kind, PduType::Bind) {
            return Some(PduKind::Auth);
        }
        if !(self.is_first() && self.is_last())
            && !matches!(kind, PduType::Request | PduType::Response)
        {
            return Some(PduKind::Flags);
        }
        None
    }
}

/// A context that a bind offers. A syntax is 20 bytes: its UUID and its version.
#[derive(Clone, Copy, Debug)]
pub struct Context<B> {
    pub id: u16,
    pub abstract_syntax: B,
    /// These one after the other.
    pub transfer_syntaxes: B,
}

pub fn u16_at(bytes: &[u8], at: usize) -> u16
    requires { at + 2 ≤ length bytes.now }
    ensures { result ≡ short_at bytes.now at }
{
    u16::from_le_bytes([bytes[at], bytes[at + 1]])
}

pub fn u32_at(bytes: &[u8], at: usize) -> u32
    requires { at + 4 ≤ length bytes.now }
    ensures { result ≡ long_at bytes.now at }
{
    u32::from_le_bytes([bytes[at], bytes[at + 1], bytes[at + 2], bytes[at + 3]])
}

/// The context at the front of the bytes, and the bytes after it.
#[tactic(auto, unfolding(crate::specs::Contexts::context_at))]
pub fn read_context(bytes: &[u8]) -> Option<(Context<&[u8]>, &[u8])>
    ensures { option_map seen_context result ≡ context_at bytes.now }
{
    if bytes.len() < 24 {
        return None;
    }
    let transfers = 20 * usize::from(bytes[2]);
    if bytes.len() < 24 + transfers {
        return None;
    }
    let context = Context {
        id: u16_at(bytes, 0),
        abstract_syntax: &bytes[4..24],
        transfer_syntaxes: &bytes[24..24 + transfers],
    };
    Some((context, &bytes[24 + transfers..]))
}

/// Whether the bytes are this many whole contexts and nothing more.
pub fn are_contexts(count: u8, bytes: &[u8]) -> bool
    ensures { result ≡ are_contexts_of count bytes.now }
{
    let mut rest = bytes;
    for _ in 0..count {
        let Some((_, after)) = read_context(rest) else {
            return false;
        };
        rest = after;
    }
    rest.is_empty()
}

fn request_of<'a>(header: &Header, pdu: &'a [u8]) -> Option<RequestPdu<&'a [u8]>>
    ensures { option_map seen_request result ≡ request_pdu_at header.now pdu.now }
{
    let stub = if header.has_object() { 40 } else { 24 };
    if pdu.len() < stub {
        return None;
    }
    let object = if header.has_object() {
        let mut object = [0; 16];
        object.copy_from_slice(&pdu[24..40]);
        Some(object)
    } else {
        None
    };
    Some(RequestPdu {
        call: header.call,
        first: header.is_first(),
        last: header.is_last(),
        hint: u32_at(pdu, 16),
        context: u16_at(pdu, 20),
        opnum: u16_at(pdu, 22),
        object,
        stub: &pdu[stub..],
    })
}

fn response_of<'a>(header: &Header, pdu: &'a [u8]) -> Option<ResponsePdu<&'a [u8]>>
    ensures { option_map seen_response result ≡ response_at header.now pdu.now }
{
    if pdu.len() < 24 {
        return None;
    }
    Some(ResponsePdu {
        call: header.call,
        first: header.is_first(),
        last: header.is_last(),
        hint: u32_at(pdu, 16),
        context: u16_at(pdu, 20),
        stub: &pdu[24..],
    })
}

fn fault_of(header: &Header, pdu: &[u8]) -> Option<FaultPdu>
    ensures { result ≡ fault_at header.now pdu.now }
{
    if pdu.len() < 32 {
        return None;
    }
    Some(FaultPdu {
        call: header.call,
        hint: u32_at(pdu, 16),
        context: u16_at(pdu, 20),
        status: u32_at(pdu, 24),
    })
}

fn bind_of<'a>(header: &Header, pdu: &'a [u8]) -> Option<Bind<&'a [u8]>>
    ensures { option_map seen_bind result ≡ bind_at header.now pdu.now }
{
    if header.auth != 0 {
        return Some(Bind {
            call: header.call,
            auth: header.auth,
            transmit: 0,
            receive: 0,
            group: 0,
            count: 0,
            contexts: &[],
        });
    }
    if pdu.len() < 28 {
        return None;
    }
    let (front, contexts) = pdu.split_at(28);
    let count = front[24];
    if !are_contexts(count, contexts) {
        return None;
    }
    Some(Bind {
        call: header.call,
        auth: header.auth,
        transmit: u16_at(pdu, 16),
        receive: u16_at(pdu, 18),
        group: u32_at(pdu, 20),
        count,
        contexts,
    })
}

fn ack_of<'a>(header: &Header, pdu: &'a [u8]) -> Option<Ack<&'a [u8]>>
    ensures { option_map seen_ack result ≡ ack_at header.now pdu.now }
{
    if pdu.len() < 26 {
        return None;
    }
    let address = usize::from(u16_at(pdu, 24));
    let place = 26 + address + (2 + 3 * address) % 4;
    if pdu.len() < place + 4 {
        return None;
    }
    let count = pdu[place];
    let size = 24 * usize::from(count);
    if pdu.len() < place + 4 + size {
        return None;
    }
    Some(Ack {
        call: header.call,
        transmit: u16_at(pdu, 16),
        receive: u16_at(pdu, 18),
        group: u32_at(pdu, 20),
        address: &pdu[26..26 + address],
        count,
        results: &pdu[place + 4..place + 4 + size],
    })
}

fn nak_of(header: &Header, pdu: &[u8]) -> Option<Nak>
    ensures { result ≡ nak_at header.now pdu.now }
{
    if pdu.len() < 21 {
        return None;
    }
    Some(Nak {
        call: header.call,
        reason: u16_at(pdu, 16),
    })
}

fn body_of<'a>(kind: PduType, header: &Header, pdu: &'a [u8]) -> Option<Pdu<&'a [u8]>>
    ensures { option_map seen_pdu result ≡ pdu_body kind header.now pdu.now }
{
    match kind {
        PduType::Request => Some(Pdu::Request(request_of(header, pdu)?)),
        PduType::Response => Some(Pdu::Response(response_of(header, pdu)?)),
        PduType::Fault => Some(Pdu::Fault(fault_of(header, pdu)?)),
        PduType::Bind => Some(Pdu::Bind(bind_of(header, pdu)?)),
        PduType::Alter => Some(Pdu::Alter(bind_of(header, pdu)?)),
        PduType::BindAck => Some(Pdu::BindAck(ack_of(header, pdu)?)),
        PduType::AlterAck => Some(Pdu::AlterAck(ack_of(header, pdu)?)),
        PduType::BindNak => Some(Pdu::BindNak(nak_of(header, pdu)?)),
    }
}

fn whole_of<'a>(kind: PduType, header: &Header, pdu: &'a [u8]) -> PduRead<&'a [u8]>
    ensures value { seen_read result ≡ whole_at kind header.now pdu.now }
    ensures used { IfWhole result (λ used. used ≡ header.now.length) }
{
    if let Some(fault) = header.check_whole(kind) {
        return PduRead::Bad(fault);
    }
    match body_of(kind, header, pdu) {
        Some(body) => PduRead::Whole(body, usize::from(header.length)),
        None => PduRead::Bad(PduKind::Body),
    }
}

/// The header that the first sixteen bytes are.
#[tactic(auto, unfolding(crate::specs::Pdu::header_of))]
fn front_header(bytes: &[u8]) -> Header
    requires { 16 ≤ length bytes.now }
    ensures { result ≡ header_of_front bytes.now }
{
    let (front, _) = bytes.split_at(HEADER_BYTES);
    header_of(front)
}

/// What stands at the front of the bytes, to this end.
#[tactic(auto, unfolding(crate::specs::Pdu::pdu_at))]
fn pdu_of(end: End, bytes: &[u8]) -> PduRead<&[u8]>
    ensures value { seen_read result ≡ pdu_at end bytes.now }
    ensures used { IfWhole result (λ used. (16 ≤ used) × (used ≤ length bytes.now)) }
{
    if bytes.len() < HEADER_BYTES {
        return PduRead::Short(HEADER_BYTES);
    }
    let header = front_header(bytes);
    let kind = match header.check(end) {
        Ok(kind) => kind,
        Err(fault) => return PduRead::Bad(fault),
    };
    let length = usize::from(header.length);
    if bytes.len() < length {
        return PduRead::Short(length);
    }
    whole_of(kind, &header, &bytes[..length])
}

/// What stands at the front of the bytes, to a server (C706, chapter 12). It takes no memory.
pub fn read_pdu(bytes: &[u8]) -> PduRead<&[u8]>
    ensures value { seen_read result ≡ pdu_at Server bytes.now }
    // More bytes change neither a whole PDU nor a bad one.
    ensures settled { IsSettled (pdu_at Server bytes.now) → (more : List ℕ)
        → pdu_at Server (bytes.now ++ more) ≡ pdu_at Server bytes.now }
    ensures used { IfWhole result (λ used. (16 ≤ used) × (used ≤ length bytes.now)) }
{
    pdu_of(End::Server, bytes)
}

/// What stands at the front of the bytes, to a client (C706, chapter 12). It takes no memory.
pub fn read_reply_pdu(bytes: &[u8]) -> PduRead<&[u8]>
    ensures value { seen_read result ≡ pdu_at Client bytes.now }
    // More bytes change neither a whole PDU nor a bad one.
    ensures settled { IsSettled (pdu_at Client bytes.now) → (more : List ℕ)
        → pdu_at Client (bytes.now ++ more) ≡ pdu_at Client bytes.now }
    ensures used { IfWhole result (λ used. (16 ≤ used) × (used ≤ length bytes.now)) }
{
    pdu_of(End::Client, bytes)
}
