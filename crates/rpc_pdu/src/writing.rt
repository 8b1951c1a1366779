ghost use Rattle.std.specs.Prelude.{ℕ, ◌≡◌, ◌++◌, ◌+◌, ◌<◌, ◌≤◌, ◌^◌, [], ◌∷◌, length, OnOk, OnErr};
ghost use Rattle.rpc_pdu.specs.Pdu.{seen_request, seen_response, seen_bind, seen_ack, seen_pdu};
ghost use Rattle.rpc_pdu.specs.ReadBack.{IsExactPdu, IsPduReadBack};
ghost use Rattle.rpc_pdu.specs.Written.{flags_of, address_padding, zeros, object_bytes};
ghost use Rattle.rpc_pdu.specs.Written.{object_flag};
ghost use Rattle.rpc_pdu.specs.Written.{pdu_header, response_front, request_front, bind_front};
ghost use Rattle.rpc_pdu.specs.Written.{ack_front, ack_size, request_pdu_bytes, response_bytes};
ghost use Rattle.rpc_pdu.specs.Written.{fault_bytes, bind_bytes, ack_bytes, nak_bytes};
ghost use Rattle.rpc_pdu.specs.Written.{result_count};
ghost use Rattle.rpc_pdu.specs.Written.{encoded, IsWritable};

use crate::pdu::{Ack, Bind, FaultPdu, Nak, Pdu, RequestPdu, ResponsePdu};
use scm_text::{Items, OutOfMemory};

fn flags(first: bool, last: bool) -> u8
    ensures value { result ≡ flags_of first last }
    ensures bound { result ≤ 3 }
{
    (if first { 1 } else { 0 }) + (if last { 2 } else { 0 })
}

/// The bytes of a response before its stub.
#[tactic(auto, unfolding(crate::specs::Written::response_front))]
pub fn response_header(r: &ResponsePdu<&[u8]>) -> [u8; 24]
    requires { 24 + length r.now.stub.now < 2 ^ 16 }
    ensures { result ≡ response_front (seen_response r.now) }
{
    let size = ((24 + r.stub.len()) as u16).to_le_bytes();
    let call = r.call.to_le_bytes();
    let hint = r.hint.to_le_bytes();
    let context = r.context.to_le_bytes();
    let flags = flags(r.first, r.last);
    [
        5, 0, 2, flags, 16, 0, 0, 0, size[0], size[1], 0, 0, call[0], call[1], call[2], call[3],
        hint[0], hint[1], hint[2], hint[3], context[0], context[1], 0, 0,
    ]
}

#[tactic(auto, unfolding(crate::specs::Written::request_front))]
fn request_header(r: &RequestPdu<&[u8]>) -> [u8; 24]
    requires { 24 + length (object_bytes r.now.object) + length r.now.stub.now < 2 ^ 16 }
    ensures { result ≡ request_front (seen_request r.now) }
{
    let (object_flag, object) = match &r.object {
        Some(object) => (128, object.len()),
        None => (0, 0),
    };
    let size = ((24 + object + r.stub.len()) as u16).to_le_bytes();
    let call = r.call.to_le_bytes();
    let hint = r.hint.to_le_bytes();
    let context = r.context.to_le_bytes();
    let opnum = r.opnum.to_le_bytes();
    let flags = flags(r.first, r.last) + object_flag;
    [
        5, 0, 0, flags, 16, 0, 0, 0, size[0], size[1], 0, 0, call[0], call[1], call[2], call[3],
        hint[0], hint[1], hint[2], hint[3], context[0], context[1], opnum[0], opnum[1],
    ]
}

/// The bytes of a fault.
pub fn fault_pdu(f: &FaultPdu) -> [u8; 32]
    ensures { result ≡ fault_bytes f.now }
{
    let call = f.call.to_le_bytes();
    let hint = f.hint.to_le_bytes();
    let context = f.context.to_le_bytes();
    let status = f.status.to_le_bytes();
    [
        5, 0, 3, 3, 16, 0, 0, 0, 32, 0, 0, 0, call[0], call[1], call[2], call[3], hint[0], hint[1],
        hint[2], hint[3], context[0], context[1], 0, 0, status[0], status[1], status[2], status[3],
        0, 0, 0, 0,
    ]
}

#[tactic(auto, unfolding(crate::specs::Written::bind_front))]
fn bind_header(kind: u8, b: &Bind<&[u8]>) -> [u8; 28]
    requires { 28 + length b.now.contexts.now < 2 ^ 16 }
    ensures { result ≡ bind_front kind (seen_bind b.now) }
{
    let size = ((28 + b.contexts.len()) as u16).to_le_bytes();
    let call = b.call.to_le_bytes();
    let send = b.transmit.to_le_bytes();
    let receive = b.receive.to_le_bytes();
    let group = b.group.to_le_bytes();
    let count = b.count;
    [
        5, 0, kind, 3, 16, 0, 0, 0, size[0], size[1], 0, 0, call[0], call[1], call[2], call[3],
        send[0], send[1], receive[0], receive[1], group[0], group[1], group[2], group[3], count, 0,
        0, 0,
    ]
}

#[tactic(auto, unfolding(crate::specs::Written::ack_front))]
fn ack_header(kind: u8, a: &Ack<&[u8]>) -> [u8; 26]
    requires { ack_size (seen_ack a.now) < 2 ^ 16 }
    ensures { result ≡ ack_front kind (seen_ack a.now) }
{
    let address = a.address.len();
    let padding = (2 + 3 * address) % 4;
    let size = ((30 + address + padding + a.results.len()) as u16).to_le_bytes();
    let call = a.call.to_le_bytes();
    let send = a.transmit.to_le_bytes();
    let receive = a.receive.to_le_bytes();
    let group = a.group.to_le_bytes();
    let address = (address as u16).to_le_bytes();
    [
        5, 0, kind, 3, 16, 0, 0, 0, size[0], size[1], 0, 0, call[0], call[1], call[2], call[3],
        send[0], send[1], receive[0], receive[1], group[0], group[1], group[2], group[3],
        address[0], address[1],
    ]
}

fn nak_pdu(n: &Nak) -> [u8; 21]
    ensures { result ≡ nak_bytes n.now }
{
    let call = n.call.to_le_bytes();
    let reason = n.reason.to_le_bytes();
    [
        5, 0, 13, 3, 16, 0, 0, 0, 21, 0, 0, 0, call[0], call[1], call[2], call[3], reason[0],
        reason[1], 1, 5, 0,
    ]
}

#[tactic(auto, unfolding(crate::specs::Written::request_pdu_bytes))]
fn write_request(r: &RequestPdu<&[u8]>, out: &mut Items<u8>) -> Result<(), OutOfMemory>
    requires { 24 + length (object_bytes r.now.object) + length r.now.stub.now < 2 ^ 16 }
    ensures ok { OnOk result (out.new ≡ out.old ++ request_pdu_bytes (seen_request r.now)) }
    ensures err { OnErr result (out.new ≡ out.old) }
{
    let start = out.len();
    let header = request_header(r);
    let object: &[u8] = match &r.object {
        Some(object) => object,
        None => &[],
    };
    out.append(&header)?;
    if out.append_pair(object, r.stub).is_err() {
        out.truncate(start);
        return Err(OutOfMemory);
    }
    Ok(())
}

/// The padding after an address of this length, and what follows the three zeros at the front.
#[tactic(auto, unfolding(crate::specs::Written::result_count))]
fn behind_padding(padded: &[u8; 7], address: usize) -> &[u8]
    requires { address < 2 ^ 16 }
    ensures { (count : ℕ) → padded.now ≡ 0 ∷ 0 ∷ 0 ∷ count ∷ 0 ∷ 0 ∷ 0 ∷ []
        → result.now ≡ result_count (address_padding address) count }
{
    match address % 4 {
        0 => &padded[1..],
        1 => &padded[2..],
        2 => &padded[3..],
        _ => padded,
    }
}

/// Writes the answer to a bind, or to an alter_context under its own type.
#[tactic(auto, unfolding(crate::specs::Written::ack_bytes))]
fn write_ack(kind: u8, a: &Ack<&[u8]>, out: &mut Items<u8>) -> Result<(), OutOfMemory>
    requires { ack_size (seen_ack a.now) < 2 ^ 16 }
    ensures ok { OnOk result (out.new ≡ out.old ++ ack_bytes kind (seen_ack a.now)) }
    ensures err { OnErr result (out.new ≡ out.old) }
{
    let before = out.len();
    out.append_pair(&ack_header(kind, a), a.address)?;
    let padded = [0, 0, 0, a.count, 0, 0, 0];
    let count = behind_padding(&padded, a.address.len());
    if out.append_pair(count, a.results).is_err() {
        out.truncate(before);
        return Err(OutOfMemory);
    }
    Ok(())
}

/// Appends the bytes of a PDU, or nothing.
#[tactic(auto, unfolding(crate::specs::Written::bind_bytes, crate::specs::Written::response_bytes))]
fn append_pdu(pdu: &Pdu<&[u8]>, out: &mut Items<u8>) -> Result<(), OutOfMemory>
    requires { IsWritable (seen_pdu pdu.now) }
    ensures ok { OnOk result (out.new ≡ out.old ++ encoded (seen_pdu pdu.now)) }
    ensures err { OnErr result (out.new ≡ out.old) }
{
    match pdu {
        Pdu::Request(request) => write_request(request, out),
        Pdu::Response(response) => out.append_pair(&response_header(response), response.stub),
        Pdu::Fault(fault) => out.append(&fault_pdu(fault)),
        Pdu::Bind(bind) => out.append_pair(&bind_header(11, bind), bind.contexts),
        Pdu::Alter(bind) => out.append_pair(&bind_header(14, bind), bind.contexts),
        Pdu::BindAck(ack) => write_ack(12, ack, out),
        Pdu::AlterAck(ack) => write_ack(15, ack, out),
        Pdu::BindNak(nak) => out.append(&nak_pdu(nak)),
    }
}

/// Appends the bytes of a PDU (C706, chapter 12), or nothing. A bind with an authentication isn't
/// written.
pub fn write_pdu(pdu: &Pdu<&[u8]>, out: &mut Items<u8>) -> Result<(), OutOfMemory>
    requires { IsWritable (seen_pdu pdu.now) }
    ensures ok { OnOk result (out.new ≡ out.old ++ encoded (seen_pdu pdu.now)) }
    ensures err { OnErr result (out.new ≡ out.old) }
    // What is written is read back as the PDU, whatever bytes follow it.
    ensures read_back { IsExactPdu (seen_pdu pdu.now) → IsPduReadBack (seen_pdu pdu.now) }
{
    append_pdu(pdu, out)
}
