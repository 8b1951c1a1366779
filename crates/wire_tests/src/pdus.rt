use crate::bytes::bytes;
use rpc_pdu::{
    Ack, Bind, Pdu, PduRead, RequestPdu, read_context, read_pdu, read_reply_pdu, write_pdu,
};
use scm_text::Items;
use std::alloc::Global;
use std::test::Fail;

/// A bind of one context, as a client sends it.
const BIND: &str = "05000b03 10000000 48000000 01000000 d016d016 00000000 01000000 00000100 \
     81bb7a364498f135ad3298f038001003 02000000 045d888aeb1cc9119fe808002b104860 02000000";

fn request(alloc: Global, r: &RequestPdu<&[u8]>) -> Result<String, Fail> {
    let stub = hex::encode(alloc, r.stub)?;
    let object = match r.object {
        Some(object) => hex::encode(alloc, object.as_slice())?,
        None => String::new(alloc),
    };
    Ok(format!(in alloc;
        "request of call {}, context {}, opnum {}, object [{object}], hint {}, stub [{stub}]",
        r.call, r.context, r.opnum, r.hint
    )?)
}

fn bind(alloc: Global, what: &str, b: &Bind<&[u8]>) -> Result<String, Fail> {
    Ok(format!(in alloc;
        "{what} of call {}, auth {}, transmit {}, receive {}, group {}, contexts {}",
        b.call, b.auth, b.transmit, b.receive, b.group, b.count
    )?)
}

fn ack(alloc: Global, a: &Ack<&[u8]>) -> Result<String, Fail> {
    let address = hex::encode(alloc, a.address)?;
    let results = hex::encode(alloc, a.results)?;
    Ok(format!(in alloc;
        "bind_ack of call {}, transmit {}, receive {}, group {}, address [{address}], \
        {} result [{results}]",
        a.call, a.transmit, a.receive, a.group, a.count
    )?)
}

/// What a PDU says, its bytes in hex.
fn said(alloc: Global, pdu: &Pdu<&[u8]>) -> Result<String, Fail> {
    match pdu {
        Pdu::Request(r) => request(alloc, r),
        Pdu::Response(r) => {
            let stub = hex::encode(alloc, r.stub)?;
            Ok(format!(in alloc;
                "response to call {}, context {}, hint {}, stub [{stub}]",
                r.call, r.context, r.hint
            )?)
        }
        Pdu::Fault(f) => Ok(format!(in alloc;
            "fault of call {}, context {}, hint {}, status {:#x}",
            f.call, f.context, f.hint, f.status
        )?),
        Pdu::Bind(b) => bind(alloc, "bind", b),
        Pdu::Alter(b) => bind(alloc, "alter_context", b),
        Pdu::BindAck(a) => ack(alloc, a),
        Pdu::AlterAck(_) | Pdu::BindNak(_) => Err("another PDU".into()),
    }
}

/// What stands at the front of some bytes.
fn found(alloc: Global, read: &PduRead<&[u8]>) -> Result<String, Fail> {
    match read {
        PduRead::Whole(pdu, used) => {
            let pdu = said(alloc, pdu)?;
            Ok(format!(in alloc; "{used}: {pdu}")?)
        }
        PduRead::Short(needed) => Ok(format!(in alloc; "{needed} bytes are needed")?),
        PduRead::Bad(kind) => Ok(format!(in alloc; "bad {kind}")?),
    }
}

#[test]
fn requests_and_binds_are_read(rt: HostRuntime) -> Result<(), Fail> {
    let rows = [
        (
            BIND,
            "72: bind of call 1, auth 0, transmit 5840, receive 5840, group 0, contexts 1",
        ),
        (
            // Behind an authentication nothing is read.
            "05000b03 10000000 1c000800 01000000 d016d016 00000000 01000000",
            "28: bind of call 1, auth 8, transmit 0, receive 0, group 0, contexts 0",
        ),
        (
            "05000e03 10000000 1c000000 09000000 d016b80b 07000000 00000000",
            "28: alter_context of call 9, auth 0, transmit 5840, receive 3000, group 7, contexts 0",
        ),
        (
            // Another PDU follows it.
            "05000003 10000000 1c000000 02000000 04000000 00000f00 01020304 05000003",
            "28: request of call 2, context 0, opnum 15, object [], hint 4, stub [01020304]",
        ),
        (
            "05000083 10000000 2c000000 03000000 14000000 00000000 \
             00112233445566778899aabbccddeeff 01020304",
            "44: request of call 3, context 0, opnum 0, object [00112233445566778899aabbccddeeff], \
             hint 20, stub [01020304]",
        ),
        ("05000b03 10000000 48000000 010000", "16 bytes are needed"),
        ("05000b03 10000000 48000000 01000000", "72 bytes are needed"),
    ];
    for (digits, want) in rows {
        let pdu = bytes(rt.alloc(), digits)?;
        assert_eq!(rt;
            found(rt.alloc(), &read_pdu(pdu.as_slice()))?.as_str(),
            want
        );
    }
    Ok(())
}

#[test]
fn contexts_of_a_bind_are_read(rt: HostRuntime) -> Result<(), Fail> {
    let pdu = bytes(rt.alloc(), BIND)?;
    let PduRead::Whole(Pdu::Bind(bind), 72) = read_pdu(pdu.as_slice()) else {
        return Err("a bind".into());
    };
    let (context, rest) = read_context(bind.contexts).ok_or("a context")?;
    let rows = [
        (
            context.abstract_syntax,
            "81bb7a364498f135ad3298f038001003 02000000",
        ),
        (
            context.transfer_syntaxes,
            "045d888aeb1cc9119fe808002b104860 02000000",
        ),
        (rest, ""),
    ];
    assert_eq!(rt; context.id, 0);
    for (part, want) in rows {
        assert_eq!(rt; part, bytes(rt.alloc(), want)?.as_slice());
    }
    Ok(())
}

#[test]
fn the_first_kind_that_applies_is_told(rt: HostRuntime) -> Result<(), Fail> {
    let mut pdu = bytes(
        rt.alloc(),
        "04000c01 00000000 0f000800 01000000 d016d016 00000000 00000000",
    )?;
    // Each row's byte mends what the row tells.
    let rows = [
        ("bad version", 0, 5),
        ("bad type", 2, 14),
        ("bad data representation", 4, 16),
        ("bad fragment length", 8, 27),
        ("bad authentication", 10, 0),
        ("bad flags", 3, 3),
        ("bad body", 8, 28),
        (
            "28: alter_context of call 1, auth 0, transmit 5840, receive 5840, group 0, contexts 0",
            0,
            5,
        ),
    ];
    for (want, place, mended) in rows {
        assert_eq!(rt;
            found(rt.alloc(), &read_pdu(pdu.as_slice()))?.as_str(),
            want
        );
        assert!(rt; place < pdu.len());
        pdu[place] = mended;
    }
    Ok(())
}

/// A short reply as it is read and written again.
fn written(alloc: Global, pdu: &[u8]) -> Result<Items<u8>, Fail> {
    let mut out = Items::new(alloc);
    let told = match read_reply_pdu(pdu) {
        PduRead::Whole(Pdu::Response(r), _) if r.stub.len() < 100 => {
            write_pdu(&Pdu::Response(r), &mut out)
        }
        PduRead::Whole(Pdu::BindAck(a), _) if a.address.len() < 100 && a.results.len() < 100 => {
            write_pdu(&Pdu::BindAck(a), &mut out)
        }
        PduRead::Whole(Pdu::Fault(f), _) => write_pdu(&Pdu::Fault(f), &mut out),
        _ => return Err("no reply".into()),
    };
    told.ok().ok_or("memory")?;
    Ok(out)
}

#[test]
fn replies_are_read_and_written_byte_for_byte(rt: HostRuntime) -> Result<(), Fail> {
    let rows = [
        (
            "05000c03 10000000 38000000 01000000 d016d016 01000000 010000 00 01000000 \
             00000000 045d888aeb1cc9119fe808002b104860 02000000",
            "56: bind_ack of call 1, transmit 5840, receive 5840, group 1, address [00], \
             1 result [00000000045d888aeb1cc9119fe808002b10486002000000]",
        ),
        (
            "05000203 10000000 1c000000 02000000 04000000 00000000 01020304",
            "28: response to call 2, context 0, hint 4, stub [01020304]",
        ),
        (
            "05000303 10000000 20000000 04000000 00000000 00000000 0200011c 00000000",
            "32: fault of call 4, context 0, hint 0, status 0x1c010002",
        ),
    ];
    for (digits, want) in rows {
        let pdu = bytes(rt.alloc(), digits)?;
        assert_eq!(rt;
            found(rt.alloc(), &read_reply_pdu(pdu.as_slice()))?.as_str(),
            want
        );
        assert_eq!(rt;
            written(rt.alloc(), pdu.as_slice())?.as_slice(),
            pdu.as_slice()
        );
    }
    Ok(())
}
