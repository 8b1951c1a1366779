use crate::values::{has_call, has_unkept};
use scm_model::{Info, Kept, Request, TriggerIn};
use scm_text::{Items, OutOfMemory};
use std::alloc::Global;
use std::test::*;
use test_values::{restart, text};

/// What starts a service when it is raised.
const TRIGGER: TriggerIn = TriggerIn {
    kind: 20,
    action: 1,
    subtype: Some([0xF, 0xE, 0xD, 0xC, 0xB, 0xA, 9, 8, 7, 6, 5, 4, 3, 2, 1, 0]),
    items: 0,
};

fn change2(info: Info) -> Request {
    Request::Change2 { handle: 3, info }
}

fn description(alloc: Global) -> Result<Request, OutOfMemory> {
    Ok(change2(Info::Description(Some(text(alloc, "d")?))))
}

/// A restart after a second, and no command.
fn failure(alloc: Global) -> Result<Request, OutOfMemory> {
    Ok(change2(Info::Failure {
        reset: 60,
        command: None,
        actions: Some(restart(alloc)?),
    }))
}

fn triggers(alloc: Global) -> Result<Request, OutOfMemory> {
    match Vec::from_array(alloc, [TRIGGER]) {
        Ok(triggers) => Ok(change2(Info::Triggers(Items::from_vec(triggers)))),
        Err(_) => Err(OutOfMemory),
    }
}

#[test]
fn levels_with_lists_have_codes(rt: HostRuntime) -> Result<(), Fail> {
    assert!(rt;
        has_call(
            rt.alloc(),
            description(rt.alloc())?,
            Kept::Kept,
            &[
                0x25, 0, 3, 0, 0, 0, 0, 0, 0, 0, 0, 1, 1, 0, 0, 0, 0x64, 0, 1
            ]
        )
    );
    assert!(rt; has_call(rt.alloc(), failure(rt.alloc())?, Kept::Kept, &[
        0x25, 0, 3, 0, 0, 0, 0, 0, 0, 0, // opnum, handle
        1, 0x3C, 0, 0, 0, 0, // failures: reset period, command
        1, 1, 0, 0, 0, 1, 0, 0, 0, 0xE8, 3, 0, 0, // actions
        1,
    ]));
    assert!(rt; has_call(rt.alloc(), triggers(rt.alloc())?, Kept::Kept, &[
        0x25, 0, 3, 0, 0, 0, 0, 0, 0, 0, // opnum, handle
        4, 1, 0, 0, 0, 20, 0, 0, 0, 1, 0, 0, 0, // triggers: how many, type, action
        1, 0xF, 0xE, 0xD, 0xC, 0xB, 0xA, 9, 8, 7, 6, 5, 4, 3, 2, 1, 0, // subtype
        0, 0, 0, 0, 1,
    ]));
    Ok(())
}

#[test]
fn other_levels_have_codes(rt: HostRuntime) {
    assert!(rt;
        has_call(
            rt.alloc(),
            change2(Info::Delayed(true)),
            Kept::Kept,
            &[0x25, 0, 3, 0, 0, 0, 0, 0, 0, 0, 2, 1, 1]
        )
    );
    assert!(rt;
        has_call(
            rt.alloc(),
            change2(Info::OnExit(false)),
            Kept::Kept,
            &[0x25, 0, 3, 0, 0, 0, 0, 0, 0, 0, 3, 0, 1]
        )
    );
    assert!(rt;
        has_unkept(
            rt.alloc(),
            change2(Info::Other(7)),
            &[0x25, 0, 3, 0, 0, 0, 0, 0, 0, 0, 5, 7, 0, 0, 0, 0]
        )
    );
    assert!(rt;
        has_unkept(
            rt.alloc(),
            change2(Info::Nothing(8)),
            &[0x25, 0, 3, 0, 0, 0, 0, 0, 0, 0, 6, 8, 0, 0, 0, 0]
        )
    );
}
