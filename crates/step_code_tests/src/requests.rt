use crate::values::{has_call, has_unkept};
use scm_model::{Apart, ChangeService, Kept, NewService, Request};
use scm_text::{Items, OutOfMemory, WText};
use std::alloc::Global;
use std::test::*;
use test_values::text;

#[test]
fn calls_of_a_handle_have_codes(rt: HostRuntime) {
    let handle = 3;
    assert!(rt;
        has_unkept(
            rt.alloc(),
            Request::Close { handle },
            &[0, 0, 3, 0, 0, 0, 0, 0, 0, 0, 0]
        )
    );
    assert!(rt;
        has_call(
            rt.alloc(),
            Request::Delete { handle },
            Kept::Failed,
            &[2, 0, 3, 0, 0, 0, 0, 0, 0, 0, 2]
        )
    );
    assert!(rt;
        has_unkept(
            rt.alloc(),
            Request::Lock { handle },
            &[3, 0, 3, 0, 0, 0, 0, 0, 0, 0, 0]
        )
    );
    assert!(rt;
        has_unkept(
            rt.alloc(),
            Request::QueryStatus { handle },
            &[6, 0, 3, 0, 0, 0, 0, 0, 0, 0, 0]
        )
    );
    assert!(rt;
        has_unkept(
            rt.alloc(),
            Request::Unlock { handle },
            &[8, 0, 3, 0, 0, 0, 0, 0, 0, 0, 0]
        )
    );
    assert!(rt;
        has_unkept(
            rt.alloc(),
            Request::GetNotify { handle },
            &[0x30, 0, 3, 0, 0, 0, 0, 0, 0, 0, 0]
        )
    );
    assert!(rt;
        has_unkept(
            rt.alloc(),
            Request::CloseNotify { handle },
            &[0x31, 0, 3, 0, 0, 0, 0, 0, 0, 0, 0]
        )
    );
}

#[test]
fn calls_of_numbers_have_codes(rt: HostRuntime) {
    let handle = 3;
    assert!(rt;
        has_unkept(
            rt.alloc(),
            Request::Control { handle, control: 1 },
            &[1, 0, 3, 0, 0, 0, 0, 0, 0, 0, 1, 0, 0, 0, 0]
        )
    );
    assert!(rt;
        has_unkept(
            rt.alloc(),
            Request::QueryConfig {
                handle,
                size: 0x200
            },
            &[17, 0, 3, 0, 0, 0, 0, 0, 0, 0, 0, 2, 0, 0, 0]
        )
    );
    assert!(rt;
        has_unkept(
            rt.alloc(),
            Request::QueryLock { handle, size: 0x20 },
            &[18, 0, 3, 0, 0, 0, 0, 0, 0, 0, 0x20, 0, 0, 0, 0]
        )
    );
    assert!(rt;
        has_unkept(
            rt.alloc(),
            Request::Notify { handle, mask: 0x11 },
            &[0x2F, 0, 3, 0, 0, 0, 0, 0, 0, 0, 0x11, 0, 0, 0, 0]
        )
    );
    let asked = Request::QuerySecurity {
        handle,
        parts: 4,
        size: 0x100,
    };
    assert!(rt;
        has_unkept(
            rt.alloc(),
            asked,
            &[4, 0, 3, 0, 0, 0, 0, 0, 0, 0, 4, 0, 0, 0, 0, 1, 0, 0, 0]
        )
    );
    let asked = Request::EnumDependents {
        handle,
        states: 3,
        size: 0x40,
    };
    assert!(rt;
        has_unkept(
            rt.alloc(),
            asked,
            &[13, 0, 3, 0, 0, 0, 0, 0, 0, 0, 3, 0, 0, 0, 0x40, 0, 0, 0, 0]
        )
    );
    let asked = Request::QueryConfig2 {
        handle,
        level: 1,
        size: 0x100,
    };
    assert!(rt;
        has_unkept(
            rt.alloc(),
            asked,
            &[0x27, 0, 3, 0, 0, 0, 0, 0, 0, 0, 1, 0, 0, 0, 0, 1, 0, 0, 0]
        )
    );
    let asked = Request::QueryStatusEx {
        handle,
        level: 0,
        size: 0x24,
    };
    assert!(rt;
        has_unkept(
            rt.alloc(),
            asked,
            &[
                0x28, 0, 3, 0, 0, 0, 0, 0, 0, 0, 0, 0, 0, 0, 0x24, 0, 0, 0, 0
            ]
        )
    );
    let asked = Request::EnumServices {
        handle,
        kinds: 0x30,
        states: 1,
        size: 0x40000,
        resume: Some(7),
    };
    assert!(rt; has_unkept(rt.alloc(), asked, &[
        14, 0, 3, 0, 0, 0, 0, 0, 0, 0, // opnum, handle
        0x30, 0, 0, 0, 1, 0, 0, 0, 0, 0, 4, 0, // types, states, size
        1, 7, 0, 0, 0, 0,
    ]));
}

/// Bytes that are copied.
fn bytes_of(alloc: Global, bytes: &[u8]) -> Result<Items<u8>, OutOfMemory> {
    Items::from_slice(alloc, bytes)
}

fn set_security(alloc: Global) -> Result<Request, OutOfMemory> {
    Ok(Request::SetSecurity {
        handle: 3,
        parts: 4,
        bytes: bytes_of(alloc, &[0xAA, 0xBB])?,
    })
}

fn open_service(alloc: Global) -> Result<Request, OutOfMemory> {
    Ok(Request::OpenService {
        handle: 3,
        name: text(alloc, "Db")?,
        access: 0x14,
    })
}

fn display_name(alloc: Global) -> Result<Request, OutOfMemory> {
    Ok(Request::DisplayName {
        handle: 3,
        name: text(alloc, "Db")?,
        size: 9,
    })
}

fn key_name(alloc: Global) -> Result<Request, OutOfMemory> {
    Ok(Request::KeyName {
        handle: 3,
        name: text(alloc, "Db")?,
        size: 9,
    })
}

fn open_manager(alloc: Global) -> Result<Request, OutOfMemory> {
    Ok(Request::OpenManager {
        database: Some(text(alloc, "x")?),
        access: 1,
    })
}

/// The words `a` and an empty one.
fn words(alloc: Global) -> Result<Items<WText>, OutOfMemory> {
    let Ok(word) = text(alloc, "a") else {
        return Err(OutOfMemory);
    };
    match Vec::from_array(alloc, [word, WText::new(alloc)]) {
        Ok(words) => Ok(Items::from_vec(words)),
        Err(_) => Err(OutOfMemory),
    }
}

fn start(alloc: Global) -> Result<Request, OutOfMemory> {
    Ok(Request::Start {
        handle: 3,
        words: Some(words(alloc)?),
    })
}

/// A change of the group to `G` with a new tag, of the needs to none and of the display name.
fn change(alloc: Global) -> Result<Request, OutOfMemory> {
    let (Ok(group), Ok(needs)) = (text(alloc, "G"), bytes_of(alloc, &[0, 0])) else {
        return Err(OutOfMemory);
    };
    let change = ChangeService {
        handle: 3,
        kind: 0x10,
        start: 3,
        error: 1,
        path: None,
        group: Some(group),
        tag: Some(0x105),
        needs: Some(needs),
        account: None,
        display: Some(WText::new(alloc)),
    };
    Ok(Request::Change(Apart::new(alloc, change)?))
}

/// The service `Db` of the program `/a`, for the account `u`.
fn create(alloc: Global) -> Result<Request, OutOfMemory> {
    let (Ok(name), Ok(path), Ok(account)) = (text(alloc, "Db"), text(alloc, "/a"), text(alloc, "u"))
    else {
        return Err(OutOfMemory);
    };
    let new = NewService {
        handle: 3,
        name,
        display: None,
        access: 0xF01FF,
        kind: 0x10,
        start: 2,
        error: 1,
        path,
        group: None,
        tag: None,
        needs: None,
        account: Some(account),
    };
    Ok(Request::Create(Apart::new(alloc, new)?))
}

#[test]
fn calls_of_a_name_have_codes(rt: HostRuntime) -> Result<(), Fail> {
    assert!(rt;
        has_unkept(
            rt.alloc(),
            open_manager(rt.alloc())?,
            &[15, 0, 1, 1, 0, 0, 0, 0x78, 0, 1, 0, 0, 0, 0]
        )
    );
    assert!(rt;
        has_unkept(
            rt.alloc(),
            open_service(rt.alloc())?,
            &[
                16, 0, 3, 0, 0, 0, 0, 0, 0, 0, 2, 0, 0, 0, 0x44, 0, 0x62, 0, 0x14, 0, 0, 0, 0,
            ]
        )
    );
    assert!(rt;
        has_unkept(
            rt.alloc(),
            display_name(rt.alloc())?,
            &[
                20, 0, 3, 0, 0, 0, 0, 0, 0, 0, 2, 0, 0, 0, 0x44, 0, 0x62, 0, 9, 0, 0, 0, 0,
            ]
        )
    );
    assert!(rt;
        has_unkept(
            rt.alloc(),
            key_name(rt.alloc())?,
            &[
                21, 0, 3, 0, 0, 0, 0, 0, 0, 0, 2, 0, 0, 0, 0x44, 0, 0x62, 0, 9, 0, 0, 0, 0,
            ]
        )
    );
    Ok(())
}

#[test]
fn calls_of_texts_have_codes(rt: HostRuntime) -> Result<(), Fail> {
    assert!(rt;
        has_call(
            rt.alloc(),
            set_security(rt.alloc())?,
            Kept::Kept,
            &[
                5, 0, 3, 0, 0, 0, 0, 0, 0, 0, 4, 0, 0, 0, 2, 0, 0, 0, 0xAA, 0xBB, 1
            ]
        )
    );
    assert!(rt; has_unkept(rt.alloc(), start(rt.alloc())?, &[
        19, 0, 3, 0, 0, 0, 0, 0, 0, 0, // opnum, handle
        1, 2, 0, 0, 0, 1, 0, 0, 0, 0x61, 0, 0, 0, 0, 0, // two words
        0,
    ]));
    assert!(rt; has_call(rt.alloc(), change(rt.alloc())?, Kept::Kept, &[
        11, 0, 3, 0, 0, 0, 0, 0, 0, 0, // opnum, handle
        0x10, 0, 0, 0, 3, 0, 0, 0, 1, 0, 0, 0, // type, start, error control
        0, 1, 1, 0, 0, 0, 0x47, 0, // path, group
        1, 5, 1, 0, 0, 1, 2, 0, 0, 0, 0, 0, // tag, needs
        0, 1, 0, 0, 0, 0, // account, display name
        1,
    ]));
    assert!(rt; has_call(rt.alloc(), create(rt.alloc())?, Kept::Kept, &[
        12, 0, 3, 0, 0, 0, 0, 0, 0, 0, // opnum, handle
        2, 0, 0, 0, 0x44, 0, 0x62, 0, 0, // name, display name
        0xFF, 1, 0xF, 0, 0x10, 0, 0, 0, // access, type
        2, 0, 0, 0, 1, 0, 0, 0, // start, error control
        2, 0, 0, 0, 0x2F, 0, 0x61, 0, // path
        0, 0, 0, 1, 1, 0, 0, 0, 0x75, 0, // group, tag, needs, account
        1,
    ]));
    Ok(())
}
