//! Requests and replies from words. A `-` is none, and a `.` in a text is left out. Without memory
//! less is made, which is then another body.
use scm_model::codes::{
    R_CHANGE_SERVICE_CONFIG_W, R_CHANGE_SERVICE_CONFIG2_W, R_CLOSE_NOTIFY_HANDLE,
    R_CLOSE_SERVICE_HANDLE, R_CONTROL_SERVICE, R_CREATE_SERVICE_W, R_DELETE_SERVICE,
    R_ENUM_DEPENDENT_SERVICES_W, R_ENUM_SERVICES_STATUS_W, R_GET_NOTIFY_RESULTS,
    R_GET_SERVICE_DISPLAY_NAME_W, R_LOCK_SERVICE_DATABASE, R_NOTIFY_SERVICE_STATUS_CHANGE,
    R_OPEN_SC_MANAGER_W, R_OPEN_SERVICE_W, R_QUERY_SERVICE_CONFIG_W, R_QUERY_SERVICE_CONFIG2_W,
    R_QUERY_SERVICE_LOCK_STATUS_W, R_QUERY_SERVICE_OBJECT_SECURITY, R_QUERY_SERVICE_STATUS,
    R_QUERY_SERVICE_STATUS_EX, R_SET_SERVICE_OBJECT_SECURITY, R_SET_SERVICE_STATUS,
    R_START_SERVICE_W, R_UNLOCK_SERVICE_DATABASE,
};
use scm_model::{
    Action, Apart, ChangeService, Info, NewService, ProcessStatus, Reply, Request, Shown, Status,
    TriggerIn,
};
use scm_text::{Items, OutOfMemory, WText};
use std::alloc::Global;

type Words<'a> = &'a [&'static str];

fn word(words: Words, place: usize) -> &'static str {
    words.get(place).copied().unwrap_or("")
}

/// The words after the first.
fn tail(words: Words) -> Words {
    words.get(1..).unwrap_or(&[])
}

fn number(words: Words, place: usize) -> u32 {
    u32::from_str_radix(word(words, place), 16).unwrap_or(0)
}

fn some_number(words: Words, place: usize) -> Option<u32> {
    if word(words, place) == "-" {
        None
    } else {
        Some(number(words, place))
    }
}

fn append(text: &mut WText, byte: u8) -> Result<(), OutOfMemory> {
    if 0 < byte && byte != b'.' {
        text.append_unit(u16::from(byte))
    } else {
        Ok(())
    }
}

fn text(alloc: Global, words: Words, place: usize) -> WText {
    let mut text = WText::new(alloc);
    for byte in word(words, place).as_bytes() {
        let _appended = append(&mut text, *byte);
    }
    text
}

fn some_text(alloc: Global, words: Words, place: usize) -> Option<WText> {
    if word(words, place) == "-" {
        None
    } else {
        Some(text(alloc, words, place))
    }
}

/// One name, as a body has a list of them.
fn needs(alloc: Global, words: Words, place: usize) -> Option<Items<u8>> {
    if word(words, place) == "-" {
        return None;
    }
    let mut bytes = Items::new(alloc);
    for byte in word(words, place).as_bytes() {
        let _appended = bytes.append(&[*byte, 0]);
    }
    let _ended = bytes.append(&[0, 0, 0, 0]);
    Some(bytes)
}

fn texts(alloc: Global, words: Words) -> Items<WText> {
    let mut texts = Items::new(alloc);
    for place in 0..words.len() {
        let _pushed = texts.push(text(alloc, words, place)).is_ok();
    }
    texts
}

fn status(words: Words) -> Status {
    Status {
        kind: number(words, 0),
        state: number(words, 1),
        accepted: number(words, 2),
        win32: number(words, 3),
        specific: number(words, 4),
        checkpoint: number(words, 5),
        hint: number(words, 6),
    }
}

fn change(alloc: Global, words: Words, handle: u64) -> Request {
    let change = ChangeService {
        handle,
        kind: number(words, 1),
        start: number(words, 2),
        error: number(words, 3),
        path: some_text(alloc, words, 4),
        group: some_text(alloc, words, 5),
        tag: some_number(words, 6),
        needs: needs(alloc, words, 7),
        account: some_text(alloc, words, 8),
        display: some_text(alloc, words, 9),
    };
    match Apart::new(alloc, change) {
        Ok(change) => Request::Change(change),
        Err(_) => Request::Close { handle },
    }
}

fn creation(alloc: Global, words: Words, handle: u64) -> Request {
    let new = NewService {
        handle,
        name: text(alloc, words, 1),
        display: some_text(alloc, words, 2),
        access: number(words, 3),
        kind: number(words, 4),
        start: number(words, 5),
        error: number(words, 6),
        path: text(alloc, words, 7),
        group: some_text(alloc, words, 8),
        tag: some_number(words, 9),
        needs: needs(alloc, words, 10),
        account: some_text(alloc, words, 11),
    };
    match Apart::new(alloc, new) {
        Ok(new) => Request::Create(new),
        Err(_) => Request::Close { handle },
    }
}

/// Actions, two words each. A `-` is for a null pointer to actions.
fn actions(alloc: Global, words: Words) -> Option<Items<Action>> {
    if word(words, 0) == "-" {
        return None;
    }
    let mut actions = Items::new(alloc);
    for place in 0..words.len() / 2 {
        let action = Action {
            what: number(words, 2 * place),
            delay: number(words, 2 * place + 1),
        };
        let _pushed = actions.push(action).is_ok();
    }
    Some(actions)
}

/// 16 bytes that rise by 1.
fn subtype(first: Option<u32>) -> Option<[u8; 16]> {
    let [.., first] = first?.to_be_bytes();
    let mut bytes = [first; 16];
    for place in 1..16 {
        bytes[place] = bytes[place - 1].wrapping_add(1);
    }
    Some(bytes)
}

/// Triggers, four words each, of which the third is the first byte of the subtype.
fn triggers(alloc: Global, words: Words) -> Items<TriggerIn> {
    let mut triggers = Items::new(alloc);
    for place in 0..words.len() / 4 {
        let trigger = TriggerIn {
            kind: number(words, 4 * place),
            action: number(words, 4 * place + 1),
            subtype: subtype(some_number(words, 4 * place + 2)),
            items: number(words, 4 * place + 3),
        };
        let _pushed = triggers.push(trigger).is_ok();
    }
    triggers
}

/// What is asked at the level that the first word tells. A `-` and the level are for nothing.
fn info(alloc: Global, words: Words) -> Info {
    let rest = tail(words);
    match word(words, 0) {
        "-" => Info::Nothing(number(rest, 0)),
        "1" => Info::Description(some_text(alloc, rest, 0)),
        "2" => Info::Failure {
            reset: number(rest, 0),
            command: some_text(alloc, rest, 1),
            actions: actions(alloc, tail(tail(rest))),
        },
        "3" => Info::Delayed(number(rest, 0) == 1),
        "4" => Info::OnExit(number(rest, 0) == 1),
        "8" => Info::Triggers(triggers(alloc, rest)),
        _ => Info::Other(number(words, 0)),
    }
}

/// What a request of the call asks.
pub fn request(alloc: Global, opnum: u16, words: Words) -> Request {
    let handle = u64::from(number(words, 0));
    match opnum {
        R_CLOSE_SERVICE_HANDLE => Request::Close { handle },
        R_CONTROL_SERVICE => Request::Control {
            handle,
            control: number(words, 1),
        },
        R_DELETE_SERVICE => Request::Delete { handle },
        R_LOCK_SERVICE_DATABASE => Request::Lock { handle },
        R_QUERY_SERVICE_STATUS => Request::QueryStatus { handle },
        R_SET_SERVICE_STATUS => Request::SetStatus {
            handle,
            status: status(tail(words)),
        },
        R_UNLOCK_SERVICE_DATABASE => Request::Unlock { handle },
        R_QUERY_SERVICE_CONFIG_W => Request::QueryConfig {
            handle,
            size: number(words, 1),
        },
        R_QUERY_SERVICE_LOCK_STATUS_W => Request::QueryLock {
            handle,
            size: number(words, 1),
        },
        R_NOTIFY_SERVICE_STATUS_CHANGE => Request::Notify {
            handle,
            mask: number(words, 1),
        },
        R_GET_NOTIFY_RESULTS => Request::GetNotify { handle },
        R_CLOSE_NOTIFY_HANDLE => Request::CloseNotify { handle },
        R_ENUM_DEPENDENT_SERVICES_W
        | R_ENUM_SERVICES_STATUS_W
        | R_QUERY_SERVICE_CONFIG2_W
        | R_QUERY_SERVICE_STATUS_EX => request_for_services(opnum, words, handle),
        R_QUERY_SERVICE_OBJECT_SECURITY | R_SET_SERVICE_OBJECT_SECURITY => {
            request_for_security(alloc, opnum, words, handle)
        }
        _ => request_with_texts(alloc, opnum, words, handle),
    }
}

fn request_for_services(opnum: u16, words: Words, handle: u64) -> Request {
    match opnum {
        R_ENUM_DEPENDENT_SERVICES_W => Request::EnumDependents {
            handle,
            states: number(words, 1),
            size: number(words, 2),
        },
        R_ENUM_SERVICES_STATUS_W => Request::EnumServices {
            handle,
            kinds: number(words, 1),
            states: number(words, 2),
            size: number(words, 3),
            resume: some_number(words, 4),
        },
        R_QUERY_SERVICE_CONFIG2_W => Request::QueryConfig2 {
            handle,
            level: number(words, 1),
            size: number(words, 2),
        },
        _ => Request::QueryStatusEx {
            handle,
            level: number(words, 1),
            size: number(words, 2),
        },
    }
}

/// Bytes, a word each.
fn each_byte(alloc: Global, words: Words) -> Items<u8> {
    let mut bytes = Items::new(alloc);
    for place in 0..words.len() {
        let [.., byte] = number(words, place).to_be_bytes();
        let _appended = bytes.append(&[byte]);
    }
    bytes
}

fn request_for_security(alloc: Global, opnum: u16, words: Words, handle: u64) -> Request {
    let parts = number(words, 1);
    match opnum {
        R_QUERY_SERVICE_OBJECT_SECURITY => Request::QuerySecurity {
            handle,
            parts,
            size: number(words, 2),
        },
        _ => Request::SetSecurity {
            handle,
            parts,
            bytes: each_byte(alloc, tail(tail(words))),
        },
    }
}

fn request_with_texts(alloc: Global, opnum: u16, words: Words, handle: u64) -> Request {
    match opnum {
        R_CHANGE_SERVICE_CONFIG_W => change(alloc, words, handle),
        R_CHANGE_SERVICE_CONFIG2_W => Request::Change2 {
            handle,
            info: info(alloc, tail(words)),
        },
        R_CREATE_SERVICE_W => creation(alloc, words, handle),
        R_OPEN_SC_MANAGER_W => Request::OpenManager {
            database: some_text(alloc, words, 0),
            access: number(words, 1),
        },
        R_OPEN_SERVICE_W => Request::OpenService {
            handle,
            name: text(alloc, words, 1),
            access: number(words, 2),
        },
        R_START_SERVICE_W => Request::Start {
            handle,
            words: Some(texts(alloc, tail(words))),
        },
        R_GET_SERVICE_DISPLAY_NAME_W => Request::DisplayName {
            handle,
            name: text(alloc, words, 1),
            size: number(words, 2),
        },
        _ => Request::KeyName {
            handle,
            name: text(alloc, words, 1),
            size: number(words, 2),
        },
    }
}

fn some_shown(alloc: Global, words: Words) -> Option<Apart<Shown>> {
    if word(words, 0) == "-" {
        return None;
    }
    let shown = Shown {
        kind: number(words, 0),
        start: number(words, 1),
        error: number(words, 2),
        path: text(alloc, words, 3),
        group: text(alloc, words, 4),
        tag: number(words, 5),
        needs: text(alloc, words, 6),
        account: text(alloc, words, 7),
        display: text(alloc, words, 8),
    };
    Apart::new(alloc, shown).ok()
}

/// The letters of a word as bytes.
fn bytes(alloc: Global, words: Words, place: usize) -> Items<u8> {
    let mut bytes = Items::new(alloc);
    for byte in word(words, place).as_bytes() {
        if *byte != b'.' {
            let _appended = bytes.append(&[*byte]);
        }
    }
    bytes
}

fn reply_with_bytes(alloc: Global, opnum: u16, words: Words) -> Reply {
    let (size, bytes) = (number(words, 0), bytes(alloc, words, 1));
    match opnum {
        R_ENUM_DEPENDENT_SERVICES_W => Reply::Listing {
            size,
            bytes,
            needed: number(words, 2),
            returned: number(words, 3),
            code: number(words, 4),
        },
        R_ENUM_SERVICES_STATUS_W => Reply::Page {
            size,
            bytes,
            needed: number(words, 2),
            returned: number(words, 3),
            resume: some_number(words, 4),
            code: number(words, 5),
        },
        _ => Reply::Bytes {
            size,
            bytes,
            needed: number(words, 2),
            code: number(words, 3),
        },
    }
}

/// A security descriptor comes after its size, the size that it needs, and the code.
fn security(alloc: Global, words: Words) -> Reply {
    Reply::Bytes {
        size: number(words, 0),
        bytes: each_byte(alloc, tail(tail(tail(words)))),
        needed: number(words, 1),
        code: number(words, 2),
    }
}

fn notice(alloc: Global, words: Words) -> Reply {
    let status = ProcessStatus {
        status: status(tail(words)),
        pid: number(words, 8),
        flags: number(words, 9),
    };
    Reply::Notice {
        mask: number(words, 0),
        status,
        name: some_text(alloc, words, 10),
        code: number(words, 11),
    }
}

/// What a reply of the call holds. A configuration comes after the size that it needs and the code.
pub fn reply(alloc: Global, opnum: u16, words: Words) -> Reply {
    match opnum {
        R_CONTROL_SERVICE | R_QUERY_SERVICE_STATUS => Reply::State {
            status: status(words),
            code: number(words, 7),
        },
        R_CHANGE_SERVICE_CONFIG_W => Reply::Tag {
            tag: some_number(words, 0),
            code: number(words, 1),
        },
        R_CREATE_SERVICE_W => Reply::Made {
            tag: some_number(words, 0),
            handle: u64::from(number(words, 1)),
            code: number(words, 2),
        },
        R_OPEN_SC_MANAGER_W | R_NOTIFY_SERVICE_STATUS_CHANGE | R_CLOSE_NOTIFY_HANDLE =>
            Reply::Handle {
                handle: u64::from(number(words, 0)),
                code: number(words, 1),
            },
        R_QUERY_SERVICE_CONFIG_W => Reply::Shown {
            config: some_shown(alloc, tail(tail(words))),
            needed: number(words, 0),
            code: number(words, 1),
        },
        R_QUERY_SERVICE_LOCK_STATUS_W => Reply::LockState {
            held: number(words, 0),
            owner: some_text(alloc, words, 1),
            seconds: number(words, 2),
            needed: number(words, 3),
            code: number(words, 4),
        },
        R_GET_SERVICE_DISPLAY_NAME_W => Reply::Name {
            name: text(alloc, words, 0),
            size: number(words, 1),
            code: number(words, 2),
        },
        R_ENUM_DEPENDENT_SERVICES_W
        | R_ENUM_SERVICES_STATUS_W
        | R_QUERY_SERVICE_CONFIG2_W
        | R_QUERY_SERVICE_STATUS_EX => reply_with_bytes(alloc, opnum, words),
        R_QUERY_SERVICE_OBJECT_SECURITY => security(alloc, words),
        R_GET_NOTIFY_RESULTS => notice(alloc, words),
        _ => Reply::Code(number(words, 0)),
    }
}
