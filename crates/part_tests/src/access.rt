use access_mask::{AccessMask, granted, map_generic};
use bitflags::Flags;
use scm_model::Principal::{Admin, User};

// From winnt.h and winsvc.h.
const GENERIC_READ: u32 = 0x8000_0000;

const GENERIC_WRITE: u32 = 0x4000_0000;

const GENERIC_EXECUTE: u32 = 0x2000_0000;

const GENERIC_ALL: u32 = 0x1000_0000;

const MAXIMUM_ALLOWED: u32 = 0x0200_0000;

const SYNCHRONIZE: u32 = 0x10_0000;

const DELETE: u32 = 0x1_0000;

/// STANDARD_RIGHTS_READ and STANDARD_RIGHTS_EXECUTE too.
const READ_CONTROL: u32 = 0x2_0000;

const SC_MANAGER_CONNECT: u32 = 1;

const SC_MANAGER_ENUMERATE_SERVICE: u32 = 4;

const SC_MANAGER_LOCK: u32 = 8;

const SC_MANAGER_QUERY_LOCK_STATUS: u32 = 0x10;

const SC_MANAGER_ALL_ACCESS: u32 = 0xF_003F;

/// With READ_CONTROL.
const MANAGER_READS: u32 = READ_CONTROL
    | SC_MANAGER_ENUMERATE_SERVICE
    | SC_MANAGER_QUERY_LOCK_STATUS;

const MANAGER_EXECUTES: u32 = READ_CONTROL | SC_MANAGER_CONNECT | SC_MANAGER_LOCK;

/// SERVICE_QUERY_CONFIG, _QUERY_STATUS, _ENUMERATE_DEPENDENTS and _INTERROGATE.
const SERVICE_READS: u32 = READ_CONTROL | 1 | 4 | 8 | 0x80;

const SERVICE_CHANGE_CONFIG: u32 = 2;

/// SERVICE_START, _STOP, _PAUSE_CONTINUE and _USER_DEFINED_CONTROL.
const SERVICE_EXECUTES: u32 = READ_CONTROL | 0x10 | 0x20 | 0x40 | 0x100;

const SERVICE_SET_STATUS: u32 = 0x8000;

const SERVICE_ALL_ACCESS: u32 = 0xF_01FF;

/// What is asked of a service, and what it maps to.
const SEVERAL: u32 = GENERIC_READ | GENERIC_WRITE | DELETE;

const EACH_OF_SEVERAL: u32 = SERVICE_READS | SERVICE_CHANGE_CONFIG | DELETE;

const NOT_GENERIC: u32 = MAXIMUM_ALLOWED | SYNCHRONIZE;

const MORE_THAN_ALL: u32 = SERVICE_ALL_ACCESS | SERVICE_SET_STATUS;

const MANAGER: bool = true;

const SERVICE: bool = false;

#[test]
fn generic_rights_are_those_of_the_header(rt: HostRuntime) {
    let rows = [
        (MANAGER, GENERIC_READ, MANAGER_READS),
        (MANAGER, GENERIC_EXECUTE, MANAGER_EXECUTES),
        (MANAGER, GENERIC_ALL, SC_MANAGER_ALL_ACCESS),
        (SERVICE, GENERIC_READ, SERVICE_READS),
        (SERVICE, GENERIC_EXECUTE, SERVICE_EXECUTES),
        (SERVICE, GENERIC_ALL, SERVICE_ALL_ACCESS),
        // Several come together, and what isn't generic stays.
        (SERVICE, SEVERAL, EACH_OF_SEVERAL),
        (MANAGER, NOT_GENERIC, NOT_GENERIC),
    ];
    for (object, asked, want) in rows {
        assert_eq!(rt; map_generic(object, asked), want, "{asked:x}");
    }
}

#[test]
fn users_and_administrators_are_granted_their_rights(rt: HostRuntime) {
    let rows = [
        (User, MANAGER, SC_MANAGER_ALL_ACCESS, None),
        (User, MANAGER, MAXIMUM_ALLOWED, Some(0x2_0015)),
        (User, MANAGER, SC_MANAGER_ENUMERATE_SERVICE, Some(5)),
        (User, SERVICE, DELETE, None),
        (Admin, MANAGER, SYNCHRONIZE, None),
        (Admin, MANAGER, GENERIC_ALL, Some(SC_MANAGER_ALL_ACCESS)),
        (Admin, MANAGER, 0, Some(SC_MANAGER_CONNECT)),
        (Admin, SERVICE, GENERIC_ALL, Some(SERVICE_ALL_ACCESS)),
        (Admin, SERVICE, MORE_THAN_ALL, Some(0xF_81FF)),
        (Admin, SERVICE, 0, Some(0)),
    ];
    for (principal, object, asked, want) in rows {
        assert_eq!(rt; granted(principal, object, asked), want, "{asked:x}");
    }
}

#[test]
fn the_common_bits_have_their_names(rt: HostRuntime) {
    let rows = [
        (AccessMask::GENERIC_READ, GENERIC_READ),
        (AccessMask::GENERIC_WRITE, GENERIC_WRITE),
        (AccessMask::GENERIC_EXECUTE, GENERIC_EXECUTE),
        (AccessMask::GENERIC_ALL, GENERIC_ALL),
        (AccessMask::MAXIMUM_ALLOWED, MAXIMUM_ALLOWED),
    ];
    for (named, bits) in rows {
        assert_eq!(rt; named.bits(), bits);
    }
}
