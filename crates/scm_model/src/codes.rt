//! The numbers of the public standards, under their names there: codes of MS-ERREF, and states,
//! rights, controls and methods of MS-SCMR.

// Codes that calls answer (MS-ERREF, "Win32 Error Codes").

pub const ERROR_SUCCESS: u32 = 0;

pub const ERROR_FILE_NOT_FOUND: u32 = 2;

pub const ERROR_PATH_NOT_FOUND: u32 = 3;

pub const ERROR_ACCESS_DENIED: u32 = 5;

pub const ERROR_INVALID_HANDLE: u32 = 6;

pub const ERROR_NOT_ENOUGH_MEMORY: u32 = 8;

pub const ERROR_INVALID_DATA: u32 = 13;

pub const ERROR_GEN_FAILURE: u32 = 31;

pub const ERROR_INVALID_PARAMETER: u32 = 87;

pub const ERROR_CALL_NOT_IMPLEMENTED: u32 = 120;

pub const ERROR_INSUFFICIENT_BUFFER: u32 = 122;

pub const ERROR_INVALID_NAME: u32 = 123;

pub const ERROR_INVALID_LEVEL: u32 = 124;

pub const ERROR_MORE_DATA: u32 = 234;

pub const ERROR_CANTWRITE: u32 = 1013;

pub const ERROR_DEPENDENT_SERVICES_RUNNING: u32 = 1051;

pub const ERROR_INVALID_SERVICE_CONTROL: u32 = 1052;

pub const ERROR_SERVICE_REQUEST_TIMEOUT: u32 = 1053;

pub const ERROR_SERVICE_NO_THREAD: u32 = 1054;

pub const ERROR_SERVICE_DATABASE_LOCKED: u32 = 1055;

pub const ERROR_SERVICE_ALREADY_RUNNING: u32 = 1056;

pub const ERROR_INVALID_SERVICE_ACCOUNT: u32 = 1057;

pub const ERROR_SERVICE_DISABLED: u32 = 1058;

pub const ERROR_CIRCULAR_DEPENDENCY: u32 = 1059;

pub const ERROR_SERVICE_DOES_NOT_EXIST: u32 = 1060;

pub const ERROR_SERVICE_CANNOT_ACCEPT_CTRL: u32 = 1061;

pub const ERROR_SERVICE_NOT_ACTIVE: u32 = 1062;

pub const ERROR_DATABASE_DOES_NOT_EXIST: u32 = 1065;

pub const ERROR_SERVICE_SPECIFIC_ERROR: u32 = 1066;

pub const ERROR_PROCESS_ABORTED: u32 = 1067;

pub const ERROR_SERVICE_DEPENDENCY_FAIL: u32 = 1068;

pub const ERROR_INVALID_SERVICE_LOCK: u32 = 1071;

pub const ERROR_SERVICE_MARKED_FOR_DELETE: u32 = 1072;

pub const ERROR_SERVICE_EXISTS: u32 = 1073;

pub const ERROR_SERVICE_DEPENDENCY_DELETED: u32 = 1075;

pub const ERROR_SERVICE_NEVER_STARTED: u32 = 1077;

pub const ERROR_DUPLICATE_SERVICE_NAME: u32 = 1078;

pub const ERROR_NOT_ENOUGH_QUOTA: u32 = 1816;

// States of a service (`dwCurrentState` of `SERVICE_STATUS`).

pub const SERVICE_STOPPED: u32 = 1;

pub const SERVICE_START_PENDING: u32 = 2;

pub const SERVICE_STOP_PENDING: u32 = 3;

pub const SERVICE_RUNNING: u32 = 4;

pub const SERVICE_CONTINUE_PENDING: u32 = 5;

pub const SERVICE_PAUSE_PENDING: u32 = 6;

pub const SERVICE_PAUSED: u32 = 7;

// States that are asked for, a bit each.

pub const SERVICE_ACTIVE: u32 = 1;

pub const SERVICE_INACTIVE: u32 = 2;

pub const SERVICE_STATE_ALL: u32 = 3;

// Events of which a registration is notified, a bit each (`SERVICE_NOTIFY_..`).

pub const SERVICE_NOTIFY_STOPPED: u32 = 0x1;

pub const SERVICE_NOTIFY_START_PENDING: u32 = 0x2;

pub const SERVICE_NOTIFY_STOP_PENDING: u32 = 0x4;

pub const SERVICE_NOTIFY_RUNNING: u32 = 0x8;

pub const SERVICE_NOTIFY_CONTINUE_PENDING: u32 = 0x10;

pub const SERVICE_NOTIFY_PAUSE_PENDING: u32 = 0x20;

pub const SERVICE_NOTIFY_PAUSED: u32 = 0x40;

pub const SERVICE_NOTIFY_CREATED: u32 = 0x80;

pub const SERVICE_NOTIFY_DELETED: u32 = 0x100;

pub const SERVICE_NOTIFY_DELETE_PENDING: u32 = 0x200;
/// The events of the manager: a service is created, and one leaves.
pub const NOTIFY_OF_MANAGER: u32 = 0x180;
/// The events of a service: each state, and that it is marked.
pub const NOTIFY_OF_SERVICE: u32 = 0x27F;

// Types, start types and error controls of a configuration.

pub const SERVICE_WIN32_OWN_PROCESS: u32 = 0x10;

pub const SERVICE_WIN32_SHARE_PROCESS: u32 = 0x20;

pub const SERVICE_AUTO_START: u32 = 2;

pub const SERVICE_DEMAND_START: u32 = 3;

pub const SERVICE_DISABLED: u32 = 4;

pub const SERVICE_ERROR_IGNORE: u32 = 0;

pub const SERVICE_ERROR_NORMAL: u32 = 1;

pub const SERVICE_ERROR_SEVERE: u32 = 2;

pub const SERVICE_ERROR_CRITICAL: u32 = 3;

/// What leaves a number of a configuration as it is.
pub const SERVICE_NO_CHANGE: u32 = 0xFFFF_FFFF;

// What is done after a failure (`SC_ACTION_TYPE`), and when failures are counted anew.

pub const SC_ACTION_NONE: u32 = 0;

pub const SC_ACTION_RESTART: u32 = 1;

pub const SC_ACTION_REBOOT: u32 = 2;

pub const SC_ACTION_RUN_COMMAND: u32 = 3;

/// The reset period after which failures are never counted anew.
pub const INFINITE: u32 = 0xFFFF_FFFF;

// Controls, and the bits by which a service accepts them.

pub const SERVICE_CONTROL_STOP: u32 = 1;

pub const SERVICE_CONTROL_PAUSE: u32 = 2;

pub const SERVICE_CONTROL_CONTINUE: u32 = 3;

pub const SERVICE_CONTROL_INTERROGATE: u32 = 4;

pub const SERVICE_CONTROL_PARAMCHANGE: u32 = 6;

pub const SERVICE_CONTROL_NETBINDADD: u32 = 7;

pub const SERVICE_CONTROL_NETBINDREMOVE: u32 = 8;

pub const SERVICE_CONTROL_NETBINDENABLE: u32 = 9;

pub const SERVICE_CONTROL_NETBINDDISABLE: u32 = 10;

/// Controls from here to `LAST_USER_CONTROL` mean what the service says.
pub const FIRST_USER_CONTROL: u32 = 128;

pub const LAST_USER_CONTROL: u32 = 255;

pub const SERVICE_ACCEPT_STOP: u32 = 1;

pub const SERVICE_ACCEPT_PAUSE_CONTINUE: u32 = 2;

pub const SERVICE_ACCEPT_PARAMCHANGE: u32 = 8;

pub const SERVICE_ACCEPT_NETBINDCHANGE: u32 = 0x10;
/// Each control that there is to accept, from `SERVICE_ACCEPT_STOP` to
/// `SERVICE_ACCEPT_TRIGGEREVENT`.
pub const SERVICE_ACCEPT_ANY: u32 = 0x7FF;

// Rights on the manager.

pub const SC_MANAGER_CONNECT: u32 = 0x0001;

pub const SC_MANAGER_CREATE_SERVICE: u32 = 0x0002;

pub const SC_MANAGER_ENUMERATE_SERVICE: u32 = 0x0004;

pub const SC_MANAGER_LOCK: u32 = 0x0008;

pub const SC_MANAGER_QUERY_LOCK_STATUS: u32 = 0x0010;

pub const SC_MANAGER_MODIFY_BOOT_CONFIG: u32 = 0x0020;

pub const SC_MANAGER_ALL_ACCESS: u32 = 0xF_003F;

// Rights on a service.

pub const SERVICE_QUERY_CONFIG: u32 = 0x0001;

pub const SERVICE_CHANGE_CONFIG: u32 = 0x0002;

pub const SERVICE_QUERY_STATUS: u32 = 0x0004;

pub const SERVICE_ENUMERATE_DEPENDENTS: u32 = 0x0008;

pub const SERVICE_START: u32 = 0x0010;

pub const SERVICE_STOP: u32 = 0x0020;

pub const SERVICE_PAUSE_CONTINUE: u32 = 0x0040;

pub const SERVICE_INTERROGATE: u32 = 0x0080;

pub const SERVICE_USER_DEFINED_CONTROL: u32 = 0x0100;

pub const SERVICE_SET_STATUS: u32 = 0x8000;

pub const SERVICE_ALL_ACCESS: u32 = 0xF_01FF;

// Rights on either.

pub const DELETE: u32 = 0x0001_0000;

pub const MAXIMUM_ALLOWED: u32 = 0x0200_0000;

pub const GENERIC_ALL: u32 = 0x1000_0000;

pub const GENERIC_EXECUTE: u32 = 0x2000_0000;

pub const GENERIC_WRITE: u32 = 0x4000_0000;

pub const GENERIC_READ: u32 = 0x8000_0000;

// What is done when a trigger is raised (`SERVICE_TRIGGER_ACTION_..`), and its type.

pub const SERVICE_TRIGGER_ACTION_SERVICE_START: u32 = 1;

pub const SERVICE_TRIGGER_ACTION_SERVICE_STOP: u32 = 2;

pub const SERVICE_TRIGGER_TYPE_CUSTOM: u32 = 20;

// Levels of what is asked.

pub const SERVICE_CONFIG_DESCRIPTION: u32 = 1;

pub const SERVICE_CONFIG_FAILURE_ACTIONS: u32 = 2;

pub const SERVICE_CONFIG_DELAYED_AUTO_START_INFO: u32 = 3;

pub const SERVICE_CONFIG_FAILURE_ACTIONS_FLAG: u32 = 4;

pub const SERVICE_CONFIG_TRIGGER_INFO: u32 = 8;

/// The one level of `RQueryServiceStatusEx`.
pub const SC_STATUS_PROCESS_INFO: u32 = 0;

// Ranges of what a request states.

/// The greatest `cbBufSize` of `REnumDependentServicesW` and `REnumServicesStatusW`, in bytes.
pub const MAX_ENUM_SIZE: u32 = 262144;

/// The greatest `cbBufSize` of `RQueryServiceConfigW`, `RQueryServiceConfig2W` and
/// `RQueryServiceStatusEx`, in bytes.
pub const MAX_CONFIG_SIZE: u32 = 8192;
/// The greatest `cbBufSize` of `RQueryServiceLockStatusW`, in bytes.
pub const MAX_LOCK_STATUS_SIZE: u32 = 4096;
/// The greatest `cbBufSize` of `RQueryServiceObjectSecurity` and `RSetServiceObjectSecurity`, in
/// bytes. This server sets it.
pub const MAX_SECURITY_SIZE: u32 = 262144;
/// The most words of a start.
pub const SC_MAX_ARGUMENTS: u32 = 1024;
/// The most actions of `SERVICE_FAILURE_ACTIONSW`.
pub const SC_MAX_ACTIONS: u32 = 1024;
/// The most triggers of `SERVICE_TRIGGER_INFO`.
pub const SC_MAX_TRIGGERS: u32 = 64;

// Numbers of the methods (opnums).

pub const R_CLOSE_SERVICE_HANDLE: u16 = 0;

pub const R_CONTROL_SERVICE: u16 = 1;

pub const R_DELETE_SERVICE: u16 = 2;

pub const R_LOCK_SERVICE_DATABASE: u16 = 3;

pub const R_QUERY_SERVICE_OBJECT_SECURITY: u16 = 4;

pub const R_SET_SERVICE_OBJECT_SECURITY: u16 = 5;

pub const R_QUERY_SERVICE_STATUS: u16 = 6;

pub const R_SET_SERVICE_STATUS: u16 = 7;

pub const R_UNLOCK_SERVICE_DATABASE: u16 = 8;

pub const R_CHANGE_SERVICE_CONFIG_W: u16 = 11;

pub const R_CREATE_SERVICE_W: u16 = 12;

pub const R_ENUM_DEPENDENT_SERVICES_W: u16 = 13;

pub const R_ENUM_SERVICES_STATUS_W: u16 = 14;

pub const R_OPEN_SC_MANAGER_W: u16 = 15;

pub const R_OPEN_SERVICE_W: u16 = 16;

pub const R_QUERY_SERVICE_CONFIG_W: u16 = 17;

pub const R_QUERY_SERVICE_LOCK_STATUS_W: u16 = 18;

pub const R_START_SERVICE_W: u16 = 19;

pub const R_GET_SERVICE_DISPLAY_NAME_W: u16 = 20;

pub const R_GET_SERVICE_KEY_NAME_W: u16 = 21;

pub const R_CHANGE_SERVICE_CONFIG2_W: u16 = 37;

pub const R_QUERY_SERVICE_CONFIG2_W: u16 = 39;

pub const R_QUERY_SERVICE_STATUS_EX: u16 = 40;

pub const R_NOTIFY_SERVICE_STATUS_CHANGE: u16 = 47;

pub const R_GET_NOTIFY_RESULTS: u16 = 48;

pub const R_CLOSE_NOTIFY_HANDLE: u16 = 49;
