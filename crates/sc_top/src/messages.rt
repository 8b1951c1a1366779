ghost use Rattle.std.specs.Prelude.{◌≡◌};
ghost use Rattle.sc_top.specs.Messages.{message, service_message, start_message, system_message};

use scm_model::codes::{
    ERROR_ACCESS_DENIED, ERROR_CANTWRITE, ERROR_CIRCULAR_DEPENDENCY, ERROR_DATABASE_DOES_NOT_EXIST,
    ERROR_DEPENDENT_SERVICES_RUNNING, ERROR_DUPLICATE_SERVICE_NAME, ERROR_FILE_NOT_FOUND,
    ERROR_GEN_FAILURE, ERROR_INSUFFICIENT_BUFFER, ERROR_INVALID_DATA, ERROR_INVALID_HANDLE,
    ERROR_INVALID_LEVEL, ERROR_INVALID_NAME, ERROR_INVALID_PARAMETER,
    ERROR_INVALID_SERVICE_ACCOUNT, ERROR_INVALID_SERVICE_CONTROL, ERROR_INVALID_SERVICE_LOCK,
    ERROR_MORE_DATA, ERROR_NOT_ENOUGH_MEMORY, ERROR_NOT_ENOUGH_QUOTA, ERROR_PATH_NOT_FOUND,
    ERROR_PROCESS_ABORTED, ERROR_SERVICE_ALREADY_RUNNING, ERROR_SERVICE_CANNOT_ACCEPT_CTRL,
    ERROR_SERVICE_DATABASE_LOCKED, ERROR_SERVICE_DEPENDENCY_DELETED, ERROR_SERVICE_DEPENDENCY_FAIL,
    ERROR_SERVICE_DISABLED, ERROR_SERVICE_DOES_NOT_EXIST, ERROR_SERVICE_EXISTS,
    ERROR_SERVICE_MARKED_FOR_DELETE, ERROR_SERVICE_NEVER_STARTED, ERROR_SERVICE_NO_THREAD,
    ERROR_SERVICE_NOT_ACTIVE, ERROR_SERVICE_REQUEST_TIMEOUT, ERROR_SERVICE_SPECIFIC_ERROR,
};

const UNKNOWN: &str = "is no code that sc has a sentence for";

/// The message of a code of the system.
fn system_message(code: u32) -> &'static str
    ensures { result.now ≡ system_message code }
{
    match code {
        ERROR_FILE_NOT_FOUND => "ERROR_FILE_NOT_FOUND: The system cannot find the file specified.",
        ERROR_PATH_NOT_FOUND => "ERROR_PATH_NOT_FOUND: The system cannot find the path specified.",
        ERROR_ACCESS_DENIED => "ERROR_ACCESS_DENIED: Access is denied.",
        ERROR_INVALID_HANDLE => "ERROR_INVALID_HANDLE: The handle is invalid.",
        ERROR_NOT_ENOUGH_MEMORY => {
            "ERROR_NOT_ENOUGH_MEMORY: Not enough storage is available to process this \
             command."
        }
        ERROR_INVALID_DATA => "ERROR_INVALID_DATA: The data is invalid.",
        ERROR_GEN_FAILURE => {
            "ERROR_GEN_FAILURE: A device attached to the system is not functioning."
        }
        ERROR_INVALID_PARAMETER => "ERROR_INVALID_PARAMETER: The parameter is incorrect.",
        ERROR_INSUFFICIENT_BUFFER => {
            "ERROR_INSUFFICIENT_BUFFER: The data area passed to a system call is too \
             small."
        }
        ERROR_INVALID_NAME => {
            "ERROR_INVALID_NAME: The filename, directory name, or volume label syntax is \
             incorrect."
        }
        ERROR_INVALID_LEVEL => "ERROR_INVALID_LEVEL: The system call level is not correct.",
        ERROR_MORE_DATA => "ERROR_MORE_DATA: More data is available.",
        _ => UNKNOWN,
    }
}

/// The message of a code of the services, up to 1061.
fn start_message(code: u32) -> &'static str
    ensures { result.now ≡ start_message code }
{
    match code {
        ERROR_CANTWRITE => "ERROR_CANTWRITE: The configuration registry key could not be written.",
        ERROR_DEPENDENT_SERVICES_RUNNING => {
            "ERROR_DEPENDENT_SERVICES_RUNNING: A stop control has been sent to a service \
             that other running services are dependent on."
        }
        ERROR_INVALID_SERVICE_CONTROL => {
            "ERROR_INVALID_SERVICE_CONTROL: The requested control is not valid for this \
             service."
        }
        ERROR_SERVICE_REQUEST_TIMEOUT => {
            "ERROR_SERVICE_REQUEST_TIMEOUT: The service did not respond to the start or \
             control request in a timely fashion."
        }
        ERROR_SERVICE_NO_THREAD => {
            "ERROR_SERVICE_NO_THREAD: A thread could not be created for the service."
        }
        ERROR_SERVICE_DATABASE_LOCKED => {
            "ERROR_SERVICE_DATABASE_LOCKED: The service database is locked."
        }
        ERROR_SERVICE_ALREADY_RUNNING => {
            "ERROR_SERVICE_ALREADY_RUNNING: An instance of the service is already running."
        }
        ERROR_INVALID_SERVICE_ACCOUNT => {
            "ERROR_INVALID_SERVICE_ACCOUNT: The account name is invalid or does not exist, \
             or the password is invalid for the account name specified."
        }
        ERROR_SERVICE_DISABLED => {
            "ERROR_SERVICE_DISABLED: The service cannot be started, either because it is \
             disabled or because it has no enabled devices associated with it."
        }
        ERROR_CIRCULAR_DEPENDENCY => {
            "ERROR_CIRCULAR_DEPENDENCY: Circular service dependency was specified."
        }
        ERROR_SERVICE_DOES_NOT_EXIST => {
            "ERROR_SERVICE_DOES_NOT_EXIST: The specified service does not exist as an \
             installed service."
        }
        ERROR_SERVICE_CANNOT_ACCEPT_CTRL => {
            "ERROR_SERVICE_CANNOT_ACCEPT_CTRL: The service cannot accept control messages \
             at this time."
        }
        _ => UNKNOWN,
    }
}

/// The message of a later code.
fn service_message(code: u32) -> &'static str
    ensures { result.now ≡ service_message code }
{
    match code {
        ERROR_SERVICE_NOT_ACTIVE => "ERROR_SERVICE_NOT_ACTIVE: The service has not been started.",
        ERROR_DATABASE_DOES_NOT_EXIST => {
            "ERROR_DATABASE_DOES_NOT_EXIST: The database specified does not exist."
        }
        ERROR_SERVICE_SPECIFIC_ERROR => {
            "ERROR_SERVICE_SPECIFIC_ERROR: The service has returned a service-specific \
             error code."
        }
        ERROR_PROCESS_ABORTED => "ERROR_PROCESS_ABORTED: The process terminated unexpectedly.",
        ERROR_SERVICE_DEPENDENCY_FAIL => {
            "ERROR_SERVICE_DEPENDENCY_FAIL: The dependency service or group failed to \
             start."
        }
        ERROR_INVALID_SERVICE_LOCK => {
            "ERROR_INVALID_SERVICE_LOCK: The specified service database lock is invalid."
        }
        ERROR_SERVICE_MARKED_FOR_DELETE => {
            "ERROR_SERVICE_MARKED_FOR_DELETE: The specified service has been marked for \
             deletion."
        }
        ERROR_SERVICE_EXISTS => "ERROR_SERVICE_EXISTS: The specified service already exists.",
        ERROR_SERVICE_DEPENDENCY_DELETED => {
            "ERROR_SERVICE_DEPENDENCY_DELETED: The dependency service does not exist or \
             has been marked for deletion."
        }
        ERROR_SERVICE_NEVER_STARTED => {
            "ERROR_SERVICE_NEVER_STARTED: No attempts to start the service have been made \
             since the last boot."
        }
        ERROR_DUPLICATE_SERVICE_NAME => {
            "ERROR_DUPLICATE_SERVICE_NAME: The name is already in use as either a service \
             name or a service display name."
        }
        ERROR_NOT_ENOUGH_QUOTA => {
            "ERROR_NOT_ENOUGH_QUOTA: Not enough quota is available to process this \
             command."
        }
        _ => UNKNOWN,
    }
}

/// The name of a code and its sentence (MS-ERREF, "Win32 Error Codes").
pub fn message(code: u32) -> &'static str
    ensures { result.now ≡ message code }
{
    if code < ERROR_CANTWRITE {
        system_message(code)
    } else if code < ERROR_SERVICE_NOT_ACTIVE {
        start_message(code)
    } else {
        service_message(code)
    }
}
