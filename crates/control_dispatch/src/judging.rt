ghost use Rattle.std.specs.Prelude.{◌≡◌};
ghost use Rattle.control_dispatch.specs.Judging.{control_of, judge, lacks_bits};

use scm_model::Status;
use scm_model::codes::{
    ERROR_ACCESS_DENIED, ERROR_DEPENDENT_SERVICES_RUNNING, ERROR_INVALID_HANDLE,
    ERROR_INVALID_PARAMETER, ERROR_INVALID_SERVICE_CONTROL, ERROR_SERVICE_CANNOT_ACCEPT_CTRL,
    ERROR_SERVICE_NOT_ACTIVE, FIRST_USER_CONTROL, LAST_USER_CONTROL, SERVICE_ACCEPT_NETBINDCHANGE,
    SERVICE_ACCEPT_PARAMCHANGE, SERVICE_ACCEPT_PAUSE_CONTINUE, SERVICE_ACCEPT_STOP,
    SERVICE_CONTROL_CONTINUE, SERVICE_CONTROL_INTERROGATE, SERVICE_CONTROL_NETBINDADD,
    SERVICE_CONTROL_NETBINDDISABLE, SERVICE_CONTROL_PARAMCHANGE, SERVICE_CONTROL_PAUSE,
    SERVICE_CONTROL_STOP, SERVICE_INTERROGATE, SERVICE_PAUSE_CONTINUE, SERVICE_START_PENDING,
    SERVICE_STOP, SERVICE_STOP_PENDING, SERVICE_STOPPED, SERVICE_USER_DEFINED_CONTROL,
};

/// What sending a control needs.
#[derive(Clone, Copy, Debug, PartialEq, Eq)]
struct Control {
    /// The right of the handle.
    right: u32,
    /// The bit by which a service accepts it, or 0.
    accept: u32,
}

/// What a control needs; none where there is no such control.
fn control_of(code: u32) -> Option<Control>
    ensures { result ≡ control_of code }
{
    let (right, accept) = match code {
        SERVICE_CONTROL_STOP => (SERVICE_STOP, SERVICE_ACCEPT_STOP),
        SERVICE_CONTROL_PAUSE | SERVICE_CONTROL_CONTINUE => {
            (SERVICE_PAUSE_CONTINUE, SERVICE_ACCEPT_PAUSE_CONTINUE)
        }
        SERVICE_CONTROL_INTERROGATE => (SERVICE_INTERROGATE, 0),
        SERVICE_CONTROL_PARAMCHANGE => (SERVICE_PAUSE_CONTINUE, SERVICE_ACCEPT_PARAMCHANGE),
        SERVICE_CONTROL_NETBINDADD..=SERVICE_CONTROL_NETBINDDISABLE => {
            (SERVICE_PAUSE_CONTINUE, SERVICE_ACCEPT_NETBINDCHANGE)
        }
        FIRST_USER_CONTROL..=LAST_USER_CONTROL => (SERVICE_USER_DEFINED_CONTROL, 0),
        _ => return None,
    };
    Some(Control { right, accept })
}

/// Whether one of the bits is missing.
fn lacks(mask: u32, bits: u32) -> bool
    ensures { result ≡ lacks_bits mask bits }
{
    mask & bits != bits
}

/// The code of a control of a service, or 0 where it is to be sent. `granted` are the rights of the
/// handle, none where the handle is not one of a service; `active` services name this one and
/// aren't stopped; `waiting` controls wait of the `limit` that may. The codes are those of
/// MS-ERREF. That a service that is starting or stopping gets no control, STOP included, and the
/// order of the codes are this manager's own. It takes no memory.
pub fn judge(
    granted: Option<u32>,
    code: u32,
    status: &Status,
    active: u32,
    waiting: u32,
    limit: u32,
) -> u32
    ensures { result ≡ judge granted code status.now active waiting limit }
{
    let Some(granted) = granted else {
        return ERROR_INVALID_HANDLE;
    };
    let Some(control) = control_of(code) else {
        return ERROR_INVALID_PARAMETER;
    };
    if lacks(granted, control.right) {
        return ERROR_ACCESS_DENIED;
    }
    if status.state == SERVICE_STOPPED {
        return ERROR_SERVICE_NOT_ACTIVE;
    }
    if status.state == SERVICE_START_PENDING || status.state == SERVICE_STOP_PENDING {
        return ERROR_SERVICE_CANNOT_ACCEPT_CTRL;
    }
    if lacks(status.accepted, control.accept) {
        return ERROR_INVALID_SERVICE_CONTROL;
    }
    if code == SERVICE_CONTROL_STOP && 0 < active {
        return ERROR_DEPENDENT_SERVICES_RUNNING;
    }
    if limit <= waiting {
        return ERROR_SERVICE_CANNOT_ACCEPT_CTRL;
    }
    0
}
