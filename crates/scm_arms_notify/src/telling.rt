ghost use Rattle.std.specs.Prelude.{◌≡◌, ◌≢◌};
ghost use Rattle.scm_arms_notify.specs.Told.{notice_told};
ghost use Rattle.scm_rules.specs.Notify.{close_notify_outcome, get_notify_outcome, notice_verdict};
ghost use Rattle.scm_rules.specs.Notify.{notify_of};

use notify_queue::Notice;
use scm_model::codes::ERROR_INVALID_HANDLE;
use scm_model::{HandleKind, Reply, zero_process_status};
use scm_tables::Tables;

/// The registration that a caller's handle is of.
fn notify_of(tables: &Tables, caller: u64, handle: u64) -> Option<u64>
    ensures { result ≡ notify_of tables.now.flat caller handle }
{
    match tables.handle(caller, handle) {
        Some(row) => match row.kind {
            HandleKind::Notify(number) => Some(number),
            HandleKind::Manager | HandleKind::Service(_) | HandleKind::Lock => None,
        },
        None => None,
    }
}

/// The answer that an event came, or that none did.
fn told(notice: Option<Notice>, code: u32) -> Reply
    ensures { result ≡ notice_told notice code }
{
    match notice {
        Some(notice) => Reply::Notice {
            mask: notice.bit,
            status: notice.status,
            name: Some(notice.name),
            code,
        },
        None => Reply::Notice {
            mask: 0,
            status: zero_process_status(),
            name: None,
            code,
        },
    }
}

/// Takes the event that a registration was told of. No second one comes. It takes no memory.
pub fn get_notify(tables: &mut Tables, caller: u64, handle: u64) -> Reply
    ensures reply { result ≡ (get_notify_outcome tables.old.flat caller handle).reply }
    ensures flat { tables.new.flat ≡ (get_notify_outcome tables.old.flat caller handle).flat }
    ensures limits { tables.new.limits ≡ tables.old.limits }
    ensures refused { notice_verdict tables.old.flat caller handle ≢ 0 → tables.new ≡ tables.old }
{
    let Some(number) = notify_of(tables, caller, handle) else {
        return told(None, ERROR_INVALID_HANDLE);
    };
    told(tables.take_notice(number), 0)
}

/// A registration leaves, and its handle.
pub fn close_notify(tables: &mut Tables, caller: u64, handle: u64) -> Reply
    ensures reply { result ≡ (close_notify_outcome tables.old.flat caller handle).reply }
    ensures flat { tables.new.flat ≡ (close_notify_outcome tables.old.flat caller handle).flat }
    ensures limits { tables.new.limits ≡ tables.old.limits }
    ensures refused { notice_verdict tables.old.flat caller handle ≢ 0 → tables.new ≡ tables.old }
{
    let Some(number) = notify_of(tables, caller, handle) else {
        return Reply::Handle {
            handle,
            code: ERROR_INVALID_HANDLE,
        };
    };
    tables.remove_registration(number);
    tables.remove_handle(handle);
    Reply::Handle { handle: 0, code: 0 }
}
