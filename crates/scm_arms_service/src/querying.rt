ghost use Rattle.std.specs.Prelude.{◌≡◌};
ghost use Rattle.scm_model.specs.Refused.{outcome, zero_status};
ghost use Rattle.scm_model.specs.declared.calls.Reply.TheVariants as reply;
ghost use Rattle.scm_model.specs.declared.calls.Request.TheVariants as request;
ghost use Rattle.scm_rules.specs.Query.{query_done, query_verdict, query_outcome};

use scm_model::codes::{ERROR_ACCESS_DENIED, ERROR_INVALID_HANDLE, SERVICE_QUERY_STATUS};
use scm_model::{Reply, zero_status};
use scm_tables::{Tables, mask_lacks, status_in};

/// The reply to a query that is refused.
fn refused(code: u32) -> Reply
    ensures { result ≡ reply.State zero_status code }
{
    Reply::State {
        status: zero_status(),
        code,
    }
}

/// Answers the status of a service, or `ERROR_INVALID_HANDLE` (6) or `ERROR_ACCESS_DENIED` (5).
pub fn query(tables: &Tables, caller: u64, handle: u64) -> Reply
    ensures reply { result ≡ (query_outcome tables.now.flat caller handle).reply }
    ensures flat { tables.now.flat ≡ (query_outcome tables.now.flat caller handle).flat }
{
    match tables.opened(caller, handle) {
        None => refused(ERROR_INVALID_HANDLE),
        Some(opened) => {
            if mask_lacks(opened.granted, SERVICE_QUERY_STATUS) {
                refused(ERROR_ACCESS_DENIED)
            } else {
                Reply::State {
                    status: status_in(tables.service(opened.service)),
                    code: 0,
                }
            }
        }
    }
}
