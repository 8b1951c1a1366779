ghost use Rattle.std.specs.Prelude.{◌≡◌};
ghost use Rattle.scm_model.specs.Opnums.{opnum};

use super::Request;
use super::codes::{
    R_CHANGE_SERVICE_CONFIG_W, R_CHANGE_SERVICE_CONFIG2_W, R_CLOSE_NOTIFY_HANDLE,
    R_CLOSE_SERVICE_HANDLE, R_CONTROL_SERVICE, R_CREATE_SERVICE_W, R_DELETE_SERVICE,
    R_ENUM_DEPENDENT_SERVICES_W, R_ENUM_SERVICES_STATUS_W, R_GET_NOTIFY_RESULTS,
    R_GET_SERVICE_DISPLAY_NAME_W, R_GET_SERVICE_KEY_NAME_W, R_LOCK_SERVICE_DATABASE,
    R_NOTIFY_SERVICE_STATUS_CHANGE, R_OPEN_SC_MANAGER_W, R_OPEN_SERVICE_W,
    R_QUERY_SERVICE_CONFIG_W, R_QUERY_SERVICE_CONFIG2_W, R_QUERY_SERVICE_LOCK_STATUS_W,
    R_QUERY_SERVICE_OBJECT_SECURITY, R_QUERY_SERVICE_STATUS, R_QUERY_SERVICE_STATUS_EX,
    R_SET_SERVICE_OBJECT_SECURITY, R_SET_SERVICE_STATUS, R_START_SERVICE_W,
    R_UNLOCK_SERVICE_DATABASE,
};

impl Request {
    /// The number of its method, the opnum, in the interface svcctl of MS-SCMR.
    pub fn opnum(&self) -> u16
        ensures { result ≡ opnum self.now }
    {
        match self {
            Request::Close { .. } => R_CLOSE_SERVICE_HANDLE,
            Request::Control { .. } => R_CONTROL_SERVICE,
            Request::Delete { .. } => R_DELETE_SERVICE,
            Request::Lock { .. } => R_LOCK_SERVICE_DATABASE,
            Request::QuerySecurity { .. } => R_QUERY_SERVICE_OBJECT_SECURITY,
            Request::SetSecurity { .. } => R_SET_SERVICE_OBJECT_SECURITY,
            Request::QueryStatus { .. } => R_QUERY_SERVICE_STATUS,
            Request::SetStatus { .. } => R_SET_SERVICE_STATUS,
            Request::Unlock { .. } => R_UNLOCK_SERVICE_DATABASE,
            Request::Change(_) => R_CHANGE_SERVICE_CONFIG_W,
            Request::Create(_) => R_CREATE_SERVICE_W,
            Request::EnumDependents { .. } => R_ENUM_DEPENDENT_SERVICES_W,
            Request::EnumServices { .. } => R_ENUM_SERVICES_STATUS_W,
            Request::OpenManager { .. } => R_OPEN_SC_MANAGER_W,
            Request::OpenService { .. } => R_OPEN_SERVICE_W,
            Request::QueryConfig { .. } => R_QUERY_SERVICE_CONFIG_W,
            Request::QueryLock { .. } => R_QUERY_SERVICE_LOCK_STATUS_W,
            Request::Start { .. } => R_START_SERVICE_W,
            Request::DisplayName { .. } => R_GET_SERVICE_DISPLAY_NAME_W,
            Request::KeyName { .. } => R_GET_SERVICE_KEY_NAME_W,
            Request::Change2 { .. } => R_CHANGE_SERVICE_CONFIG2_W,
            Request::QueryConfig2 { .. } => R_QUERY_SERVICE_CONFIG2_W,
            Request::QueryStatusEx { .. } => R_QUERY_SERVICE_STATUS_EX,
            Request::Notify { .. } => R_NOTIFY_SERVICE_STATUS_CHANGE,
            Request::GetNotify { .. } => R_GET_NOTIFY_RESULTS,
            Request::CloseNotify { .. } => R_CLOSE_NOTIFY_HANDLE,
        }
    }
}
