ghost use Rattle.std.specs.Prelude.{◌≡◌, ◌∷◌, [], IfOk, OnOk};
ghost use Rattle.scm_generate.specs.Listed.{opening_calls, creation_of, creations, nth_service};
ghost use Rattle.scm_generate.specs.Progress.{IsOpenTo, Makes};

use super::naming::{name_of, needing, text_of};
use super::run::Run;
use scm_model::codes::{
    MAXIMUM_ALLOWED, SERVICE_ALL_ACCESS, SERVICE_DEMAND_START, SERVICE_ERROR_NORMAL,
    SERVICE_WIN32_OWN_PROCESS,
};
use scm_model::{Apart, Kept, NewService, Principal, Request, Step};
use scm_text::OutOfMemory;
use std::alloc::Global;

/// The caller that all calls come from.
pub const CALLER: u64 = 1;

/// The handle of the manager.
const MANAGER: u64 = 1;

/// The administrator joins, and opens the manager.
pub fn begin(run: &mut Run) -> Result<(), OutOfMemory>
    requires { IsOpenTo run.old opening_calls }
    ensures { OnOk result (Makes run.old opening_calls run.new) }
{
    run.make(Step::Joined {
        principal: Principal::Admin,
    })?;
    run.make(Step::Call {
        caller: CALLER,
        request: Request::OpenManager {
            database: None,
            access: MAXIMUM_ALLOWED,
        },
        kept: Kept::NotAsked,
    })
}

/// What is asked of the service with this number.
fn new_service(alloc: Global, number: u32) -> Result<Apart<NewService>, OutOfMemory>
    ensures { IfOk result (λ new. new ≡ nth_service number) }
{
    let name = name_of(alloc, number)?;
    let path = text_of(alloc, "/bin/true")?;
    let needs = needing(alloc, number / 2)?;
    let new = NewService {
        handle: MANAGER,
        name,
        display: None,
        access: SERVICE_ALL_ACCESS,
        kind: SERVICE_WIN32_OWN_PROCESS,
        start: SERVICE_DEMAND_START,
        error: SERVICE_ERROR_NORMAL,
        path,
        group: None,
        tag: None,
        needs,
        account: None,
    };
    Apart::new(alloc, new)
}

/// Creates the service with this number.
fn create(run: &mut Run, alloc: Global, number: u32) -> Result<(), OutOfMemory>
    requires { IsOpenTo run.old (creation_of number ∷ []) }
    ensures { OnOk result (Makes run.old (creation_of number ∷ []) run.new) }
{
    let new = new_service(alloc, number)?;
    run.make(Step::Call {
        caller: CALLER,
        request: Request::Create(new),
        kept: Kept::Kept,
    })
}

/// Creates the services from the first one to the last.
pub fn create_all(run: &mut Run, alloc: Global, services: u32) -> Result<(), OutOfMemory>
    requires { IsOpenTo run.old (creations services) }
    ensures { OnOk result (Makes run.old (creations services) run.new) }
{
    for before in 0..services {
        match create(run, alloc, before + 1) {
            Ok(()) => {}
            Err(fault) => return Err(fault),
        }
    }
    Ok(())
}
