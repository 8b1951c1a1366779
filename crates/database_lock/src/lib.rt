//! The lock of the service database, as `RLockServiceDatabase` takes it and
//! `RUnlockServiceDatabase` gives it back.
#![tactic(auto)]

ghost use Rattle.std.specs.Prelude.{◌≡◌, None};
ghost use Rattle.database_lock.specs.Locking.{is_held_by, lock_answer, locked, unlock_answer};
ghost use Rattle.database_lock.specs.Locking.{unlocked};

use scm_model::LockRow;
use scm_model::codes::{ERROR_INVALID_SERVICE_LOCK, ERROR_SERVICE_DATABASE_LOCKED};
use std::marker::Model;

/// The lock, which at most one handle holds. Contracts see the row of its holder. No call takes
/// memory.
#[derive(Debug, Drop)]
pub struct DatabaseLock {
    row: Option<LockRow>,
}

impl Model for DatabaseLock {
    ghost use Rattle.std.specs.Prelude.{Option};
    ghost use Rattle.scm_model.specs.declared.flat.LockRow.{LockRow};

    ghost Value = { Option LockRow };

    ghost view = { λ l. l.row };
}

/// Whether this handle holds it.
fn is_held_by(handle: u64, row: &Option<LockRow>) -> bool
    ensures { result ≡ is_held_by handle row.now }
{
    match row {
        Some(row) => row.handle == handle,
        None => false,
    }
}

impl DatabaseLock {
    /// A free lock.
    pub fn new() -> DatabaseLock
        ensures { result ≡ None }
    {
        DatabaseLock { row: None }
    }

    /// Takes the lock for a handle, from a moment on; `ERROR_SERVICE_DATABASE_LOCKED` where it is
    /// held, by the same handle too.
    pub fn lock(&mut self, handle: u64, moment: u64) -> Result<(), u32>
        ensures answer { result ≡ lock_answer self.old }
        ensures row { self.new ≡ locked self.old handle moment }
    {
        if self.row.is_some() {
            return Err(ERROR_SERVICE_DATABASE_LOCKED);
        }
        self.row = Some(LockRow {
            handle,
            since: moment,
        });
        Ok(())
    }

    /// Frees the lock; `ERROR_INVALID_SERVICE_LOCK` where this handle doesn't hold it.
    pub fn unlock(&mut self, handle: u64) -> Result<(), u32>
        ensures answer { result ≡ unlock_answer self.old handle }
        ensures row { self.new ≡ unlocked self.old handle }
    {
        if !is_held_by(handle, &self.row) {
            return Err(ERROR_INVALID_SERVICE_LOCK);
        }
        self.row = None;
        Ok(())
    }

    /// Who holds it, and since when.
    pub fn holder(&self) -> Option<LockRow>
        ensures { result ≡ self.now }
    {
        self.row
    }
}
