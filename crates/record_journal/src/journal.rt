ghost use Rattle.std.specs.Prelude.{◌≡◌, ◌≤◌, ◌<◌, ◌+◌, ◌^◌, [], Some, length, true, false, OnOk};
ghost use Rattle.std.specs.Prelude.{OnErr, IsErrOf};
ghost use Rattle.outside.specs.Causes.{HasCause, Rose};
ghost use Rattle.outside.specs.Written.{Writes};
ghost use Rattle.record_journal.specs.Bearing.{Bears, BearsLost, BearsMore, Mends, MovesOn, Puts};
ghost use Rattle.record_journal.specs.Bearing.{broken, journal_grown, kept_of, stood};
ghost use Rattle.record_journal.specs.Crashes.{Crashing, HasAdded, Same};
ghost use Rattle.record_journal.specs.Format.{HasEntry, piece};
ghost use Rattle.scm_model.specs.declared.steps.Form.TheVariants.{Second};

use crate::entry::piece;
use crate::keeper::{KeepFault, Keeper};
use outside::Failed;
use scm_model::{Change, Form};
use std::alloc::Global;

/// Where a journal ends, and in which form.
#[derive(Drop, PartialEq, Eq)]
pub struct Journal {
    /// How many bytes are kept.
    pub good: u64,
    /// Whether a part of a piece may stand after them.
    pub dirty: bool,
    /// The form of what is kept last. The first change that is appended makes it form 2.
    pub form: Form,
}

impl Journal {
    /// The journal of a keeper that holds nothing.
    pub fn empty() -> Self
        ensures value { result ≡ record { good = 0; dirty = false; form = Second } }
        ensures bears { Bears (Some (stood Second [])) result (Some []) }
    {
        Journal {
            good: 0,
            dirty: false,
            form: Form::Second,
        }
    }

    /// Cuts what a failed append may have left.
    fn mend<K: Keeper>(&mut self, keeper: &mut K) -> Result<(), Failed>
        ensures ok { OnOk result (self.new ≡ record self.old { dirty = false }) }
        ensures err { OnErr result (self.new ≡ broken self.old) }
        ensures bytes { Mends self.old (K.held keeper.old) (K.held keeper.new) result }
        ensures cause { HasCause (K.faults keeper.old) (K.faults keeper.new) result }
        ensures moments { Crashing (λ x. Same (kept_of self.old x))
            (K.held keeper.old) (K.crashes keeper.old) (K.crashes keeper.new) }
        ensures asked { K.asked keeper.new ≡ K.asked keeper.old }
    {
        if !self.dirty {
            return Ok(());
        }
        keeper.cut(self.good)?;
        self.dirty = false;
        Ok(())
    }

    /// Appends a piece, which ends in form 2, when nothing else stands after what is kept.
    fn add<K: Keeper>(&mut self, keeper: &mut K, piece: &[u8]) -> Result<(), Failed>
        requires { self.old.good + length piece.now < 2 ^ 64 }
        ensures ok { OnOk result (self.new ≡ journal_grown self.old piece.now) }
        ensures err { OnErr result (self.new ≡ broken self.old) }
        ensures bytes { Writes (K.held keeper.old) (K.held keeper.new) result piece.now }
        ensures cause { HasCause (K.faults keeper.old) (K.faults keeper.new) result }
        ensures moments { Crashing (HasAdded piece.now)
            (K.held keeper.old) (K.crashes keeper.old) (K.crashes keeper.new) }
        ensures settled { OnOk result (K.settled keeper.new) }
        ensures asked { K.asked keeper.new ≡ K.asked keeper.old }
    {
        self.dirty = true;
        keeper.append(piece)?;
        self.good += piece.len() as u64;
        self.dirty = false;
        self.form = Form::Second;
        Ok(())
    }

    /// Appends a piece after what is kept. What else stands there is cut first.
    fn put<K: Keeper>(&mut self, keeper: &mut K, piece: &[u8]) -> Result<(), Failed>
        requires { self.old.good + length piece.now < 2 ^ 64 }
        ensures ok { OnOk result (self.new ≡ journal_grown self.old piece.now) }
        ensures err { OnErr result (self.new ≡ broken self.old) }
        ensures bytes { Puts piece.now self.old (K.held keeper.old) (K.held keeper.new) result }
        ensures cause { HasCause (K.faults keeper.old) (K.faults keeper.new) result }
        ensures moments { Crashing (λ x. HasAdded piece.now (kept_of self.old x))
            (K.held keeper.old) (K.crashes keeper.old) (K.crashes keeper.new) }
        ensures settled { OnOk result (K.settled keeper.new) }
        ensures asked { K.asked keeper.new ≡ K.asked keeper.old }
    {
        self.mend(keeper)?;
        self.add(keeper, piece)
    }

    /// Appends the entry of a change in one piece: in an empty journal after the header, and in a
    /// journal of form 1 after the entry that ends this form. What a failed append may have left is
    /// cut first. The keeper is the one of the calls before.
    pub fn append<K: Keeper>(
        &mut self,
        alloc: Global,
        keeper: &mut K,
        change: &Change,
    ) -> Result<(), KeepFault>
        ensures ok { OnOk result
            (BearsMore change.now self.old (K.held keeper.old) self.new (K.held keeper.new)) }
        // What was kept is kept, and a front of its piece may stand after it.
        ensures lost { IsErrOf result KeepFault.Failed →
            BearsLost change.now self.old (K.held keeper.old) self.new (K.held keeper.new) }
        ensures bytes { Puts (piece self.old.good self.old.form change.now) self.old
            (K.held keeper.old) (K.held keeper.new) result }
        ensures journal_grown { OnOk result (self.new ≡ journal_grown self.old
            (piece self.old.good self.old.form change.now)) }
        ensures fits { OnOk result (HasEntry change.now) }
        ensures broken { IsErrOf result KeepFault.Failed → self.new ≡ broken self.old }
        ensures memory { IsErrOf result KeepFault.OutOfMemory → self.new ≡ self.old }
        ensures untouched { IsErrOf result KeepFault.OutOfMemory → keeper.new ≡ keeper.old }
        ensures grows { K.faults keeper.old ≤ K.faults keeper.new }
        ensures cause { IsErrOf result KeepFault.Failed →
            Rose (K.faults keeper.old) (K.faults keeper.new) }
        ensures kept { OnOk result (K.faults keeper.new ≡ K.faults keeper.old) }
        // A crash after it leaves the change, as it leaves those before.
        ensures settled { OnOk result (K.settled keeper.new) }
        // A crash on the way leaves those before, and of this one a part, or all.
        ensures moments { MovesOn change.now self.old (K.held keeper.old)
            (K.crashes keeper.old) (K.crashes keeper.new) }
        ensures asked { K.asked keeper.new ≡ K.asked keeper.old }
    {
        let Ok(piece) = piece(alloc, self.good, self.form, change) else {
            return Err(KeepFault::OutOfMemory);
        };
        if u64::MAX - self.good < piece.len() as u64 {
            return Err(KeepFault::OutOfMemory);
        }
        match self.put(keeper, piece.as_slice()) {
            Ok(()) => Ok(()),
            Err(Failed) => Err(KeepFault::Failed),
        }
    }
}
