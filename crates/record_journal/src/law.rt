ghost use Rattle.std.specs.Prelude.{◌≡◌, ◌≤◌, ◌++◌, ◌∷◌, [], List, Some, length, map, ℕ};
ghost use Rattle.std.specs.List.{flat_map};
ghost use Rattle.scm_model.specs.declared.steps.Change.{Change};
ghost use Rattle.record_journal.specs.Bearing.{and_changes, stood};
ghost use Rattle.record_journal.specs.Format.{HasEntryIn, entry_bytes, entry_in, held_in};
ghost use Rattle.record_journal.specs.Format.{journal_bytes, switch};
ghost use Rattle.record_journal.specs.ReadBack.{AreReplayableIn, AreUpgraded, HasParts};
ghost use Rattle.record_journal.specs.ReadBack.{IsNotCut, IsReadBack, journal_in, old_configs};
ghost use Rattle.record_journal.specs.ReadBack.{upgraded};
ghost use Rattle.record_journal.specs.Replay.{replayed};
ghost use Rattle.scm_model.specs.declared.steps.Form.{Form};
ghost use Rattle.scm_model.specs.declared.steps.Form.TheVariants.{First, Second};

/// Changes that are appended to a journal make the journal of all changes: its header stands once,
/// and its entries in order.
pub fn appended_changes_are_a_journal()
    ensures { (old more : List Change) →
        and_changes (Some (stood Second (journal_bytes old))) more
        ≡ Some (stood Second (journal_bytes (old ++ more))) }
{}

/// Changes that are appended to a journal of form 1 stand after one entry that ends this form.
pub fn appended_changes_end_form_1()
    ensures { (bytes : List ℕ) (change : Change) (more : List Change) → 1 ≤ length bytes →
        and_changes (Some (stood First bytes)) (change ∷ more)
        ≡ Some (stood Second (bytes ++ switch ++ flat_map entry_bytes (change ∷ more))) }
{}

/// The entries of changes that can be replayed one after the other are read as what these come to,
/// whatever part of an entry stands after them; the part is not kept.
pub fn a_journal_is_read_back()
    // A journal of either form.
    ensures alone { (form : Form) (changes : List Change) → AreReplayableIn form [] changes
        → IsReadBack (journal_in form changes) form (replayed [] (map (held_in form) changes)) }
    // One of form 1 that goes on in form 2.
    ensures both { (old changes : List Change) → AreUpgraded old changes
        → IsReadBack (upgraded old changes) Second (replayed (old_configs old) changes) }
{}

/// What an append that was cut off leaves of its entry is a part of one, and no damage; and so is
/// what it leaves of the entry that ends form 1.
pub fn an_entry_has_parts()
    ensures entry { (form : Form) (change : Change) → HasEntryIn form change
        → HasParts form (entry_in form change) }
    ensures turn { HasParts First switch }
{}

/// A journal in which one byte has been changed is damaged, or is read with all its bytes: nothing
/// of it is cut.
pub fn a_changed_byte_cuts_nothing()
    ensures alone { (form : Form) (changes : List Change) → AreReplayableIn form [] changes
        → IsNotCut (journal_in form changes) }
    ensures both { (old changes : List Change) → AreUpgraded old changes
        → IsNotCut (upgraded old changes) }
{}
