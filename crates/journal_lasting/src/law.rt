ghost use Rattle.std.specs.Prelude.{◌≡◌, ◌++◌, ◌∷◌, [], false, List, ℕ};
ghost use Rattle.std.specs.List.{list_any};
ghost use Rattle.journal_lasting.specs.Lasting.{HasLasted, StandsByKept, TurnLeaves, stood_after};
ghost use Rattle.record_journal.specs.Bearing.{IsKept, Stands, Stood};
ghost use Rattle.scm_history.specs.Outcomes.{Outcome, is_lost};

use record_journal::Keeper;

/// What a crash may leave of a keeper between two turns, turn by turn.
pub fn a_run_lasts<K: Keeper>(old: &K, new: &K)
    // At the opening.
    ensures opened { (s : Stood) → Stands s (K.crashes old.now)
        → HasLasted s (K.crashes old.now).moment [] (K.crashes old.now) }
    // A turn more.
    ensures more { (s : Stood) (opened : ℕ) (outs : List Outcome) (o : Outcome)
        → HasLasted s opened outs (K.crashes old.now)
        → TurnLeaves (stood_after s outs) o (K.crashes old.now) (K.crashes new.now)
        → HasLasted s opened (outs ++ o ∷ []) (K.crashes new.now) }
{}

/// Where no append of a run failed nothing is lost, and then what is left is what was kept, and no
/// byte more.
pub fn what_never_failed_is_left_alone()
    ensures none { (s : Stood) (outs : List Outcome) → s.lost ≡ [] → list_any is_lost outs ≡ false
        → (stood_after s outs).lost ≡ [] }
    ensures alone { (s : Stood) (now : List ℕ) → s.lost ≡ [] → IsKept s now → now ≡ s.bytes }
{}

/// What is kept of a run is what the changes that were kept result in. Those whose append failed
/// leave no byte there.
pub fn what_was_kept_stands()
    ensures { (s : Stood) (outs : List Outcome) → StandsByKept s outs }
{}
