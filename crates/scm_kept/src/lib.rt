//! What the kept changes of a history come to.
#![tactic(auto)]

ghost use Rattle.std.specs.Prelude.{◌≡◌, ◌≤◌, All, List, ℕ};
ghost use Rattle.journal_lasting.specs.Lasting.{IsOfFront};
ghost use Rattle.record_journal.specs.Bearing.{Stood, stood};
ghost use Rattle.record_journal.specs.declared.replaying.Replay.{Replay};
ghost use Rattle.scm_history.specs.Outcomes.{outcomes};
ghost use Rattle.scm_kept.specs.Fitting.{AllFit};
ghost use Rattle.scm_kept.specs.Read.{IsJournalOf, IsReadAgain, IsReadCut, IsReadOn};
ghost use Rattle.scm_kept.specs.Reopened.{IsLeftSo, IsReopened, IsReopenedCut, KeepsReplayable};
ghost use Rattle.scm_kept.specs.Reopened.{MayFollow, OpensToFront, StandsAsKept};
ghost use Rattle.scm_kept.specs.Replayed.{UnmarkedAreKept, unmarked};
ghost use Rattle.scm_model.specs.declared.flat.Config.{Config};
ghost use Rattle.scm_model.specs.declared.flat.Limits.{Limits};
ghost use Rattle.scm_model.specs.declared.steps.Change.{Change};
ghost use Rattle.scm_model.specs.Entries.{Entry};
ghost use Rattle.scm_rules.specs.Histories.{Legal};
ghost use Rattle.scm_rules.specs.Opening.{IsOpening, opening};
ghost use Rattle.scm_trail.specs.Segments.{IsCoded};

mod fitting;

use fitting::{bytes_fit, step_fits, steps_fit};
use scm_model::{Flat, Form, Limits, Step};
use scm_text::Items;

/// Replayed over the configurations that a legal history opens with, its kept changes give those of
/// the services that aren't marked, in order.
pub fn unmarked_configurations_are_kept(limits: &Limits, steps: &Items<(u64, Step)>, opening: &Flat)
    requires begins { IsOpening limits.now opening.now }
    requires legal { Legal limits.now opening.now steps.now }
    ensures { UnmarkedAreKept limits.now opening.now steps.now }
{}

/// Read once more, what an opening keeps of a journal results in the same configurations, and
/// changes that are appended to it and can be replayed are read after them: so what one run kept is
/// what the next one opens with. If the last append was cut off, the journal isn't damaged: all
/// before it is read, or all with its change.
pub fn what_was_kept_is_read()
    ensures again { (bytes : List ℕ) (replay : Replay) → IsReadAgain bytes replay }
    ensures on { (s : Stood) (configs : List Config) (changes : List Change) →
        IsReadOn s configs changes }
    ensures cut { (s : Stood) (configs : List Config) (change : Change) (size : ℕ) →
        IsReadCut s configs change size }
{}

/// The unmarked configurations of a state that a history opens in are those that it opens with, in
/// order.
pub fn openings_have_their_configurations()
    ensures { (l : Limits) (groups : List (List ℕ)) (configs : List Config) (moment : ℕ) →
        unmarked (opening l groups configs moment).services ≡ configs }
{}

/// A legal history that begins with what a journal is read as, under a limit of 1,024 services,
/// keeps changes that can be replayed, each over what those before it result in: appended to that
/// journal they are read, so what one run kept never opens as damaged. What is left of that journal
/// at the end holds no damage either: it is read as what was kept, or with one of the changes whose
/// append failed since the last that was kept. An append of the next step's change leaves none,
/// after whichever of its bytes it ended.
pub fn what_a_run_keeps_is_read(
    limits: &Limits,
    journal: &[u8],
    form: Form,
    opening: &Flat,
    steps: &Items<(u64, Step)>,
    next: &(u64, Step),
)
    requires few { limits.now.services ≤ 1024 }
    requires begins { IsOpening limits.now opening.now }
    requires read { IsJournalOf (stood form journal.now) (unmarked opening.now.services) }
    requires legal { Legal limits.now opening.now steps.now }
    ensures kept { KeepsReplayable limits.now opening.now steps.now }
    ensures reopened { IsReopened (stood form journal.now) limits.now opening.now steps.now }
    ensures stands { StandsAsKept (stood form journal.now) limits.now opening.now steps.now }
    ensures left { (now : List ℕ) →
        IsLeftSo (stood form journal.now) limits.now opening.now steps.now now }
    ensures cut { MayFollow limits.now opening.now steps.now next.now → (size : ℕ) →
        IsReopenedCut (stood form journal.now)
        limits.now opening.now steps.now next.now.1 size }
{
    bytes_fit(journal);
    steps_fit(steps.as_slice());
    step_fits(next);
}

/// What a crash may leave of a run that begins with what a journal is read as is read as what was
/// kept of a front of its history, or with one change more: one whose append failed since the last
/// that was kept, or whose append was in progress.
pub fn what_a_crash_leaves_is_read(
    limits: &Limits,
    journal: &[u8],
    form: Form,
    opening: &Flat,
    steps: &Items<(u64, Step)>,
)
    requires few { limits.now.services ≤ 1024 }
    requires begins { IsOpening limits.now opening.now }
    requires read { IsJournalOf (stood form journal.now) (unmarked opening.now.services) }
    requires legal { Legal limits.now opening.now steps.now }
    ensures { (least : ℕ) (now : List ℕ) →
        IsOfFront (stood form journal.now) (outcomes limits.now opening.now steps.now) least now
        → OpensToFront (stood form journal.now) limits.now opening.now steps.now least now }
{
    bytes_fit(journal);
    steps_fit(steps.as_slice());
}

/// A history whose entries have codes that are bytes fits the types of the program.
pub fn what_is_coded_fits()
    ensures { (es : List Entry) → All IsCoded es → AllFit es }
{}
