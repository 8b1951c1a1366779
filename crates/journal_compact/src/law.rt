ghost use Rattle.std.specs.Prelude.{◌≡◌, List, Ok};
ghost use Rattle.scm_model.specs.declared.flat.Config.{Config};
ghost use Rattle.record_journal.specs.Entries.{read_journal};
ghost use Rattle.record_journal.specs.Opening.{CanBegin};
ghost use Rattle.record_journal.specs.declared.replaying.Replay.{Replay};
ghost use Rattle.journal_compact.specs.Compact.{HaveEntries, compact_replay, compact_text};

/// A compact text is read as its configurations, and all its bytes are kept, exactly if a manager
/// can begin with them; otherwise it is damaged.
pub fn a_compact_text_is_read_back()
    ensures back { (configs : List Config) → HaveEntries configs → CanBegin configs
        → read_journal (compact_text configs) ≡ Ok (compact_replay configs) }
    ensures only { (configs : List Config) (replay : Replay) → HaveEntries configs
        → read_journal (compact_text configs) ≡ Ok replay
        → CanBegin configs × (replay ≡ compact_replay configs) }
{}
