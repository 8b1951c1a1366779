ghost use Rattle.std.specs.Prelude.{ℕ, List, Option};
ghost use Rattle.scm_model.specs.Entries.{Entry};
ghost use Rattle.scm_trail.specs.Trailed.{Trailed};
ghost use Rattle.trail_log.specs.Recording.{HasFront, Stands};

/// At each moment, also between two writes, a log has a front of the codes of the history: nothing
/// is written twice, out of order, or before what comes earlier.
pub fn a_log_is_a_front()
    ensures { (was held : Option (List ℕ)) (log : List Entry) (t : Trailed) (at : ℕ)
        → Stands was log t at held → HasFront was log t held }
{}
