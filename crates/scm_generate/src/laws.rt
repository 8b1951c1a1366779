ghost use Rattle.std.specs.Prelude.{◌≡◌, ◌≤◌, ◌+◌, ◌*◌, [], length};
ghost use Rattle.scm_rules.specs.Histories.{Legal};
ghost use Rattle.scm_rules.specs.Opening.{opening};
ghost use Rattle.scm_generate.specs.Ample.{IsAmple};
ghost use Rattle.scm_generate.specs.Listed.{generated, lines_to};
ghost use Rattle.scm_generate.specs.Progress.{CanBeMade};
ghost use Rattle.scm_generate.specs.Summary.{launches};

use scm_model::Limits;

/// How many steps and how many launches the list for so many services has.
pub fn law_of_counts(services: u32)
    ensures steps { length (generated services) ≡ 3 + 3 * services + 5 * lines_to services }
    ensures launches { launches (generated services) ≡ lines_to services }
{}

/// The law of the list: for up to 512 services it is a legal history from the state without
/// services on, each of its steps may be made in its state, and no launch is wanted where a start
/// is ended.
pub fn the_list_is_legal(limits: &Limits, services: u32)
    requires limits { IsAmple limits.now }
    requires few { services ≤ 512 }
    ensures legal { Legal limits.now (opening limits.now [] [] 0) (generated services) }
    ensures can { CanBeMade limits.now (opening limits.now [] [] 0) (generated services) }
{}
