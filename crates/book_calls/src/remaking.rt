// Steps of a manager that only one caller has.
ghost use Rattle.std.specs.Prelude.{◌≡◌, ◌+◌, ◌<◌, ◌^◌, IsTrue};
ghost use Rattle.scm_core.specs.Managed.{WasMadeFor};
ghost use Rattle.scm_model.specs.Texts.{text_of};
ghost use Rattle.scm_rules.specs.Steps.{may};

use scm_core::Manager;
use scm_model::{Answer, Step};

/// Makes all that a step can use, and says whether it may be made.
fn is_next(manager: &mut Manager, moment: u64, step: &Step) -> bool
    ensures may { IsTrue result → IsTrue (may manager.new.limits manager.new.flat moment step.now) }
    ensures room { IsTrue result → WasMadeFor manager.new.room step.now }
    ensures steps { IsTrue result → manager.new.steps < 2 ^ 50 }
    ensures text { IsTrue result → manager.new.text + text_of step.now < 2 ^ 63 }
{
    match manager.reserve_for(step) {
        Ok(()) => manager.admits(moment, step) && manager.fits(step),
        Err(_) => false,
    }
}

/// Makes a step where it lies, and uses it up. There is none where it may not be made.
pub fn make(manager: &mut Manager, moment: u64, step: &mut Step) -> Option<Answer> {
    if is_next(manager, moment, step) {
        let mut answer = Answer::Done;
        manager.step_at(moment, step, &mut answer);
        Some(answer)
    } else {
        None
    }
}
