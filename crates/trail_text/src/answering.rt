ghost use Rattle.std.specs.Prelude.{◌≡◌, ◌+◌, ◌<◌, ◌^◌, ◌++◌, ◌∷◌, [], IsTrue, List, None, OnOk};
ghost use Rattle.std.specs.Prelude.{codes, ℕ};
ghost use Rattle.scm_core.specs.Managed.{WasMadeFor};
ghost use Rattle.scm_model.specs.Texts.{text_of};
ghost use Rattle.scm_rules.specs.Steps.{may, step_of};
ghost use Rattle.trail_text.specs.Histories.{answer_line, answered_text};

use scm_core::Manager;
use scm_lines::{put_order, put_told};
use scm_model::{Answer, Step};
use scm_replay::is_shared_by;
use scm_text::OutOfMemory;
use std::alloc::{AllocFailed, Global};

/// Puts an answer into a line, and a line feed after it.
fn put_text(
    alloc: Global,
    line: &mut Vec<u8>,
    answer: &Answer,
    shared: bool,
) -> Result<(), OutOfMemory>
    ensures { OnOk result (line.new.items ≡ answered_text shared answer.now ++ 10 ∷ []) }
{
    match answer {
        Answer::Control(order) => put_order(line, order, shared),
        other => put_told(alloc, line, other),
    }
}

/// Takes the line feed off a line, and puts `= ` in front of it.
fn mark(line: &mut Vec<u8>) -> Result<(), AllocFailed<u8>>
    ensures { (text : List ℕ) → line.old.items ≡ text ++ 10 ∷ []
        → OnOk result (line.new.items ≡ codes "= " ++ text) }
{
    line.pop();
    line.insert(0, b' ')?;
    line.insert(0, b'=')
}

/// Puts the line that tells an answer in place of another, without the line feed that ends it.
fn put_answer(
    alloc: Global,
    line: &mut Vec<u8>,
    answer: &Answer,
    shared: bool,
) -> Result<(), OutOfMemory>
    ensures { OnOk result (line.new.items ≡ codes "= " ++ answered_text shared answer.now) }
{
    put_text(alloc, line, answer, shared)?;
    match mark(line) {
        Ok(()) => Ok(()),
        Err(_) => Err(OutOfMemory),
    }
}

/// Makes the step of an entry where it lies, which is used up, and puts the line that tells its
/// answer in place of another, without the line feed that ends it. The line's memory serves line
/// after line. The step is made even if there is no memory for the line.
pub fn answer_entry(
    alloc: Global,
    manager: &mut Manager,
    moment: u64,
    step: &mut Step,
    line: &mut Vec<u8>,
) -> Result<(), OutOfMemory>
    requires may { IsTrue (may manager.old.limits manager.old.flat moment step.old) }
    requires room { WasMadeFor manager.old.room step.old }
    requires steps { manager.old.steps < 2 ^ 50 }
    requires text { manager.old.text + text_of step.old < 2 ^ 63 }
    ensures line { OnOk result (line.new.items
        ≡ answer_line manager.old.limits manager.old.flat (moment, step.old)) }
    ensures flat { manager.new.flat
        ≡ (step_of manager.old.limits manager.old.flat moment step.old).flat }
    ensures limits { manager.new.limits ≡ manager.old.limits }
    ensures steps { manager.new.steps ≡ manager.old.steps + 1 }
    ensures text { manager.new.text ≡ manager.old.text + text_of step.old }
    ensures room { manager.new.room ≡ None }
{
    let shared = is_shared_by(manager, step);
    let mut answer = Answer::Done;
    manager.step_at(moment, step, &mut answer);
    let put = put_answer(alloc, line, &answer, shared);
    drop(answer);
    put
}
