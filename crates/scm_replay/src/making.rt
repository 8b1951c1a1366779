ghost use Rattle.std.specs.Prelude.{◌≡◌, ◌+◌, ◌<◌, ◌^◌, IsTrue, OnErr, OnOk, Some};
ghost use Rattle.scm_model.specs.Entries.{unkept, with_kept};
ghost use Rattle.scm_model.specs.Texts.{text_of};
ghost use Rattle.scm_replay.specs.Along.{IsFit, Keeps};
ghost use Rattle.scm_replay.specs.Outcomes.{finds_room, is_shared_by, kept_as, outcome_at};
ghost use Rattle.scm_replay.specs.Outcomes.{outcome_by, outcome_in, outcome_made, standing, unmet};

use super::looking::missed_by;
use super::outcome::Outcome;
use scm_core::{Manager, is_owed};
use scm_lines::{Line, read_line};
use scm_model::{Answer, Kept, Step};
use scm_shapes::Values;
use scm_text::OutOfMemory;
use std::alloc::Global;

/// What becomes of a change, where there is one.
pub fn kept_as(changes: bool, fails: bool) -> Kept
    ensures { result ≡ kept_as changes fails }
{
    match (changes, fails) {
        (false, _) => Kept::NotAsked,
        (true, false) => Kept::Kept,
        (true, true) => Kept::Failed,
    }
}

/// What the line of a step results in if the step may not come.
fn unmet(step: &Step) -> Outcome
    ensures { result ≡ unmet step.now }
{
    match step {
        Step::Joined { .. } => Outcome::TooMany,
        _ => Outcome::Bad,
    }
}

/// Whether the limits have room for a step, where it needs some.
fn finds_room(manager: &Manager, step: &Step) -> bool
    ensures { result ≡ finds_room manager.now.limits (standing manager.now) step.now }
{
    is_owed(step) || manager.room(step)
}

/// Makes room for a step, if there is memory and the manager can still count it.
pub fn makes_room(manager: &mut Manager, step: &Step) -> bool
    ensures flat { manager.new.flat ≡ manager.old.flat }
    ensures limits { manager.new.limits ≡ manager.old.limits }
    ensures steps { manager.new.steps ≡ manager.old.steps }
    ensures text { manager.new.text ≡ manager.old.text }
    ensures room { IsTrue result → manager.new.room ≡ Some (unkept step.now) }
    ensures fits { IsTrue result → manager.new.text + text_of step.now < 2 ^ 63 }
{
    match manager.reserve_for(step) {
        Ok(()) => manager.fits(step),
        Err(_) => false,
    }
}

/// Lets a step tell what became of its change.
pub fn keep_as(step: &mut Step, now: Kept)
    ensures { step.new ≡ with_kept step.old now }
{
    if let Step::Call { kept, .. } = step {
        *kept = now;
    }
}

/// Whether the process whose order a step takes is shared.
pub fn is_shared_by(manager: &Manager, step: &Step) -> bool
    ensures { result ≡ is_shared_by manager.now.flat step.now }
{
    match step {
        Step::ControlTaken { process } => manager.shares(*process),
        _ => false,
    }
}

/// What a step that was answered so results in.
fn outcome_by_answer(shared: bool, answer: Answer) -> Outcome
    ensures { result ≡ outcome_by shared answer }
{
    match answer {
        Answer::Control(order) => Outcome::Handed { order, shared },
        other => Outcome::Answered(other),
    }
}

/// Puts an outcome in place of another.
#[inline(always)]
fn put(outcome: &mut Outcome, now: Outcome)
    ensures { outcome.new ≡ now }
{
    *outcome = now;
}

/// Makes the step of a line that isn't a look in vain, if it may come and finds room.
#[tactic(auto, unfolding(crate::specs::Outcomes::outcome_made))]
fn made_in(manager: &mut Manager, line: &mut Line, outcome: &mut Outcome) -> Result<(), OutOfMemory>
    requires { IsFit manager.old 0 1 }
    ensures outcome { OnOk result (outcome.new
        ≡ (outcome_made manager.old.limits (standing manager.old) line.old).0) }
    ensures standing { OnOk result (standing manager.new
        ≡ (outcome_made manager.old.limits (standing manager.old) line.old).1) }
    ensures err { OnErr result (standing manager.new ≡ standing manager.old) }
    ensures keeps { Keeps manager.old manager.new 1 }
{
    if !manager.may(line.moment, &line.step) {
        put(outcome, unmet(&line.step));
        return Ok(());
    }
    if !finds_room(manager, &line.step) {
        put(outcome, Outcome::Full);
        return Ok(());
    }
    if !makes_room(manager, &line.step) {
        return Err(OutOfMemory);
    }
    let shared = is_shared_by(manager, &line.step);
    let kept = kept_as(manager.makes_change(&line.step), line.fails);
    keep_as(&mut line.step, kept);
    let mut answer = Answer::Done;
    manager.step_at(line.moment, &mut line.step, &mut answer);
    put(outcome, outcome_by_answer(shared, answer));
    Ok(())
}

/// Makes the step of a line, unless it looks in vain, may not come or finds no room.
fn outcome_in(
    manager: &mut Manager,
    line: &mut Line,
    outcome: &mut Outcome,
) -> Result<(), OutOfMemory>
    requires { IsFit manager.old 0 1 }
    ensures outcome { OnOk result (outcome.new
        ≡ (outcome_in manager.old.limits (standing manager.old) line.old).0) }
    ensures standing { OnOk result (standing manager.new
        ≡ (outcome_in manager.old.limits (standing manager.old) line.old).1) }
    ensures err { OnErr result (standing manager.new ≡ standing manager.old) }
    ensures keeps { Keeps manager.old manager.new 1 }
{
    match missed_by(manager, line.moment, &line.step) {
        Some(missed) => {
            put(outcome, Outcome::InVain(missed));
            Ok(())
        }
        None => made_in(manager, line, outcome),
    }
}

/// Reads a text into a line, and makes its step, if it is one and its step may come and finds room.
fn outcome_by(
    alloc: Global,
    manager: &mut Manager,
    text: &[u8],
    values: &mut Values,
    line: &mut Line,
    outcome: &mut Outcome,
) -> Result<(), OutOfMemory>
    requires { IsFit manager.old 0 1 }
    ensures outcome { OnOk result (outcome.new
        ≡ (outcome_at manager.old.limits (standing manager.old) text.now).0) }
    ensures standing { OnOk result (standing manager.new
        ≡ (outcome_at manager.old.limits (standing manager.old) text.now).1) }
    ensures err { OnErr result (standing manager.new ≡ standing manager.old) }
    ensures keeps { Keeps manager.old manager.new 1 }
{
    if read_line(alloc, text, values, line)? {
        outcome_in(manager, line, outcome)
    } else {
        put(outcome, Outcome::Bad);
        Ok(())
    }
}

/// Makes the step of a text, if it is a line and its step may come and finds room. The result is
/// left in `outcome`: an outcome has 160 bytes and a line 200, so none of them is handed about.
pub fn outcome_at(
    alloc: Global,
    manager: &mut Manager,
    text: &[u8],
    values: &mut Values,
    outcome: &mut Outcome,
) -> Result<(), OutOfMemory>
    requires { IsFit manager.old 0 1 }
    ensures outcome { OnOk result (outcome.new
        ≡ (outcome_at manager.old.limits (standing manager.old) text.now).0) }
    ensures standing { OnOk result (standing manager.new
        ≡ (outcome_at manager.old.limits (standing manager.old) text.now).1) }
    ensures err { OnErr result (standing manager.new ≡ standing manager.old) }
    ensures keeps { Keeps manager.old manager.new 1 }
{
    let mut line = Line {
        moment: 0,
        step: Step::Tick,
        fails: false,
    };
    let made = outcome_by(alloc, manager, text, values, &mut line, outcome);
    drop(line);
    made
}
