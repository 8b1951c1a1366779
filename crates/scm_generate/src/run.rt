ghost use Rattle.std.specs.Prelude.{◌≡◌, ◌≤◌, ◌<◌, ◌+◌, ◌^◌, ◌∷◌, [], IfOk, IsTrue, OnOk};
ghost use Rattle.scm_core.specs.Managed.{AreSmall, WasMadeFor};
ghost use Rattle.scm_rules.specs.Steps.{may, step_of};
ghost use Rattle.scm_model.specs.Texts.{text_of};
ghost use Rattle.scm_generate.specs.Listed.{at_once};
ghost use Rattle.scm_generate.specs.Progress.{IsOpenTo, Makes, at_first, summed_up};
ghost use Rattle.scm_generate.specs.Summary.{launch_in};

use super::summary::summary_lines;
use scm_core::Manager;
use scm_model::{Answer, Limits, Step};
use scm_text::{Items, OutOfMemory};
use std::alloc::Global;
use std::marker::Model;

/// The moment at which every step takes place, in milliseconds.
const MOMENT: u64 = 0;

/// A run of steps over a manager of its own, which counts its steps and the launches that it took.
#[derive(Drop)]
pub struct Run {
    manager: Manager,
    steps: u64,
    launches: u64,
}

impl Model for Run {
    ghost use Rattle.scm_generate.specs.Progress.{Progress};

    ghost Value = { Progress };

    ghost use Rattle.scm_generate.specs.Progress.{progress, IsCounted};

    ghost view = { progress };

    ghost invariant = { IsCounted };
}

/// Whether a step takes a launch: 1 or 0.
fn launch_in(step: &Step) -> u64
    ensures value { result ≡ launch_in step.now }
    ensures small { result ≤ 1 }
{
    match step {
        Step::LaunchTaken => 1,
        _ => 0,
    }
}

/// Makes a step where it lies, whatever it answers.
fn act(manager: &mut Manager, step: &mut Step)
    requires may { IsTrue (may manager.old.limits manager.old.flat 0 step.old) }
    requires room { WasMadeFor manager.old.room step.old }
    requires steps { manager.old.steps < 2 ^ 50 }
    requires text { manager.old.text + text_of step.old < 2 ^ 63 }
    ensures flat { manager.new.flat
        ≡ (step_of manager.old.limits manager.old.flat 0 step.old).flat }
    ensures limits { manager.new.limits ≡ manager.old.limits }
    ensures steps { manager.new.steps ≡ manager.old.steps + 1 }
    ensures text { manager.new.text ≡ manager.old.text + text_of step.old }
{
    let mut answer = Answer::Done;
    manager.step_at(MOMENT, step, &mut answer);
    drop(answer);
}

impl Run {
    /// A run that has made no step, over a manager without services and callers.
    pub fn new(alloc: Global, limits: Limits) -> Result<Run, OutOfMemory>
        requires { AreSmall limits }
        ensures { IfOk result (λ run. run ≡ at_first limits) }
    {
        let manager = Manager::new(alloc, limits, Items::new(alloc), Items::new(alloc), MOMENT)?;
        Ok(Run {
            manager,
            steps: 0,
            launches: 0,
        })
    }

    /// Makes a step that may be made now, where it lies.
    fn make_lent(&mut self, step: &mut Step) -> Result<(), OutOfMemory>
        requires { IsOpenTo self.old (at_once step.old ∷ []) }
        ensures { OnOk result (Makes self.old (at_once step.old ∷ []) self.new) }
    {
        self.manager.reserve_for(step)?;
        self.launches += launch_in(step);
        self.steps += 1;
        act(&mut self.manager, step);
        Ok(())
    }

    /// Makes a step that may be made now.
    pub fn make(&mut self, mut step: Step) -> Result<(), OutOfMemory>
        requires { IsOpenTo self.old (at_once step ∷ []) }
        ensures { OnOk result (Makes self.old (at_once step ∷ []) self.new) }
    {
        let made = self.make_lent(&mut step);
        drop(step);
        made
    }

    /// The summary of the steps that were made.
    pub fn summary(&self, alloc: Global) -> Result<Items<u8>, OutOfMemory>
        ensures { IfOk result (λ text. text ≡ summed_up self.now) }
    {
        summary_lines(
            alloc,
            self.steps,
            self.manager.services(),
            self.launches,
            self.manager.running(),
        )
    }

    /// Lets the run go, and its manager.
    pub fn close(self) {
        self.manager.close();
    }
}
