ghost use Rattle.std.specs.Prelude.{◌≡◌, ◌≤◌, [], IfOk, OnOk};
ghost use Rattle.scm_core.specs.Managed.{AreSmall};
ghost use Rattle.scm_rules.specs.Opening.{opening};
ghost use Rattle.scm_generate.specs.Ample.{IsAmple};
ghost use Rattle.scm_generate.specs.Listed.{generated};
ghost use Rattle.scm_generate.specs.Printed.{IfMade, IsPrintCaused, Prints};
ghost use Rattle.scm_generate.specs.Progress.{CanBeMade, IsOpenTo, Makes, progress_after};
ghost use Rattle.scm_generate.specs.Progress.{summed_up};
ghost use Rattle.scm_generate.specs.Summary.{generated_summary};

use super::creating::{CALLER, begin, create_all};
use super::generated::Generated;
use super::run::Run;
use super::starting::start_all;
use outside::{Failed, Sink, write_all};
use scm_model::{Limits, Step};
use scm_text::{Items, OutOfMemory};
use std::alloc::Global;

/// Makes the whole list.
fn make_all(run: &mut Run, alloc: Global, services: u32) -> Result<(), OutOfMemory>
    requires few { services ≤ 512 }
    requires open { IsOpenTo run.old (generated services) }
    ensures { OnOk result (Makes run.old (generated services) run.new) }
{
    begin(run)?;
    create_all(run, alloc, services)?;
    start_all(run, alloc, services)?;
    run.make(Step::Gone { caller: CALLER })
}

/// Makes the whole list, and sums it up.
fn summed_up(run: &mut Run, alloc: Global, services: u32) -> Result<Items<u8>, OutOfMemory>
    requires few { services ≤ 512 }
    requires open { IsOpenTo run.old (generated services) }
    ensures { IfOk result (λ text. text ≡ summed_up (progress_after run.old (generated services))) }
{
    make_all(run, alloc, services)?;
    run.summary(alloc)
}

/// The summary of the list for so many services.
fn summary_of(alloc: Global, limits: Limits, services: u32) -> Result<Items<u8>, OutOfMemory>
    requires small { AreSmall limits }
    requires ample { IsAmple limits }
    requires few { services ≤ 512 }
    ensures { IfOk result (λ text. text
        ≡ generated_summary limits (opening limits [] [] 0) (generated services)) }
{
    let mut run = Run::new(alloc, limits)?;
    let text = summed_up(&mut run, alloc, services);
    run.close();
    text
}

/// Makes the stated list of steps for so many services over a manager of its own, one step after
/// another, and prints its summary. Each step may be made in its state (`the_list_is_legal`), so
/// that none is tested: only what wants memory ends the run before the summary is printed.
pub fn generate<O: Sink>(alloc: Global, limits: Limits, services: u32, output: &mut O) -> Generated
    requires small { AreSmall limits }
    requires ample { IsAmple limits }
    requires few { services ≤ 512 }
    ensures prints { Prints (generated_summary limits (opening limits [] [] 0) (generated services))
        (O.held output.old) (O.held output.new) result }
    // What is summed up is a legal history.
    ensures can { IfMade result
        (CanBeMade limits (opening limits [] [] 0) (generated services)) }
    ensures faults { O.faults output.old ≤ O.faults output.new }
    ensures cause { IsPrintCaused result (O.faults output.old) (O.faults output.new) }
{
    let Ok(text) = summary_of(alloc, limits, services) else {
        return Generated::OutOfMemory;
    };
    match write_all(output, text.as_slice()) {
        Ok(()) => Generated::Ended,
        Err(Failed) => Generated::WriteFault,
    }
}
