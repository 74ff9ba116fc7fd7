//! A finished run is checked by a second evaluator.

ghost use Rattle.std.specs.Prelude.{◌<◌, ◌^◌, ℕ, List, Option, IfOk, length};
ghost use Rattle.lola_model.specs.Acceptance.{IsAccepted};
ghost use Rattle.lola_model.specs.declared.journal.Entry.{Entry};
ghost use Rattle.lola_replay.specs.Ending.{FindsVerdicts};
ghost use Rattle.lola_replay.specs.Findings.{Finds};
ghost use Rattle.lola_replay.specs.Running.{IsFitRun, IsOn};

use crate::ending::{take_rest, verdicts_finding};
use crate::entries::{Reader, ReplayedRun, begin_run, take_lines};
use crate::finding::Finding;
use crate::progress::Course;
use lola_model::journal::Show;
use lola_model::plan::Plan;
use lola_value::text::Memory;
use std::alloc::Global;

// The steps behind the last line are taken, and the verdicts judged.
fn finding_of_verdicts(course: &Course, run: &mut ReplayedRun) -> Result<Finding, Memory>
    requires accepted { IsAccepted course.now.plan.now }
    requires fit { IsFitRun course.now.plan.now run.old }
    requires few { run.old.tracking.entries < 2 ^ 63 }
    ensures { (start : Option ℕ) (text : List ℕ) (journal : List Entry) → IsOn course.now.plan.now start course.now.show text journal run.old
        → IfOk result (FindsVerdicts course.now.plan.now start course.now.show text journal) }
{
    let fault = take_rest(course, run)?;
    verdicts_finding(course, fault, run)
}

/// What a trace and verdicts are found to be, which are said to be those of a run of this plan with this start option, in
/// nanoseconds, that showed this: whether they are, and if not, the first line by which they are not. The trace decides first. Bytes
/// behind the last LF of a text are a line.
///
/// The run is evaluated anew, by a plainer evaluator than the one that runs monitors. `Memory` where memory runs out.
pub fn replay(
    alloc: Global,
    plan: &Plan,
    start: Option<u64>,
    show: Show,
    trace: &[u8],
    verdicts: &[u8],
) -> Result<Finding, Memory>
    requires accepted { IsAccepted plan.now }
    requires few_entries { length trace.now < 2 ^ 63 }
    requires few_lines { length verdicts.now < 2 ^ 63 }
    ensures { IfOk result (Finds (record { plan = plan.now; start = start; show = show; trace = trace.now; verdicts = verdicts.now })) }
{
    let course = Course { alloc, plan, show };
    let mut reader = Reader::create(&course)?;
    let mut run = begin_run(&course, start, verdicts)?;
    match take_lines(&course, &mut reader, trace, &mut run)? {
        Some(line) => Ok(Finding::TraceDiffers(line)),
        None => finding_of_verdicts(&course, &mut run),
    }
}
