//! The end of a run: the deadlines behind its last row, and the end line.

ghost use Rattle.std.specs.Prelude.{◌≡◌, ◌<◌, ◌+◌, ◌^◌, ℕ, List, Option, None, IfOk, OnOk, length};
ghost use Rattle.std.specs.Bool.{MatchBool};
ghost use Rattle.lola_model.specs.Acceptance.{IsAccepted};
ghost use Rattle.lola_model.specs.declared.journal.Entry.{Entry};
ghost use Rattle.lola_replay.specs.Ending.{FindsEnd, FindsVerdicts, IsEndBy, IsEnded, IsGoodEnd};
ghost use Rattle.lola_replay.specs.Running.{IsFitRun, IsOn};

use crate::compare::{Compared, line_length};
use crate::entries::ReplayedRun;
use crate::finding::Finding;
use crate::progress::{Course, Fault, take_deadlines};
use crate::tracking::start_at;
use crate::written::{RunCounts, is_done, is_fault, is_malformed, is_unreadable};
use lola_model::law::one_model_of_accepted;
use lola_value::text::{Memory, Text};

// The deadlines behind the last row, up to a fault.
fn take_last(course: &Course, run: &mut ReplayedRun) -> Result<Option<Fault>, Memory>
    requires accepted { IsAccepted course.now.plan.now }
    requires fit { IsFitRun course.now.plan.now run.old }
    requires fine { run.old.fault ≡ None }
    requires few { run.old.tracking.entries < 2 ^ 63 }
    ensures tracking { OnOk result (run.new.tracking ≡ run.old.tracking) }
    ensures room { OnOk result (run.new.progress.compared.lines + length run.new.progress.compared.rest.now < 2 ^ 63) }
    ensures ended { (start : Option ℕ) (text : List ℕ) (journal : List Entry) → IsOn course.now.plan.now start course.now.show text journal run.old
        → IfOk result (λ fault. IsEnded course.now.plan.now start course.now.show text journal fault run.new) }
{
    one_model_of_accepted(course.plan);
    let start = start_at(run.tracking.begin, 0);
    take_deadlines(course, start, run.tracking.limit, &mut run.progress)
}

/// All steps of a run are taken, up to a fault.
pub fn take_rest(course: &Course, run: &mut ReplayedRun) -> Result<Option<Fault>, Memory>
    requires accepted { IsAccepted course.now.plan.now }
    requires fit { IsFitRun course.now.plan.now run.old }
    requires few { run.old.tracking.entries < 2 ^ 63 }
    ensures tracking { OnOk result (run.new.tracking ≡ run.old.tracking) }
    ensures room { OnOk result (run.new.progress.compared.lines + length run.new.progress.compared.rest.now < 2 ^ 63) }
    ensures ended { (start : Option ℕ) (text : List ℕ) (journal : List Entry) → IsOn course.now.plan.now start course.now.show text journal run.old
        → IfOk result (λ fault. IsEnded course.now.plan.now start course.now.show text journal fault run.new) }
{
    one_model_of_accepted(course.plan);
    match run.fault {
        Some(fault) => Ok(Some(fault)),
        None => take_last(course, run),
    }
}

// Whether a line is an end line of a run without a fault.
fn is_good_end(counts: &RunCounts, line: &[u8], written: &mut Text) -> Result<bool, Memory>
    ensures { IfOk result (λ is. MatchBool is (IsGoodEnd counts.now line.now) (¬ (IsGoodEnd counts.now line.now))) }
{
    if is_done(counts, line, written)? {
        return Ok(true);
    }
    if is_unreadable(line, written)? {
        return Ok(true);
    }
    is_malformed(line, written)
}

// Whether a line is the end line of a run with these counts and this fault, if it has one.
fn is_end_line(
    course: &Course,
    counts: &RunCounts,
    fault: Option<Fault>,
    line: &[u8],
    written: &mut Text,
) -> Result<bool, Memory>
    ensures { IfOk result (λ is. MatchBool is (IsEndBy course.now.plan.now counts.now fault line.now) (¬ (IsEndBy course.now.plan.now counts.now fault line.now))) }
{
    match fault {
        Some(fault) => is_fault(course, fault, line, written),
        None => is_good_end(counts, line, written),
    }
}

// What the end line tells, where all verdict lines were the same.
fn end_finding(
    course: &Course,
    counts: &RunCounts,
    fault: Option<Fault>,
    entries: u64,
    compared: Compared,
    written: &mut Text,
) -> Result<Finding, Memory>
    requires room { compared.lines + length compared.rest.now < 2 ^ 63 }
    ensures { IfOk result (FindsEnd course.now.plan.now counts.now fault entries compared.entry) }
{
    if compared.rest.is_empty() {
        return Ok(Finding::VerdictsDiffer(compared.lines + 1));
    }
    let long = line_length(compared.rest);
    if !is_end_line(course, counts, fault, &compared.rest[..long], written)? {
        return Ok(Finding::VerdictsDiffer(compared.lines + 1));
    }
    if long < compared.rest.len() {
        return Ok(Finding::VerdictsDiffer(compared.lines + 2));
    }
    Ok(Finding::Same {
        entries,
        lines: compared.lines,
    })
}

/// What the verdicts of a run are found to be, all steps of which are taken.
pub fn verdicts_finding(
    course: &Course,
    fault: Option<Fault>,
    run: &mut ReplayedRun,
) -> Result<Finding, Memory>
    requires room { run.old.progress.compared.lines + length run.old.progress.compared.rest.now < 2 ^ 63 }
    ensures { (start : Option ℕ) (text : List ℕ) (journal : List Entry) → IsEnded course.now.plan.now start course.now.show text journal fault run.old
        → IfOk result (FindsVerdicts course.now.plan.now start course.now.show text journal) }
{
    let compared = run.progress.compared;
    if let Some(line) = compared.other {
        return Ok(Finding::VerdictsDiffer(line));
    }
    let counts = RunCounts {
        accepted: run.tracking.rows,
        late: run.tracking.late,
        steps: run.progress.steps,
        lines: compared.lines,
    };
    end_finding(
        course,
        &counts,
        fault,
        run.tracking.entries,
        compared,
        &mut run.progress.line,
    )
}
