//! The lines of a trace, taken one after another, up to the first that is wrong.

ghost use Rattle.std.specs.Prelude.{◌≡◌, ◌≤◌, ◌<◌, ◌+◌, ◌++◌, ◌^◌, ℕ, List, [], ◌∷◌, Option, None, true, false, IfOk, IfSome, OnOk, drop, is_some, length};
ghost use Rattle.lola_value.specs.Times.{latest};
ghost use Rattle.lola_model.specs.Acceptance.{IsAccepted};
ghost use Rattle.lola_model.specs.Journal.{accepted};
ghost use Rattle.lola_model.specs.Trace.{IsTraceable, input_kinds};
ghost use Rattle.lola_model.specs.declared.journal.Entry.{Entry};
ghost use Rattle.lola_replay.specs.Progressing.{IsSettled};
ghost use Rattle.lola_replay.specs.Running.{IsFitRun, IsJudged, IsLineTaken, IsOn, IsStart, IsTraceTaken};
ghost use Rattle.lola_replay.specs.Tracked.{is_right, marked_in, noted};

use crate::compare::line_length;
use crate::progress::{Course, Fault, Progress, begin, take_row};
use crate::tracking::{Tracking, is_right, note, start_at, untracked};
use lola_model::journal::{Entry, Mark, Row};
use lola_model::law::one_model_of_accepted;
use lola_model::spec::Kinds;
use lola_report::kinds_of;
use lola_report::line::{LineRoom, entry_of};
use lola_value::text::Memory;

/// How far a run is replayed.
#[derive(Drop)]
pub struct ReplayedRun<'a> {
    /// What the lines of the trace told.
    pub tracking: Tracking,
    /// How far the steps are taken.
    pub progress: Progress<'a>,
    /// The fault of the last of them, if it has one.
    pub fault: Option<Fault>,
}

/// What reads the lines of a trace.
#[derive(Drop)]
pub struct Reader {
    /// The kinds of the inputs.
    pub kinds: Kinds,
    room: LineRoom,
}

impl Reader {
    /// For the traces of a plan.
    pub fn create(course: &Course) -> Result<Reader, Memory>
        ensures { IfOk result (λ reader. reader.kinds ≡ input_kinds course.now.plan.now.spec.streams) }
    {
        Ok(Reader {
            kinds: kinds_of(course.alloc, course.plan.spec.streams.as_slice())?,
            room: LineRoom::create(course.alloc)?,
        })
    }
}

/// Before the first line, with this start option and these verdicts.
pub fn begin_run<'a>(
    course: &Course,
    start: Option<u64>,
    verdicts: &'a [u8],
) -> Result<ReplayedRun<'a>, Memory>
    requires accepted { IsAccepted course.now.plan.now }
    requires few { length verdicts.now < 2 ^ 63 }
    ensures fit { IfOk result (λ run. IsFitRun course.now.plan.now run × (run.tracking.entries ≡ 0)) }
    ensures on { IfOk result (λ run. IsOn course.now.plan.now start course.now.show verdicts.now [] run) }
{
    Ok(ReplayedRun {
        tracking: untracked(start),
        progress: begin(course, verdicts)?,
        fault: None,
    })
}

// Whether the last step that was taken has a fault.
fn has_fault(run: &ReplayedRun) -> bool
    ensures { result ≡ is_some run.now.fault }
{
    run.fault.is_some()
}

// The entry of a line that is right behind those so far.
fn right_entry(
    course: &Course,
    reader: &mut Reader,
    line: &[u8],
    run: &ReplayedRun,
) -> Result<Option<Entry>, Memory>
    requires accepted { IsAccepted course.now.plan.now }
    requires kinds { reader.old.kinds ≡ input_kinds course.now.plan.now.spec.streams }
    ensures kinds { reader.new.kinds ≡ reader.old.kinds }
    ensures right { IfOk result (λ found. IfSome found (λ entry. (run.now.fault ≡ None) × (is_right run.now.tracking entry ≡ true) × IsTraceable course.now.plan.now entry)) }
    ensures judged { (start : Option ℕ) (text : List ℕ) (journal : List Entry) → IsOn course.now.plan.now start course.now.show text journal run.now
        → IfOk result (IsJudged course.now.plan.now start journal line.now) }
{
    one_model_of_accepted(course.plan);
    if has_fault(run) {
        return Ok(None);
    }
    match entry_of(
        course.alloc,
        reader.kinds.as_slice(),
        line,
        &mut reader.room,
    )? {
        Some(entry) => {
            if is_right(&run.tracking, &entry) {
                Ok(Some(entry))
            } else {
                Ok(None)
            }
        }
        None => Ok(None),
    }
}

// The steps of an entry that is right.
fn take_steps(course: &Course, entry: &Entry, run: &mut ReplayedRun) -> Result<(), Memory>
    requires accepted { IsAccepted course.now.plan.now }
    requires fit { IsFitRun course.now.plan.now run.old }
    requires fine { run.old.fault ≡ None }
    requires right { is_right run.old.tracking entry.now ≡ true }
    requires traceable { IsTraceable course.now.plan.now entry.now }
    requires few { run.old.tracking.entries + 1 < 2 ^ 63 }
    ensures tracking { OnOk result (run.new.tracking ≡ run.old.tracking) }
    ensures fit { OnOk result (IsFitRun course.now.plan.now (record { tracking = noted entry.now run.old.tracking; progress = run.new.progress; fault = run.new.fault })) }
    ensures settled { (start : Option ℕ) (text : List ℕ) (journal : List Entry) → IsOn course.now.plan.now start course.now.show text journal run.old
        → OnOk result ((t : ℕ) → IsStart (marked_in entry.now.mark entry.now.row.stamp run.old.tracking).begin t
        → IsSettled course.now.plan.now course.now.show text t (accepted (journal ++ entry.now ∷ [])) run.new.fault run.new.progress) }
{
    match entry.mark {
        Mark::Accepted => {
            let start = start_at(run.tracking.begin, entry.row.stamp);
            run.fault = take_row(course, start, &entry.row, &mut run.progress)?;
            Ok(())
        }
        Mark::Late(_) => Ok(()),
    }
}

// An entry that is right is taken.
fn take_entry(course: &Course, entry: &Entry, run: &mut ReplayedRun) -> Result<(), Memory>
    requires accepted { IsAccepted course.now.plan.now }
    requires fit { IsFitRun course.now.plan.now run.old }
    requires fine { run.old.fault ≡ None }
    requires right { is_right run.old.tracking entry.now ≡ true }
    requires traceable { IsTraceable course.now.plan.now entry.now }
    requires few { run.old.tracking.entries + 1 < 2 ^ 63 }
    ensures fit { OnOk result (IsFitRun course.now.plan.now run.new) }
    ensures entries { OnOk result (run.new.tracking.entries ≡ run.old.tracking.entries + 1) }
    ensures on { (start : Option ℕ) (text : List ℕ) (journal : List Entry) → IsOn course.now.plan.now start course.now.show text journal run.old
        → OnOk result (IsOn course.now.plan.now start course.now.show text (journal ++ entry.now ∷ []) run.new) }
{
    take_steps(course, entry, run)?;
    note(&mut run.tracking, entry);
    Ok(())
}

// A line is taken, or it is wrong.
fn take_line(
    course: &Course,
    reader: &mut Reader,
    line: &[u8],
    run: &mut ReplayedRun,
) -> Result<bool, Memory>
    requires accepted { IsAccepted course.now.plan.now }
    requires kinds { reader.old.kinds ≡ input_kinds course.now.plan.now.spec.streams }
    requires fit { IsFitRun course.now.plan.now run.old }
    requires few { run.old.tracking.entries + 1 < 2 ^ 63 }
    ensures kinds { reader.new.kinds ≡ reader.old.kinds }
    ensures fit { IfOk result (λ taken. taken ≡ true → IsFitRun course.now.plan.now run.new × (run.new.tracking.entries ≡ run.old.tracking.entries + 1)) }
    ensures wrong { IfOk result (λ taken. taken ≡ false → run.new.tracking.entries ≡ run.old.tracking.entries) }
    ensures taken { (start : Option ℕ) (text : List ℕ) (journal : List Entry) → IsOn course.now.plan.now start course.now.show text journal run.old
        → IfOk result (IsLineTaken course.now.plan.now start course.now.show text journal line.now run.new) }
{
    match right_entry(course, reader, line, run)? {
        Some(entry) => {
            take_entry(course, &entry, run)?;
            Ok(true)
        }
        None => Ok(false),
    }
}

// What stands behind so many bytes.
fn behind(bytes: &[u8], count: usize) -> &[u8]
    requires { count ≤ length bytes.now }
    ensures { result.now ≡ drop count bytes.now }
{
    &bytes[count..]
}

/// All lines of a trace are taken, or the number of the first that is wrong is told, from 1.
pub fn take_lines(
    course: &Course,
    reader: &mut Reader,
    trace: &[u8],
    run: &mut ReplayedRun,
) -> Result<Option<u64>, Memory>
    requires accepted { IsAccepted course.now.plan.now }
    requires kinds { reader.old.kinds ≡ input_kinds course.now.plan.now.spec.streams }
    requires fit { IsFitRun course.now.plan.now run.old }
    requires none { run.old.tracking.entries ≡ 0 }
    requires few { length trace.now < 2 ^ 63 }
    ensures fit { IfOk result (λ wrong. wrong ≡ None → IsFitRun course.now.plan.now run.new × (run.new.tracking.entries ≤ length trace.now)) }
    ensures taken { (start : Option ℕ) (text : List ℕ) → IsOn course.now.plan.now start course.now.show text [] run.old
        → IfOk result (λ wrong. IsTraceTaken course.now.plan.now start course.now.show text trace.now wrong run.new) }
{
    let mut rest = trace;
    while !rest.is_empty() {
        let long = line_length(rest);
        if !take_line(course, reader, &rest[..long], run)? {
            return Ok(Some(run.tracking.entries + 1));
        }
        rest = behind(rest, long);
    }
    Ok(None)
}
