//! The steps of a run, taken one after another: each is answered, its lines are compared, and it is put behind.

ghost use Rattle.std.specs.Prelude.{◌≡◌, ◌≤◌, ◌<◌, ◌+◌, ◌++◌, ◌^◌, ℕ, List, [], ◌∷◌, None, IfOk, IfSome, OnOk, length};
ghost use Rattle.std.specs.Option.{option_map};
ghost use Rattle.lola_value.specs.Times.{latest};
ghost use Rattle.lola_model.specs.Acceptance.{IsAccepted};
ghost use Rattle.lola_model.specs.NextStep.{due, next_below, open_after, open_from};
ghost use Rattle.lola_model.specs.Model.{Next, last_row};
ghost use Rattle.lola_model.specs.Steps.{deadline_step, row_step};
ghost use Rattle.lola_model.specs.Table.{TableRow};
ghost use Rattle.lola_model.specs.declared.journal.Row.{Row};
ghost use Rattle.lola_replay_table.specs.Moments.{HasSet, the_step};
ghost use Rattle.lola_replay_step.specs.Rests.{Rests, known_lines, rested_all};
ghost use Rattle.lola_replay_step.specs.StepFaults.{the_fault};
ghost use Rattle.lola_replay.specs.Comparing.{after_lines, comparison};
ghost use Rattle.lola_replay.specs.Progressing.{GoesBelow, IsAlong, IsAt, IsDeadlineTaken, IsFit, IsPassed, IsPast, IsSettled, IsTaken, IsTurned, Keeps, below, told_at};

use crate::compare::{Compared, uncompared};
use crate::lines::compare_streams;
use lola_model::journal::{Row, Show};
use lola_model::plan::Plan;
use lola_replay_step::due::due;
use lola_replay_step::fault::StepFault;
use lola_replay_step::law::due_is_known;
use lola_replay_step::whole::{StepRoom, answer_step, fresh, rest};
use lola_replay_table::scene::{ReplayedStep, present};
use lola_replay_table::table::{KnownRun, KnownStream};
use lola_value::text::{Memory, Text};
use lola_value::value::FaultKind;
use std::alloc::Global;

/// What a run is replayed by.
#[derive(Clone, Copy)]
pub struct Course<'a> {
    pub alloc: Global,
    pub plan: &'a Plan,
    pub show: Show,
}

/// The fault of a run.
#[derive(Clone, Copy)]
pub struct Fault {
    /// The stream that has it, by its number from 0.
    pub stream: usize,
    pub kind: FaultKind,
    /// The time of its step, in nanoseconds.
    pub time: u64,
}

/// How far the steps of a run are taken.
#[derive(Drop)]
pub struct Progress<'a> {
    /// What is known between steps.
    pub known: KnownRun,
    /// Whether there was no step yet.
    pub first: bool,
    /// The first moment, in nanoseconds, whose deadlines may still come.
    pub from: u64,
    /// How many steps there were.
    pub steps: u64,
    /// How many of them were of rows.
    pub rows: u64,
    /// How far the verdicts are compared.
    pub compared: Compared<'a>,
    /// Room that is kept from step to step.
    pub room: StepRoom,
    /// The line that is compared.
    pub line: Text,
}

// The step of this moment is answered, and has no fault: its lines are compared.
fn compare_step<'a>(
    course: &Course,
    time: u64,
    known: &[KnownStream],
    line: &mut Text,
    compared: Compared<'a>,
) -> Result<Compared<'a>, Memory>
    requires few { length course.now.plan.now.spec.streams ≤ 1024 }
    requires long { length known.now ≡ length course.now.plan.now.spec.streams }
    requires room { compared.lines + length compared.rest.now < 2 ^ 63 }
    ensures lines { IfOk result (λ c. comparison c ≡ after_lines (comparison compared.entry) (known_lines course.now.show time course.now.plan.now.spec.streams known.now)) }
    ensures room { IfOk result (λ c. c.lines + length c.rest.now ≤ compared.entry.lines + length compared.entry.rest.now) }
{
    let streams = course.plan.spec.streams.as_slice();
    compare_streams(
        course.plan,
        course.show,
        time,
        streams,
        known,
        line,
        compared,
    )
}

// The first moment whose deadlines may come behind a step.
fn open_after(moment: &ReplayedStep) -> u64
    requires { moment.now.time ≤ latest }
    ensures { result ≡ open_after (the_step moment.now) }
{
    match moment.fields {
        Some(_) => moment.time,
        None => moment.time + 1,
    }
}

// The step of this moment, which is answered and has no fault, is compared and put behind.
fn finish_step(
    course: &Course,
    moment: &ReplayedStep,
    progress: &mut Progress,
) -> Result<(), Memory>
    requires in_time { moment.now.time ≤ latest }
    requires few { length course.now.plan.now.spec.streams ≤ 1024 }
    requires long { length progress.old.known ≡ length course.now.plan.now.spec.streams }
    requires room { progress.old.compared.lines + length progress.old.compared.rest.now < 2 ^ 63 }
    ensures known { OnOk result (progress.new.known ≡ rested_all moment.now.time progress.old.room.closed.items progress.old.known) }
    ensures lines { OnOk result (comparison progress.new.compared ≡ after_lines (comparison progress.old.compared) (known_lines course.now.show moment.now.time course.now.plan.now.spec.streams progress.old.known)) }
    ensures room { OnOk result (progress.new.compared.lines + length progress.new.compared.rest.now < 2 ^ 63) }
    ensures from { OnOk result (progress.new.from ≡ open_after (the_step moment.now)) }
    ensures first { OnOk result (progress.new.first ≡ progress.old.first) }
    ensures steps { OnOk result (progress.new.steps ≡ progress.old.steps) }
    ensures rows { OnOk result (progress.new.rows ≡ progress.old.rows) }
{
    progress.compared = compare_step(
        course,
        moment.time,
        progress.known.as_slice(),
        &mut progress.line,
        progress.compared,
    )?;
    rest(
        &mut progress.known,
        moment.time,
        progress.room.closed.as_slice(),
    )?;
    progress.from = open_after(moment);
    Ok(())
}

/// The step of this moment is taken, and its fault told, if it has one.
pub fn take_step(
    course: &Course,
    moment: &ReplayedStep,
    progress: &mut Progress,
) -> Result<Option<StepFault>, Memory>
    requires in_time { moment.now.time ≤ latest }
    requires set { HasSet moment.now }
    requires accepted { IsAccepted course.now.plan.now }
    requires long { length progress.old.known ≡ length course.now.plan.now.spec.streams }
    requires room { progress.old.compared.lines + length progress.old.compared.rest.now < 2 ^ 63 }
    requires steps { progress.old.steps + 1 < 2 ^ 64 }
    ensures room { OnOk result (progress.new.compared.lines + length progress.new.compared.rest.now < 2 ^ 63) }
    ensures steps { OnOk result (progress.new.steps ≡ progress.old.steps + 1) }
    ensures rows { OnOk result (progress.new.rows ≡ progress.old.rows) }
    ensures fine { IfOk result (λ fault. fault ≡ None → (length progress.new.known ≡ length course.now.plan.now.spec.streams) × (progress.new.from ≡ open_after (the_step moment.now))) }
    ensures taken { (text : List ℕ) (table : List TableRow) → IsAt course.now.plan.now course.now.show text table progress.old
        → IfOk result (λ fault. IsTaken course.now.plan.now course.now.show text moment.now.start table (the_step moment.now) (option_map the_fault fault) progress.new) }
{
    let fault = answer_step(
        course.alloc,
        course.plan,
        moment,
        progress.first,
        &mut progress.known,
        &mut progress.room,
    )?;
    progress.first = false;
    progress.steps += 1;
    match fault {
        Some(fault) => Ok(Some(fault)),
        None => {
            finish_step(course, moment, progress)?;
            Ok(None)
        }
    }
}

/// What became of the next deadline below a limit.
#[derive(Clone, Copy)]
pub enum NextDeadline {
    /// There was none.
    Past,
    /// Its step is taken.
    Taken,
    /// Its step is taken and has this fault.
    Faulty(Fault),
}

// The moment of deadlines.
fn deadline_moment(start: u64, time: u64) -> ReplayedStep<'static>
    ensures start { result.start ≡ start }
    ensures step { the_step result ≡ deadline_step time }
{
    ReplayedStep {
        start,
        time,
        fields: None,
        present: 0,
    }
}

// The step of the deadlines of this moment is taken.
fn take_deadline(
    course: &Course,
    start: u64,
    time: u64,
    progress: &mut Progress,
) -> Result<NextDeadline, Memory>
    requires in_time { time ≤ latest }
    requires from { progress.old.from ≤ time }
    requires accepted { IsAccepted course.now.plan.now }
    requires fit { IsFit course.now.plan.now progress.old }
    requires few { progress.old.rows < 2 ^ 63 }
    ensures room { OnOk result (progress.new.compared.lines + length progress.new.compared.rest.now < 2 ^ 63) }
    ensures keeps { IfOk result (Keeps course.now.plan.now (time + 1) progress.old progress.new) }
    ensures taken { (text : List ℕ) (table : List TableRow) → IsAt course.now.plan.now course.now.show text table progress.old
        → IfOk result (λ turn. IsDeadlineTaken course.now.plan.now course.now.show text start table time turn progress.new) }
{
    let moment = deadline_moment(start, time);
    match take_step(course, &moment, progress)? {
        Some(fault) => Ok(NextDeadline::Faulty(Fault {
            stream: fault.stream,
            kind: fault.kind,
            time,
        })),
        None => Ok(NextDeadline::Taken),
    }
}

// A moment, if it is below a limit.
fn below(limit: u64, time: Option<u64>) -> Option<u64>
    ensures { result ≡ below limit time }
{
    match time {
        Some(time) => { if time < limit { Some(time) } else { None } }
        None => None,
    }
}

// The next deadline, if it is below a limit.
fn next_due(course: &Course, start: u64, limit: u64, progress: &Progress) -> Option<u64>
    requires accepted { IsAccepted course.now.plan.now }
    requires long { length progress.now.known ≡ length course.now.plan.now.spec.streams }
    requires limit { limit ≤ latest + 1 }
    ensures within { IfSome result (λ time. (progress.now.from ≤ time) × (time < limit)) }
    ensures due { (table : List TableRow) → Rests course.now.plan.now table progress.now.known → progress.now.from ≡ open_from (last_row table)
        → below limit (due course.now.plan.now table start) ≡ result }
{
    due_is_known(course.plan);
    let time = due(course.plan, start, progress.known.as_slice(), progress.from);
    below(limit, time)
}

// The next deadline below a limit is taken, if there is one.
fn take_due(
    course: &Course,
    start: u64,
    limit: u64,
    progress: &mut Progress,
) -> Result<NextDeadline, Memory>
    requires accepted { IsAccepted course.now.plan.now }
    requires fit { IsFit course.now.plan.now progress.old }
    requires few { progress.old.rows < 2 ^ 63 }
    requires limit { limit ≤ latest + 1 }
    ensures room { OnOk result (progress.new.compared.lines + length progress.new.compared.rest.now < 2 ^ 63) }
    ensures keeps { IfOk result (Keeps course.now.plan.now limit progress.old progress.new) }
    ensures turned { (text : List ℕ) (next : Next) (n : ℕ) → GoesBelow course.now.plan.now start next n limit
        → IsAlong course.now.plan.now course.now.show text start next n progress.old
        → IfOk result (λ turn. IsTurned course.now.plan.now course.now.show text start next n limit turn progress.new) }
{
    match next_due(course, start, limit, progress) {
        Some(time) => take_deadline(course, start, time, progress),
        None => Ok(NextDeadline::Past),
    }
}

/// The steps of all deadlines below a limit are taken, up to a fault.
pub fn take_deadlines(
    course: &Course,
    start: u64,
    limit: u64,
    progress: &mut Progress,
) -> Result<Option<Fault>, Memory>
    requires accepted { IsAccepted course.now.plan.now }
    requires fit { IsFit course.now.plan.now progress.old }
    requires few { progress.old.rows < 2 ^ 63 }
    requires limit { limit ≤ latest + 1 }
    requires from { progress.old.from ≤ limit }
    ensures room { OnOk result (progress.new.compared.lines + length progress.new.compared.rest.now < 2 ^ 63) }
    ensures kept { IfOk result (λ fault. fault ≡ None → IsFit course.now.plan.now progress.new × (progress.new.from ≤ limit) × (progress.new.rows ≡ progress.old.rows)) }
    ensures passed { (text : List ℕ) (next : Next) (n : ℕ) → GoesBelow course.now.plan.now start next n limit
        → IsAlong course.now.plan.now course.now.show text start next n progress.old
        → IfOk result (λ fault. IsPassed course.now.plan.now course.now.show text start next n limit fault progress.new) }
{
    loop {
        match take_due(course, start, limit, progress)? {
            NextDeadline::Past => return Ok(None),
            NextDeadline::Taken => {}
            NextDeadline::Faulty(fault) => return Ok(Some(fault)),
        }
    }
}

// The moment of a row.
fn row_moment(start: u64, row: &Row) -> ReplayedStep<'_>
    requires { length row.now.fields ≤ 64 }
    ensures start { result.start ≡ start }
    ensures set { HasSet result }
    ensures step { the_step result ≡ row_step row.now }
{
    let fields = row.fields.as_slice();
    ReplayedStep {
        start,
        time: row.stamp,
        fields: Some(fields),
        present: present(fields),
    }
}

// A fault at a time.
fn fault_at(fault: Option<StepFault>, time: u64) -> Option<Fault>
    ensures { result ≡ told_at time fault }
{
    match fault {
        Some(fault) => Some(Fault {
            stream: fault.stream,
            kind: fault.kind,
            time,
        }),
        None => None,
    }
}

// The step of a row is taken, where all deadlines before it are.
fn take_row_step(
    course: &Course,
    start: u64,
    row: &Row,
    progress: &mut Progress,
) -> Result<Option<Fault>, Memory>
    requires accepted { IsAccepted course.now.plan.now }
    requires fit { IsFit course.now.plan.now progress.old }
    requires few { progress.old.rows + 1 < 2 ^ 63 }
    requires from { progress.old.from ≤ row.now.stamp }
    requires stamp { row.now.stamp ≤ latest }
    requires fields { length row.now.fields ≤ 64 }
    ensures room { OnOk result (progress.new.compared.lines + length progress.new.compared.rest.now < 2 ^ 63) }
    ensures kept { IfOk result (λ fault. fault ≡ None → IsFit course.now.plan.now progress.new × (progress.new.from ≡ row.now.stamp) × (progress.new.rows ≡ progress.old.rows + 1)) }
    ensures settled { (text : List ℕ) (rows : List Row)
        → IsPast course.now.plan.now course.now.show text start (next_below course.now.plan.now start (rows ++ row.now ∷ []) 0) (length rows) row.now.stamp progress.old
        → IfOk result (λ fault. IsSettled course.now.plan.now course.now.show text start (rows ++ row.now ∷ []) fault progress.new) }
{
    let moment = row_moment(start, row);
    let fault = take_step(course, &moment, progress)?;
    progress.rows += 1;
    Ok(fault_at(fault, row.stamp))
}

/// The steps of the deadlines before an accepted row, and of the row, are taken, up to a fault.
pub fn take_row(
    course: &Course,
    start: u64,
    row: &Row,
    progress: &mut Progress,
) -> Result<Option<Fault>, Memory>
    requires accepted { IsAccepted course.now.plan.now }
    requires fit { IsFit course.now.plan.now progress.old }
    requires few { progress.old.rows + 1 < 2 ^ 63 }
    requires from { progress.old.from ≤ row.now.stamp }
    requires stamp { row.now.stamp ≤ latest }
    requires fields { length row.now.fields ≤ 64 }
    ensures room { OnOk result (progress.new.compared.lines + length progress.new.compared.rest.now < 2 ^ 63) }
    ensures kept { IfOk result (λ fault. fault ≡ None → IsFit course.now.plan.now progress.new × (progress.new.from ≡ row.now.stamp) × (progress.new.rows ≡ progress.old.rows + 1)) }
    ensures settled { (text : List ℕ) (rows : List Row) → IsSettled course.now.plan.now course.now.show text start rows None progress.old
        → IfOk result (λ fault. IsSettled course.now.plan.now course.now.show text start (rows ++ row.now ∷ []) fault progress.new) }
{
    match take_deadlines(course, start, row.stamp, progress)? {
        Some(fault) => Ok(Some(fault)),
        None => take_row_step(course, start, row, progress),
    }
}

/// Before the first step, with these verdicts.
pub fn begin<'a>(course: &Course, verdicts: &'a [u8]) -> Result<Progress<'a>, Memory>
    requires accepted { IsAccepted course.now.plan.now }
    requires few { length verdicts.now < 2 ^ 63 }
    ensures fit { IfOk result (λ progress. IsFit course.now.plan.now progress × (progress.from ≡ 0) × (progress.rows ≡ 0)) }
    ensures at { IfOk result (λ progress. IsAt course.now.plan.now course.now.show verdicts.now [] progress) }
{
    Ok(Progress {
        known: fresh(course.alloc, course.plan, 0)?,
        first: true,
        from: 0,
        steps: 0,
        rows: 0,
        compared: uncompared(verdicts),
        room: StepRoom::create(course.alloc),
        line: Text::from_bytes(course.alloc, b"")?,
    })
}
