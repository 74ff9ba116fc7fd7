//! The intake over a queue on one thread, worked out by hand.

ghost use Rattle.std.specs.Prelude.{◌≡◌, ◌<◌, ℕ, [], length, IfOk, Some, slice_get, false};
ghost use Rattle.lola_queue_intake.specs.Intakes.{IsSameSeat, new_source};

use crate::schedules::row;
use lola_feed::intake::Finish;
use lola_merge::batch::Batch;
use lola_merge::state::Take;
use lola_model::journal::{Mark, Row};
use lola_queue_intake::answer::Push;
use lola_queue_intake::intake::QueueIntake;
use lola_queue_intake::seats::{QueueSeat, TakerSeat};
use lola_value::text::Memory;
use std::alloc::Global;
use std::process::Abort;
use std::sync::Wait;

// The seats of an intake of two sources.
fn both(intake: &QueueIntake, seats: Vec<QueueSeat>) -> (QueueSeat, QueueSeat)
    requires count { length seats.items ≡ 2 }
    requires new { (s : ℕ) → s < 2 → slice_get seats.items s ≡ Some (new_source intake.now s) }
    ensures first { result.0 ≡ new_source intake.now 0 }
    ensures second { result.1 ≡ new_source intake.now 1 }
{
    let mut seats = seats;
    match (seats.pop(), seats.pop()) {
        (Some(second), Some(first)) => (first, second),
        _ => unreachable!(),
    }
}

// Pushes a row of the seat's source with this stamp, which is its number too.
fn push<R: Wait>(
    rt: &R,
    alloc: Global,
    intake: &QueueIntake,
    seat: &mut QueueSeat,
    stamp: u64,
) -> Push
    requires own { seat.old.intake ≡ intake.now }
    requires unfinished { seat.old.finished ≡ false }
    ensures { IsSameSeat seat.old seat.new }
{
    let row = row(alloc, seat.source(), stamp, stamp);
    intake.push(rt, seat, row)
}

// Pushes rows with the stamps from 1 to this one, each of which is queued.
fn fill<R: Wait + Abort>(
    rt: &R,
    alloc: Global,
    intake: &QueueIntake,
    seat: &mut QueueSeat,
    last: u64,
)
    requires own { seat.old.intake ≡ intake.now }
    requires unfinished { seat.old.finished ≡ false }
    ensures { IsSameSeat seat.old seat.new }
{
    for stamp in 1..=last {
        let pushed = push(rt, alloc, intake, seat, stamp);
        assert!(rt; matches!(pushed, Push::Queued));
    }
}

// Finishes, which is not let in, and is answered so.
fn refuse<R: Wait + Abort>(rt: &R, intake: &QueueIntake, seat: &mut QueueSeat, wanted: Finish)
    requires own { seat.old.intake ≡ intake.now }
    requires unfinished { seat.old.finished ≡ false }
    ensures { IsSameSeat seat.old seat.new }
{
    match intake.finish(rt, seat) {
        Finish::Finished => rt.abort(),
        refused => assert!(rt; refused == wanted),
    }
}

// Takes, and looks at the answer and at the rows, which are of this source, with stamps that rise by 1, and marked so.
fn take<R: Wait + Abort>(
    rt: &R,
    intake: &QueueIntake,
    taker: &mut TakerSeat,
    batch: &mut Batch,
    wanted: Take,
    rows: (u32, u64, u64, Mark),
)
    requires own { taker.old.intake ≡ intake.now }
    requires empty { batch.old ≡ [] }
    ensures own { taker.new.intake ≡ taker.old.intake }
    ensures sources { taker.new.sources ≡ taker.old.sources }
    ensures empty { batch.new ≡ [] }
{
    assert!(rt; intake.take(rt, taker, batch) == wanted);
    are_rows(rt, batch, rows);
}

// Takes all rows out, and looks whether they are of this source, with stamps that rise by 1, and marked so.
fn are_rows(rt: &impl Abort, batch: &mut Batch, rows: (u32, u64, u64, Mark))
    ensures { batch.new ≡ [] }
{
    let (source, first, last, mark) = rows;
    for stamp in first..=last {
        match batch.pop_front() {
            Some(entry) => {
                assert!(rt;
                    entry.row.source == source && entry.row.stamp == stamp && entry.mark == mark
                );
            }
            None => assert!(rt; false),
        }
    }
    assert!(rt; batch.is_empty());
}

const NO_ROWS: (u32, u64, u64, Mark) = (0, 1, 0, Mark::Accepted);

// A row is handed back, which is this one.
fn is_back(rt: &impl Abort, row: &Row, source: u32, stamp: u64) {
    assert!(rt; row.source == source && row.stamp == stamp);
}

// Ends the intake of two sources, and hands out what is left.
fn end<R: Wait>(
    rt: &R,
    alloc: Global,
    intake: QueueIntake,
    taker: TakerSeat,
    first: QueueSeat,
    second: QueueSeat,
    left: &mut Batch,
) -> Result<(), Memory>
    requires own { (taker.intake ≡ intake) × (first.intake ≡ intake) × (second.intake ≡ intake) }
    requires two { taker.sources ≡ 2 }
    requires empty { left.old ≡ [] }
{
    let seats = Vec::from_array(alloc, [first, second])?;
    intake.end(rt, taker, seats, left);
    Ok(())
}

// Fills the queue by the first source, and takes all.
fn fill_and_take<R: Wait + Abort>(
    rt: &R,
    alloc: Global,
    intake: &QueueIntake,
    first: &mut QueueSeat,
    second: &mut QueueSeat,
    taker: &mut TakerSeat,
    batch: &mut Batch,
)
    requires own { (first.old.intake ≡ intake.now) × (second.old.intake ≡ intake.now) × (taker.old.intake ≡ intake.now) }
    requires unfinished { (first.old.finished ≡ false) × (second.old.finished ≡ false) }
    requires empty { batch.old ≡ [] }
    ensures first { IsSameSeat first.old first.new }
    ensures second { IsSameSeat second.old second.new }
    ensures taker { (taker.new.intake ≡ taker.old.intake) × (taker.new.sources ≡ taker.old.sources) }
    ensures empty { batch.new ≡ [] }
{
    fill(rt, alloc, intake, first, 1024);
    match push(rt, alloc, intake, first, 1025) {
        Push::Full(row) => is_back(rt, &row, 0, 1025),
        _ => assert!(rt; false),
    }
    refuse(rt, intake, second, Finish::Full);
    take(
        rt,
        intake,
        taker,
        batch,
        Take::Rows(1024),
        (0, 1, 1024, Mark::Accepted),
    );
}

#[test]
fn a_full_queue_refuses_and_rows_are_marked_at_their_pop(rt: HostRuntime) -> Result<(), Memory> {
    let alloc = rt.alloc();
    let mut batch = Batch::create(alloc)?;
    let (intake, seats, mut taker) = QueueIntake::create(alloc, 2, None)?;
    let (mut first, mut second) = both(&intake, seats);
    take(&rt, &intake, &mut taker, &mut batch, Take::Nothing, NO_ROWS);
    fill_and_take(
        &rt,
        alloc,
        &intake,
        &mut first,
        &mut second,
        &mut taker,
        &mut batch,
    );
    let pushed = push(&rt, alloc, &intake, &mut second, 5);
    assert!(rt; matches!(pushed, Push::Queued));
    assert!(rt; intake.finish(&rt, &mut first) == Finish::Finished);
    assert!(rt; intake.finish(&rt, &mut second) == Finish::Finished);
    take(
        &rt,
        &intake,
        &mut taker,
        &mut batch,
        Take::Rows(1),
        (1, 5, 5, Mark::Late(1024)),
    );
    take(&rt, &intake, &mut taker, &mut batch, Take::AllDone, NO_ROWS);
    end(&rt, alloc, intake, taker, first, second, &mut batch)?;
    assert!(rt; batch.is_empty());
    Ok(())
}

#[test]
fn a_closed_intake_refuses_and_what_was_queued_is_left(rt: HostRuntime) -> Result<(), Memory> {
    let alloc = rt.alloc();
    let mut left = Batch::create(alloc)?;
    let (intake, seats, mut taker) = QueueIntake::create(alloc, 2, Some(7))?;
    let (mut first, mut second) = both(&intake, seats);
    fill(&rt, alloc, &intake, &mut first, 1);
    intake.close(&mut taker);
    match push(&rt, alloc, &intake, &mut second, 3) {
        Push::Closed(row) => is_back(&rt, &row, 1, 3),
        _ => assert!(rt; false),
    }
    refuse(&rt, &intake, &mut second, Finish::Closed);
    end(&rt, alloc, intake, taker, first, second, &mut left)?;
    are_rows(&rt, &mut left, (0, 1, 1, Mark::Late(7)));
    Ok(())
}
