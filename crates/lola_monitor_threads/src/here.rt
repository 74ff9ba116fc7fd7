//! The sources that the calling thread reads: files, those whose bytes are read ahead, which ring when these have come, the only source of a
//! run, and those that no thread could be started for. The one with the least row hands it in first.
ghost use Rattle.std.specs.Prelude.{◌≡◌, ◌<◌, length, vec_capacity};
ghost use Rattle.std.specs.List.{AllZip};
ghost use Rattle.lola_monitor_threads.specs.Seated.{WentOn};

use crate::board::Board;
use crate::desk::DeskWorker;
use crate::seated::SeatedWorker;
use lola_feed::intake::{IntakeSeat, SourceIntake};
use lola_port::{Gate, Source};
use std::sync::Wait;

/// How long the calling thread waits for the lines of a source here that rings no bell, where it has nothing else to do, in milliseconds.
const MOMENT: u16 = 1;

/// How many rows are handed in here before the rows that are in are taken.
const MOST_ROWS: u32 = 256;

// Which source here has the least row in hand, and up to which stamp and source its rows remain the least.
#[derive(Clone, Copy)]
struct First {
    place: usize,
    limit: (u64, u32),
}

// The source at a place looks at its next row, where it can be read at once.
fn look_one<S: Source, P: IntakeSeat, I: SourceIntake<P>, R: Wait + Sync>(
    board: &Board,
    here: &mut Vec<DeskWorker<'_, S, P, I, R>>,
    place: usize,
)
    requires { place < length here.old.items }
    ensures here { AllZip WentOn here.old.items here.new.items }
    ensures room { vec_capacity here.new ≡ vec_capacity here.old }
{
    here[place].look_ahead(board);
}

// The source at a place has a turn. It tells whether a row was handed in.
fn turn_one<S: Source, P: IntakeSeat, I: SourceIntake<P>, R: Wait + Sync, G: Gate>(
    board: &Board,
    here: &mut Vec<DeskWorker<'_, S, P, I, R>>,
    place: usize,
    gate: &G,
) -> bool
    requires { place < length here.old.items }
    ensures here { AllZip WentOn here.old.items here.new.items }
    ensures room { vec_capacity here.new ≡ vec_capacity here.old }
{
    here[place].turn(board, gate)
}

// All look at their next rows whose rows can be read at once.
fn look_all<S: Source, P: IntakeSeat, I: SourceIntake<P>, R: Wait + Sync>(
    board: &Board,
    here: &mut Vec<DeskWorker<'_, S, P, I, R>>,
)
    ensures here { AllZip WentOn here.old.items here.new.items }
    ensures room { vec_capacity here.new ≡ vec_capacity here.old }
{
    for place in 0..here.len() {
        look_one(board, here, place);
    }
}

// Whether a row comes before another, in the order of stamp and source.
fn is_before(one: (u64, u32), other: (u64, u32)) -> bool {
    one.0 < other.0 || (one.0 == other.0 && one.1 < other.1)
}

// The one with the least of the rows in hand; the number of all, where none has one.
fn least<S: Source, P: IntakeSeat, I: SourceIntake<P>, R: Wait + Sync>(
    here: &[DeskWorker<'_, S, P, I, R>],
) -> First {
    let mut place = here.len();
    let mut first = (u64::MAX, u32::MAX);
    let mut limit = (u64::MAX, u32::MAX);
    for (at, worker) in here.iter().enumerate() {
        if let Some(stamp) = worker.waiting() {
            let row = (stamp, worker.source());
            if is_before(row, first) {
                limit = first;
                first = row;
                place = at;
            } else if is_before(row, limit) {
                limit = row;
            }
        }
    }
    First { place, limit }
}

// The one that has the least of the rows in hand after this one has handed one in.
fn next_least<S: Source, P: IntakeSeat, I: SourceIntake<P>, R: Wait + Sync>(
    here: &[DeskWorker<'_, S, P, I, R>],
    first: First,
) -> First {
    if let Some(worker) = here.get(first.place) {
        if let Some(stamp) = worker.waiting() {
            if is_before((stamp, worker.source()), first.limit) {
                return first;
            }
        }
    }
    least(here)
}

// Whether no thread has a row in hand that comes before the one of the source at a place, if it has one.
fn is_turn_of<S: Source, P: IntakeSeat, I: SourceIntake<P>, R: Wait + Sync>(
    board: &Board,
    here: &[DeskWorker<'_, S, P, I, R>],
    place: usize,
) -> bool {
    match here.get(place) {
        Some(worker) => board.is_first(worker.source()),
        None => false,
    }
}

// Hands in a row of the one that has the least, unless that comes later than one of another thread, and tells who has the least then. None
// where no row was handed in.
fn hand_in<S: Source, P: IntakeSeat, I: SourceIntake<P>, R: Wait + Sync, G: Gate>(
    board: &Board,
    here: &mut Vec<DeskWorker<'_, S, P, I, R>>,
    first: First,
    gate: &G,
) -> Option<First>
    ensures here { AllZip WentOn here.old.items here.new.items }
    ensures room { vec_capacity here.new ≡ vec_capacity here.old }
{
    let place = first.place;
    if place >= here.len() || !is_turn_of(board, here, place) {
        return None;
    }
    if turn_one(board, here, place, gate) {
        Some(next_least(here, first))
    } else {
        None
    }
}

// Hands rows in, until one comes later than that of another thread, or there is no room, or many are in.
fn hand_in_many<S: Source, P: IntakeSeat, I: SourceIntake<P>, R: Wait + Sync, G: Gate>(
    board: &Board,
    here: &mut Vec<DeskWorker<'_, S, P, I, R>>,
    gate: &G,
)
    ensures here { AllZip WentOn here.old.items here.new.items }
    ensures room { vec_capacity here.new ≡ vec_capacity here.old }
{
    let mut first = least(here);
    for _ in 0..MOST_ROWS {
        match hand_in(board, here, first, gate) {
            Some(next) => first = next,
            None => return,
        }
    }
}

/// Whether the calling thread reads a source of so many: nobody waits for its reads, it rings when its bytes have come, or it is the only
/// one. The threads that rows pass through would cost more than they give.
pub fn is_here<S: Source, P: IntakeSeat>(seated: &SeatedWorker<S, P>, count: usize) -> bool {
    count == 1 || seated.answers_at_once() || seated.rings()
}

/// Whether it reads each of these, which are all sources.
pub fn are_all_here<S: Source, P: IntakeSeat>(waiting: &[SeatedWorker<S, P>]) -> bool {
    for seated in waiting {
        if !is_here(seated, waiting.len()) {
            return false;
        }
    }
    true
}

/// All here look at their next rows that can without waiting for anybody, and rows are handed in, the least first, until one
/// comes later than that of another thread, or there is no room, or many are in.
pub fn turn_here<S: Source, P: IntakeSeat, I: SourceIntake<P>, R: Wait + Sync, G: Gate>(
    board: &Board,
    here: &mut Vec<DeskWorker<'_, S, P, I, R>>,
    gate: &G,
)
    ensures here { AllZip WentOn here.old.items here.new.items }
    ensures room { vec_capacity here.new ≡ vec_capacity here.old }
{
    look_all(board, here);
    hand_in_many(board, here, gate);
}

/// Whether all that is to be done here waits for other threads, which wake the calling thread: one has a row in hand, or no source has rows
/// to come but those that ring.
pub fn waits_for_others<S: Source, P: IntakeSeat, I: SourceIntake<P>, R: Wait + Sync>(
    here: &[DeskWorker<'_, S, P, I, R>],
) -> bool {
    for worker in here {
        if worker.waiting().is_some() {
            return true;
        }
    }
    for worker in here {
        if !worker.has_ended() && !worker.rings() {
            return false;
        }
    }
    true
}

/// Waits a moment for the lines of the first source here that has not ended, and does not ring.
pub fn rest<S: Source, P: IntakeSeat, I: SourceIntake<P>, R: Wait + Sync>(
    here: &[DeskWorker<'_, S, P, I, R>],
) {
    for worker in here {
        if !worker.has_ended() && !worker.rings() {
            worker.comes_within(MOMENT);
            return;
        }
    }
}
