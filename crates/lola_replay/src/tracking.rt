//! What the lines of a trace tell so far apart from the steps: the numbers of the sources, the merged time, and counts.

ghost use Rattle.std.specs.Prelude.{◌≡◌, ◌≤◌, ◌<◌, ◌+◌, ◌++◌, ◌^◌, ℕ, List, [], ◌∷◌, Option, get_or, nat_eq};
ghost use Rattle.lola_value.specs.Times.{latest};
ghost use Rattle.lola_model.specs.Journal.{opening_time};
ghost use Rattle.lola_model.specs.declared.journal.Entry.{Entry};
ghost use Rattle.lola_replay.specs.Tracked.{IsTallied, Tracks, accepted_in, is_marked, is_next, is_right, noted, numbered_in, start_at};

use lola_model::journal::{Entry, Mark, Row};

/// The sources of a run are below this number.
pub const MOST_SOURCES: u32 = 64;

/// What the lines of a trace tell so far. Times are in nanoseconds.
#[derive(Clone, Copy)]
pub struct Tracking {
    /// The number of the last row of each source, 0 where it has none.
    pub numbers: [u64; 64],
    /// The merged time.
    pub merged: u64,
    /// How many entries there are, how many of them are late, and how many accepted.
    pub entries: u64,
    pub late: u64,
    pub rows: u64,
    /// Where time counts from, once that is known.
    pub begin: Option<u64>,
    /// The moment after the last accepted row, 0 where there is none.
    pub limit: u64,
}

// The merged time before the first line.
fn opening_time(start: Option<u64>) -> u64
    ensures { result ≡ opening_time start }
{
    match start {
        Some(time) => time,
        None => 0,
    }
}

/// Before the first line, with this start option.
pub fn untracked(start: Option<u64>) -> Tracking
    ensures tracks { Tracks start [] result }
    ensures tallied { IsTallied result }
    ensures entries { result.entries ≡ 0 }
{
    let merged = opening_time(start);
    Tracking {
        numbers: [0; 64],
        merged,
        entries: 0,
        late: 0,
        rows: 0,
        begin: start,
        limit: 0,
    }
}

// Whether a number is one more than another.
fn is_next(number: u64, last: u64) -> bool
    ensures { result ≡ is_next number last }
{
    number > last && number - last == 1
}

// Whether a mark is right where the merged time is this.
fn is_marked(merged: u64, stamp: u64, mark: Mark) -> bool
    ensures { result ≡ is_marked merged stamp mark }
{
    match mark {
        Mark::Accepted => merged <= stamp,
        Mark::Late(time) => time == merged && stamp < merged,
    }
}

// Whether a row's number is the next of its source, which is one of a run.
fn is_numbered(tracking: &Tracking, row: &Row) -> bool
    requires { row.now.source < 64 }
    ensures { result ≡ is_next row.now.number (get_or tracking.now.numbers row.now.source 0) }
{
    is_next(row.number, tracking.numbers[row.source as usize])
}

/// Whether an entry is right behind those so far: its source is one of a run, its number is the next of its source, and its mark
/// is the one of its stamp.
pub fn is_right(tracking: &Tracking, entry: &Entry) -> bool
    ensures { result ≡ is_right tracking.now entry.now }
{
    entry.row.source < MOST_SOURCES
        && is_numbered(tracking, &entry.row)
        && is_marked(tracking.merged, entry.row.stamp, entry.mark)
}

/// Where time counts from, where a row of this stamp is accepted.
pub fn start_at(begin: Option<u64>, stamp: u64) -> u64
    ensures { result ≡ start_at begin stamp }
{
    match begin {
        Some(time) => time,
        None => stamp,
    }
}

// A row of this stamp is accepted.
fn note_accepted(tracking: &mut Tracking, stamp: u64)
    requires stamp { stamp ≤ latest }
    requires tallied { IsTallied tracking.old }
    requires room { tracking.old.entries + 1 < 2 ^ 64 }
    ensures { tracking.new ≡ accepted_in stamp tracking.old }
{
    tracking.merged = stamp;
    tracking.rows += 1;
    tracking.begin = Some(start_at(tracking.begin, stamp));
    tracking.limit = stamp + 1;
}

// The number of a source's last row is this, and there is one more entry.
fn note_number(tracking: &mut Tracking, source: u32, number: u64)
    requires source { source < 64 }
    requires room { tracking.old.entries + 1 < 2 ^ 64 }
    ensures { tracking.new ≡ numbered_in source number tracking.old }
{
    tracking.numbers[source as usize] = number;
    tracking.entries += 1;
}

/// One more entry is told.
pub fn note(tracking: &mut Tracking, entry: &Entry)
    requires source { entry.now.row.source < 64 }
    requires stamp { entry.now.row.stamp ≤ latest }
    requires tallied { IsTallied tracking.old }
    requires room { tracking.old.entries + 2 < 2 ^ 64 }
    ensures { tracking.new ≡ noted entry.now tracking.old }
{
    match entry.mark {
        Mark::Accepted => note_accepted(tracking, entry.row.stamp),
        Mark::Late(_) => tracking.late += 1,
    }
    note_number(tracking, entry.row.source, entry.row.number);
}
