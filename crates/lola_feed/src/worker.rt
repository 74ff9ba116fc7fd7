//! A source's worker: it reads rows and hands them in.

ghost use Rattle.std.specs.Prelude.{◌≡◌, ◌-◌, ◌||◌, is_some, option_map};
ghost use Rattle.lola_rows.specs.Reading.{IsRowOf, Keeps, has_begun};
ghost use Rattle.lola_feed.specs.Feeding.{Begun, Looks, NextRow, Offers, Turns, beginning, end_of, row_or_end};

use crate::desk::Desk;
use lola_merge::state::Offer;
use lola_model::journal::Row;
use lola_model::source::MalformedKind;
use lola_port::{Bell, Source};
use lola_rows::{Ending, RowAnswer, RowReader};
use std::marker::Model;

/// How a source's worker ended.
#[derive(Clone, Copy)]
pub enum SourceEnd {
    /// All rows were let in.
    End,
    /// The line of this row, or the heading for row 0, has another form.
    Malformed { kind: MalformedKind, row: u64 },
    /// A read failed.
    ReadFailed,
    /// Its desk was closed, and its last row was not let in.
    Closed,
    /// There was no memory for a row.
    Memory,
}

/// What a turn did.
#[derive(Clone, Copy)]
pub enum TurnEnd {
    /// A row was let in.
    Moved,
    /// There was no room for a row, which is offered again by the next turn.
    Full,
    /// The worker has ended.
    Done(SourceEnd),
}

/// The reader of a source, the row that waits in hand, and how it ended. Contracts see these three. A row waits that found
/// no room, or that was looked at and not offered yet.
#[derive(Drop)]
pub struct SourceWorker<S: Source> {
    reader: RowReader<S>,
    kept: Option<Row>,
    end: Option<SourceEnd>,
}

impl<S: Source> Model for SourceWorker<S> {
    ghost use Rattle.lola_feed.specs.Feeding.{IsWorking, Working};

    ghost Value = { Working };

    ghost view = { λ w. record { reader = w.reader; kept = w.kept; end = w.end } };

    ghost invariant = { λ w. IsWorking (record { reader = w.reader; kept = w.kept; end = w.end }) };
}

impl<S: Source> SourceWorker<S> {
    /// A worker that has had no turn, over a reader that has not ended.
    pub fn create(reader: RowReader<S>) -> SourceWorker<S>
        requires { reader.ended ≡ None }
        ensures { result ≡ beginning reader }
    {
        SourceWorker {
            reader,
            kept: None,
            end: None,
        }
    }

    /// How it ended, if it has.
    pub fn end(&self) -> Option<SourceEnd>
        ensures { result ≡ self.now.end }
    {
        self.end
    }

    /// Whether each read of its source answers at once.
    pub fn answers_at_once(&self) -> bool {
        self.reader.answers_at_once()
    }

    /// Waits until the next line of its source can be read at once, for so many milliseconds at most, and says whether it
    /// can.
    pub fn wait_for_bytes(&self, milliseconds: u16) -> bool {
        self.reader.wait_for_bytes(milliseconds)
    }

    /// Asks that the bytes of its source be read before they are asked for, by a thread of its own, which rings this bell whenever
    /// what a read would have waited for has come.
    pub fn read_ahead(&mut self, bell: &Bell)
        ensures { self.new ≡ self.old }
    {
        self.reader.read_ahead(bell);
    }

    /// Whether a thread reads the bytes of its source ahead and rings a bell.
    pub fn rings(&self) -> bool {
        self.reader.rings()
    }

    /// Whether the next turn needs no read: a row waits, the reader holds a whole line or has ended, or the worker has.
    pub fn is_ready(&self) -> bool {
        self.kept.is_some() || self.end.is_some() || self.reader.has_line()
    }

    /// Whether the heading of its source was read, or the worker has ended.
    pub fn has_begun(&self) -> bool
        ensures { result ≡ (is_some self.now.end || has_begun self.now.reader) }
    {
        self.end.is_some() || self.reader.has_begun()
    }

    /// Reads the heading of its source, unless it was read, and no row. Where there is none the worker has ended, and the desk
    /// is told so once. It tells whether the worker goes on.
    pub fn begin<D: Desk>(&mut self, desk: &mut D) -> bool
        requires { self.old.reader.shape.index ≡ D.source desk.old }
        ensures begun { Begun D.offers D.finishes desk.old desk.new result self.old self.new }
        ensures kept { Keeps self.old.reader self.new.reader }
        ensures source { D.source desk.new ≡ D.source desk.old }
    {
        if let Some(_) = self.end {
            return false;
        }
        if let Some(_) = &self.kept {
            return true;
        }
        match self.reader.begin() {
            Ok(()) => true,
            Err(ending) => {
                self.end = Some(end_of(ending));
                tell_end(desk);
                false
            }
        }
    }

    /// The stamp of the row that waits, if one does.
    pub fn waiting(&self) -> Option<u64>
        ensures { result ≡ option_map (λ row. row.stamp) self.now.kept }
    {
        match &self.kept {
            Some(row) => Some(row.stamp),
            None => None,
        }
    }

    /// Makes sure that a row waits, and tells its stamp; nothing is offered. Where none is to come the worker has ended,
    /// and the desk is told so once.
    pub fn look_ahead<D: Desk>(&mut self, desk: &mut D) -> Option<u64>
        requires { self.old.reader.shape.index ≡ D.source desk.old }
        ensures looks { Looks D.offers D.finishes desk.old desk.new result self.old self.new }
        ensures kept { Keeps self.old.reader self.new.reader }
        ensures source { D.source desk.new ≡ D.source desk.old }
    {
        if let Some(_) = self.end {
            return None;
        }
        match self.next_row() {
            Ok(row) => Some(self.keep(row)),
            Err(_) => {
                tell_end(desk);
                None
            }
        }
    }

    /// Reads a row, or takes the one that waits, and offers it; where there is none, tells the desk so. It calls the
    /// desk once at most, and not at all once it has ended.
    pub fn turn<D: Desk>(&mut self, desk: &mut D) -> TurnEnd
        requires { self.old.reader.shape.index ≡ D.source desk.old }
        ensures turns { Turns D.offers D.finishes desk.old desk.new result self.old self.new }
        ensures kept { Keeps self.old.reader self.new.reader }
        ensures source { D.source desk.new ≡ D.source desk.old }
    {
        if let Some(end) = self.end {
            return TurnEnd::Done(end);
        }
        match self.next_row() {
            Ok(row) => self.offer(row, desk),
            Err(end) => {
                tell_end(desk);
                TurnEnd::Done(end)
            }
        }
    }

    /// The reader, as these turns left it.
    pub fn into_reader(self) -> RowReader<S>
        ensures { result ≡ self.reader }
    {
        self.reader
    }

    // A row waits from now on; tells its stamp.
    fn keep(&mut self, row: Row) -> u64
        requires end { self.old.end ≡ None }
        requires given { self.old.reader.given ≡ row.number }
        requires is_row { IsRowOf self.old.reader.shape (self.old.reader.given - 1) row }
        ensures stamp { result ≡ row.stamp }
        ensures kept { self.new ≡ record self.old { kept = Some row } }
    {
        let stamp = row.stamp;
        self.kept = Some(row);
        stamp
    }

    // Offers a row; where there is no room it waits.
    fn offer<D: Desk>(&mut self, row: Row, desk: &mut D) -> TurnEnd
        requires source { row.source ≡ D.source desk.old }
        requires kept { self.old.kept ≡ None }
        requires end { self.old.end ≡ None }
        requires given { self.old.reader.given ≡ row.number }
        requires is_row { IsRowOf self.old.reader.shape (self.old.reader.given - 1) row }
        ensures reader { self.new.reader ≡ self.old.reader }
        ensures answers { Offers D.offers row desk.old desk.new result self.new }
        ensures source { D.source desk.new ≡ D.source desk.old }
    {
        match desk.offer(row) {
            Offer::Accepted | Offer::Late(_) => TurnEnd::Moved,
            Offer::Full(row) => {
                self.keep(row);
                TurnEnd::Full
            }
            Offer::Closed(_) => {
                self.end = Some(SourceEnd::Closed);
                TurnEnd::Done(SourceEnd::Closed)
            }
        }
    }

    // The row that waits, or the next of the reader. Where it has none, the worker has ended.
    fn next_row(&mut self) -> Result<Row, SourceEnd>
        requires { self.old.end ≡ None }
        ensures next { NextRow result self.old self.new }
        ensures kept { Keeps self.old.reader self.new.reader }
    {
        if let Some(row) = self.kept.take() {
            return Ok(row);
        }
        match row_or_end(self.reader.next()) {
            Ok(row) => Ok(row),
            Err(end) => {
                self.end = Some(end);
                Err(end)
            }
        }
    }
}

// Tells a desk that its source has no more rows.
fn tell_end<D: Desk>(desk: &mut D)
    ensures finished { D.finishes desk.old desk.new }
    ensures source { D.source desk.new ≡ D.source desk.old }
{
    desk.finish();
}

// What a reader's end is to a worker.
fn end_of(ending: Ending) -> SourceEnd
    ensures { result ≡ end_of ending }
{
    match ending {
        Ending::End => SourceEnd::End,
        Ending::Malformed { kind, row } => SourceEnd::Malformed { kind, row },
        Ending::ReadFailed => SourceEnd::ReadFailed,
        Ending::Memory => SourceEnd::Memory,
    }
}

// A row, or what a reader that has none is to a worker.
fn row_or_end(answer: RowAnswer) -> Result<Row, SourceEnd>
    ensures { result ≡ row_or_end answer }
{
    match answer {
        RowAnswer::Row(row) => Ok(row),
        RowAnswer::End => Err(SourceEnd::End),
        RowAnswer::Malformed { kind, row } => Err(SourceEnd::Malformed { kind, row }),
        RowAnswer::ReadFailed => Err(SourceEnd::ReadFailed),
        RowAnswer::Memory => Err(SourceEnd::Memory),
    }
}
