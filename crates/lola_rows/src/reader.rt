//! A reader of the rows of a source, one after the other.
ghost use Rattle.std.specs.Prelude.{◌≡◌, ◌≤◌, ◌^◌, ℕ, List, Some, None, Err, IfOk, IsTrue, OnOk};
ghost use Rattle.lola_rows.specs.Columns.{inputs_of};
ghost use Rattle.lola_rows.specs.Reading.{has_begun, is_behind_heading};
ghost use Rattle.lola_rows.specs.Rows.{rows_of_source};

use crate::answer::{Ending, RowAnswer};
use crate::columns::{Input, Layout, inputs};
use crate::fill::{Filled, fill_line};
use crate::flaw::Flaw;
use crate::rows::{Form, Room, read_heading, read_row};
use crate::seek::{Extent, Found, seek_line};
use crate::stage::Section;
use crate::window::Window;
use lola_model::journal::Row;
use lola_model::plan::Plan;
use lola_model::source::MalformedKind;
use lola_port::{Bell, Source};
use lola_value::text::Memory;
use std::alloc::Global;
use std::marker::Model;

/// A reader that has all its room, and no source yet. To join it with a source takes no memory, so that no source is
/// lost for want of it.
#[derive(Drop)]
pub struct EmptyReader {
    alloc: Global,
    form: Form,
    inputs: Vec<Input>,
    layout: Layout,
    room: Room,
    window: Window,
}

impl Model for EmptyReader {
    ghost use Rattle.std.specs.Prelude.{◌≡◌, ◌≤◌, ◌^◌, []};
    ghost use Rattle.lola_rows.specs.Places.{layout_columns};
    ghost use Rattle.lola_rows.specs.Reading.{Shape, no_columns};
    ghost use Rattle.lola_rows.specs.Window.{items};

    ghost Value = { Shape };

    ghost view = { λ e. record { index = e.form.index; most = e.form.most; inputs = e.inputs.items } };

    ghost invariant = { λ e. (items e.window ≡ []) × (e.form.most ≤ 2 ^ 40) × (layout_columns e.layout ≡ no_columns) };
}

impl EmptyReader {
    ghost use Rattle.lola_rows.specs.Reading.{fresh};

    /// Joins it with the source that it reads from the first byte on.
    pub fn with<S: Source>(self, source: S) -> RowReader<S>
        ensures { result ≡ fresh self (S.state source) }
    {
        let EmptyReader {
            alloc,
            form,
            inputs,
            layout,
            room,
            window,
        } = self;
        RowReader {
            alloc,
            form,
            inputs,
            layout,
            room,
            window,
            source,
            stage: Section::Start,
            given: 0,
            ended: None,
        }
    }
}

/// Reads a source, a row after the other: CSV whose first line is a heading.
///
/// A line ends with a line feed, before which one carriage return is dropped, and has at most 65,536 bytes before it;
/// bytes behind the last line feed are a line too; empty lines are skipped. One byte order mark at the very start is
/// dropped. The fields of a line are those of the crate `csv`. Exactly one field of the heading is `time`, `ts` or
/// `timestamp`, the time of each row in seconds; a field with the name of an input gives its values; others are
/// ignored, and an input without one is absent. An empty field and `#` are absent values.
///
/// The first line of another form is malformed and ends the source, and so does the line of a row more than are allowed.
///
/// It holds at most 131,072 bytes, and gives each read room for at least 4,096.
#[derive(Drop)]
pub struct RowReader<S: Source> {
    alloc: Global,
    form: Form,
    inputs: Vec<Input>,
    layout: Layout,
    room: Room,
    window: Window,
    source: S,
    stage: Section,
    given: u64,
    ended: Option<Ending>,
}

impl<S: Source> Model for RowReader<S> {
    ghost use Rattle.std.specs.Prelude.{◌≤◌, ◌^◌};
    ghost use Rattle.lola_rows.specs.Places.{layout_columns};
    ghost use Rattle.lola_rows.specs.Reading.{IsInStep, Reading};
    ghost use Rattle.lola_rows.specs.Window.{items};

    ghost Value = { Reading };

    ghost view = { λ r. record {
      shape = record { index = r.form.index; most = r.form.most; inputs = r.inputs.items };
      stage = r.stage;
      columns = layout_columns r.layout;
      given = r.given;
      held = items r.window;
      source = S.state r.source;
      ended = r.ended;
    } };

    ghost invariant = { λ r. (r.form.most ≤ 2 ^ 40) × (r.given ≤ 2 ^ 40) × IsInStep r.stage r.given (layout_columns r.layout) r.inputs.items };
}

impl<S: Source> RowReader<S> {
    ghost use Rattle.lola_rows.specs.Filling.{IsFront};
    ghost use Rattle.lola_rows.specs.Reading.{Answers, Keeps, Repeats, Stops, fresh, rest_of, shape_of};
    ghost use Rattle.lola_rows.specs.Steps.{Begins, Fills, Opens, Seeks, Takes};

    /// Makes the room that a reader of the source with this index needs, for at most `most` rows.
    pub fn reserve(alloc: Global, plan: &Plan, index: u32, most: u64) -> Result<EmptyReader, Memory>
        requires { most ≤ 2 ^ 40 }
        ensures { IfOk result (λ empty. empty ≡ shape_of plan.now.spec.streams index most) }
    {
        let inputs = inputs(alloc, plan.spec.streams.as_slice())?;
        let window = Window::reserve(alloc)?;
        Ok(EmptyReader {
            alloc,
            form: Form { index, most },
            inputs,
            layout: Layout::create(alloc),
            room: Room::create(alloc),
            window,
        })
    }

    /// Makes the room, and joins it with its source, which is dropped where there is no memory.
    pub fn create(
        alloc: Global,
        plan: &Plan,
        index: u32,
        most: u64,
        source: S,
    ) -> Result<RowReader<S>, Memory>
        requires { most ≤ 2 ^ 40 }
        ensures made { IfOk result (λ reader. reader ≡ fresh (shape_of plan.now.spec.streams index most) (S.state source)) }
        ensures told { IfOk result (λ reader. (bytes : List ℕ) → (S.state source).left ≡ Some bytes
            → rest_of reader ≡ Some (rows_of_source (inputs_of plan.now.spec.streams) index most bytes)) }
    {
        let empty = RowReader::<S>::reserve(alloc, plan, index, most)?;
        Ok(empty.with(source))
    }

    /// Whether the heading was read, or the reader has ended.
    pub fn has_begun(&self) -> bool
        ensures { result ≡ has_begun self.now }
    {
        self.ended.is_some() || matches!(self.stage, Section::Rows | Section::Over)
    }

    /// Reads the heading, unless it was read, and no row. Where it answers an ending the reader has ended so.
    pub fn begin(&mut self) -> Result<(), Ending>
        requires { self.old.ended ≡ None }
        ensures opens { Opens result self.old self.new }
        ensures behind { OnOk result (IsTrue (is_behind_heading self.new.stage)) }
        ensures kept { Keeps self.old self.new }
    {
        match self.take_start() {
            Ok(()) => Ok(()),
            Err(how) => {
                self.ended = Some(how);
                Err(how)
            }
        }
    }

    /// The next row, or how the reader ended: all rows given, a malformed line, a failed read, or no memory. A reader
    /// that has ended answers the same again, and reads nothing.
    pub fn next(&mut self) -> RowAnswer
        ensures going { self.old.ended ≡ None → Answers result self.old self.new }
        ensures over { (how : Ending) → self.old.ended ≡ Some how → Repeats how result self.old self.new }
        // Behind a last line without a line feed nothing is read any more.
        ensures last { self.old.ended ≡ None → self.old.stage ≡ Section.Over
            → (result ≡ RowAnswer.End) × (self.new.source ≡ self.old.source) }
        ensures kept { Keeps self.old self.new }
    {
        if let Some(ending) = self.ended {
            return RowAnswer::from(ending);
        }
        match self.advance() {
            Ok(row) => RowAnswer::Row(row),
            Err(ending) => {
                self.ended = Some(ending);
                RowAnswer::from(ending)
            }
        }
    }

    // The next row, with the byte order mark and the heading before the first.
    fn advance(&mut self) -> Result<Row, Ending>
        ensures takes { Takes result self.old self.new }
        ensures last { self.old.stage ≡ Section.Over → (result ≡ Err Ending.End) × (self.new ≡ self.old) }
        ensures kept { Keeps self.old self.new }
        ensures ended { self.new.ended ≡ self.old.ended }
    {
        if let Section::Over = self.stage {
            return Err(Ending::End);
        }
        self.drop_mark()?;
        self.take_heading()?;
        self.take_row()
    }

    // Takes the byte order mark and the heading, unless they were taken.
    fn take_start(&mut self) -> Result<(), Ending>
        ensures begins { Begins result self.old self.new }
        ensures behind { OnOk result (IsTrue (is_behind_heading self.new.stage)) }
        ensures kept { Keeps self.old self.new }
        ensures ended { self.new.ended ≡ self.old.ended }
    {
        if let Section::Over = self.stage {
            return Ok(());
        }
        self.drop_mark()?;
        self.take_heading()
    }

    // Drops a byte order mark at the very start.
    fn drop_mark(&mut self) -> Result<(), Ending>
        requires { self.old.stage ≡ Section.Over → ⊥ }
        ensures begins { Begins result self.old self.new }
        ensures past { OnOk result (self.new.stage ≡ Section.Start → ⊥) }
        ensures not_over { OnOk result (self.new.stage ≡ Section.Over → ⊥) }
        ensures kept { Keeps self.old self.new }
        ensures ended { self.new.ended ≡ self.old.ended }
    {
        let Section::Start = self.stage else {
            return Ok(());
        };
        match self.fill() {
            Filled::ReadFailed => Err(Ending::ReadFailed),
            _ => {
                self.window.drop_mark();
                self.stage = Section::Heading;
                Ok(())
            }
        }
    }

    // Reads so much that a byte order mark is held whole, if there is one.
    fn fill(&mut self) -> Filled
        requires { self.old.stage ≡ Section.Start }
        ensures fills { Fills result self.old self.new }
        ensures stage { self.new.stage ≡ self.old.stage }
        ensures kept { Keeps self.old self.new }
        ensures ended { self.new.ended ≡ self.old.ended }
    {
        fill_line(&mut self.window, &mut self.source)
    }

    // Finds the next line that is not empty.
    fn seek(&mut self) -> Found
        requires { self.old.stage ≡ Section.Start → ⊥ }
        ensures seeks { Seeks result self.old self.new }
        ensures stage { self.new.stage ≡ self.old.stage }
        ensures kept { Keeps self.old self.new }
        ensures ended { self.new.ended ≡ self.old.ended }
    {
        seek_line(&mut self.window, &mut self.source)
    }

    // Takes the heading, unless it was taken.
    fn take_heading(&mut self) -> Result<(), Ending>
        requires past { self.old.stage ≡ Section.Start → ⊥ }
        requires not_over { self.old.stage ≡ Section.Over → ⊥ }
        ensures begins { Begins result self.old self.new }
        ensures taken { OnOk result (self.new.stage ≡ Section.Rows) }
        ensures kept { Keeps self.old self.new }
        ensures ended { self.new.ended ≡ self.old.ended }
    {
        if let Section::Rows = self.stage {
            return Ok(());
        }
        match self.seek() {
            Found::Line(extent) => self.use_heading(extent),
            Found::TooLong => Err(malformed(MalformedKind::RowTooLong, 0)),
            Found::Nothing => Err(malformed(MalformedKind::BadHeading, 0)),
            Found::ReadFailed => Err(Ending::ReadFailed),
        }
    }

    // Takes the heading, which stands at the front.
    fn use_heading(&mut self, extent: Extent) -> Result<(), Ending>
        requires stage { self.old.stage ≡ Section.Heading }
        requires front { IsFront extent self.old.held self.old.source.left }
        ensures begins { Begins result self.old self.new }
        ensures taken { OnOk result (self.new.stage ≡ Section.Rows) }
        ensures kept { Keeps self.old self.new }
        ensures ended { self.new.ended ≡ self.old.ended }
    {
        let text = &self.window.as_slice()[..extent.text];
        match read_heading(self.alloc, &self.inputs, extent.size, text, &mut self.room) {
            Ok(layout) => self.layout = layout,
            Err(flaw) => return Err(flaw.ending(0)),
        }
        self.window.consume(extent.whole);
        self.stage = Section::Rows;
        Ok(())
    }

    // The row of the next line.
    fn take_row(&mut self) -> Result<Row, Ending>
        requires { self.old.stage ≡ Section.Rows }
        ensures takes { Takes result self.old self.new }
        ensures kept { Keeps self.old self.new }
        ensures ended { self.new.ended ≡ self.old.ended }
    {
        match self.seek() {
            Found::Line(extent) => self.use_line(extent),
            Found::TooLong => Err(malformed(MalformedKind::RowTooLong, self.given + 1)),
            Found::Nothing => Err(Ending::End),
            Found::ReadFailed => Err(Ending::ReadFailed),
        }
    }

    // The row of the line that stands at the front.
    fn use_line(&mut self, extent: Extent) -> Result<Row, Ending>
        requires stage { self.old.stage ≡ Section.Rows }
        requires front { IsFront extent self.old.held self.old.source.left }
        ensures takes { Takes result self.old self.new }
        ensures kept { Keeps self.old self.new }
        ensures ended { self.new.ended ≡ self.old.ended }
    {
        let number = self.given + 1;
        let text = &self.window.as_slice()[..extent.text];
        match read_row(
            self.alloc,
            self.form,
            &self.layout,
            number,
            extent.size,
            text,
            &mut self.room,
        ) {
            Ok(row) => {
                self.window.consume(extent.whole);
                self.given = number;
                self.stage = extent.stage_behind();
                Ok(row)
            }
            Err(flaw) => Err(flaw.ending(number)),
        }
    }

    /// Whether each read of its source answers at once.
    pub fn answers_at_once(&self) -> bool {
        self.source.answers_at_once()
    }

    /// Waits until the next line of its source can be read at once, for so many milliseconds at most, and says whether it
    /// can.
    pub fn wait_for_bytes(&self, milliseconds: u16) -> bool {
        self.source.wait_for_bytes(milliseconds)
    }

    /// Has the bytes of its source read before they are needed, by a thread of its own, which rings this bell whenever what a
    /// read would have waited for has come.
    pub fn read_ahead(&mut self, bell: &Bell)
        ensures { self.new ≡ self.old }
    {
        self.source.read_ahead(bell);
    }

    /// Whether a thread reads the bytes of its source ahead and rings a bell.
    pub fn rings(&self) -> bool {
        self.source.rings()
    }

    /// Whether the next row, or how the reader ends, is known without a read: a line is held whole, or none is read any
    /// more.
    pub fn has_line(&self) -> bool {
        self.ended.is_some()
            || match self.stage {
                Section::Start | Section::Heading => false,
                Section::Rows => self.window.has_line(),
                Section::Over => true,
            }
    }

    /// The source, with the place that it had.
    pub fn into_source(self) -> S
        ensures { S.state result ≡ self.source }
    {
        self.source
    }
}

// A malformed line of the row with this number.
fn malformed(kind: MalformedKind, row: u64) -> Ending
    ensures { result ≡ Ending.Malformed kind row }
{
    Ending::Malformed { kind, row }
}
