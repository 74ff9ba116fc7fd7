//! The bytes that were read and not yet taken, in one buffer with room behind them.
ghost use Rattle.std.specs.Prelude.{◌≡◌, ◌+◌, ◌<◌, ◌≤◌, [], false, length, drop, slice_range, position, IfOk, OnErr};
ghost use Rattle.std.specs.List.{list_any};
ghost use Rattle.std.specs.Io.KnownBytes.{IsAtEnd};
ghost use Rattle.lola_port.specs.States.{ReadBroke};
ghost use Rattle.lola_rows.specs.Filling.{Took};
ghost use Rattle.lola_rows.specs.Lines.{is_line_end, without_mark};

use crate::checks::begins_with_mark;
use crate::fill::MOST_HELD;
use lola_port::{ReadFailed, Source};
use lola_value::text::Memory;
use memchr::memchr;
use std::alloc::Global;

/// Room for the longest line twice over.
const ROOM: usize = 131072;

/// The bytes from `start` to `end`, of which the first `scanned` have no line end.
#[derive(Drop)]
pub(crate) struct Window {
    bytes: Vec<u8>,
    start: usize,
    end: usize,
    scanned: usize,
    ghost whole: { length bytes.items ≡ 131072 },
    ghost ordered: { start + scanned ≤ end },
    ghost within: { end ≤ 131072 },
    ghost unended: { list_any is_line_end (slice_range bytes.items start (start + scanned)) ≡ false },
}

impl Window {
    ghost use Rattle.lola_rows.specs.Window.{items, room, whole_room};

    /// An empty buffer.
    pub(crate) fn reserve(alloc: Global) -> Result<Window, Memory>
        ensures { IfOk result (λ window. items window ≡ []) }
    {
        Ok(Window {
            bytes: vec![in alloc; 0u8; ROOM]?,
            start: 0,
            end: 0,
            scanned: 0,
        })
    }

    /// The bytes that are held.
    pub(crate) fn as_slice(&self) -> &[u8]
        ensures { result.now ≡ items self.now }
    {
        &self.bytes[self.start..self.end]
    }

    /// How many bytes a read may put behind them.
    pub(crate) fn room(&self) -> usize
        ensures { result ≡ room self.now }
    {
        ROOM - self.end
    }

    /// Takes bytes from the front.
    pub(crate) fn consume(&mut self, count: usize)
        requires { count ≤ length (items self.old) }
        ensures { items self.new ≡ drop count (items self.old) }
    {
        self.start += count;
        self.scanned = 0;
    }

    /// Takes a byte order mark from the front, if there is one.
    pub(crate) fn drop_mark(&mut self)
        ensures { items self.new ≡ without_mark (items self.old) }
    {
        if begins_with_mark(self.as_slice()) {
            self.consume(3);
        }
    }

    /// Moves what is held to the front of the buffer.
    pub(crate) fn move_to_front(&mut self)
        ensures items { items self.new ≡ items self.old }
        ensures room { room self.new + length (items self.new) ≡ whole_room }
    {
        let (start, end) = (self.start, self.end);
        self.bytes.copy_within(start..end, 0);
        self.start = 0;
        self.end = end - start;
    }

    /// The place of the first line end. No byte is looked at twice while none is found.
    pub(crate) fn find_line_end(&mut self) -> Option<usize>
        ensures items { items self.new ≡ items self.old }
        ensures room { room self.new ≡ room self.old }
        ensures value { result ≡ position is_line_end (items self.old) }
    {
        match memchr(b'\n', &self.bytes[self.start + self.scanned..self.end]) {
            Some(at) => Some(self.scanned + at),
            None => {
                self.scanned = self.end - self.start;
                None
            }
        }
    }

    /// Whether a line that is not empty is held whole, or more than any line has: nothing has to be read to know what is
    /// next.
    pub(crate) fn has_line(&self) -> bool {
        holds_line(self.as_slice())
    }

    /// Puts the next bytes of a source behind those held, and says how many.
    pub(crate) fn read_from<S: Source>(&mut self, source: &mut S) -> Result<usize, ReadFailed>
        ensures took { IfOk result (λ count. Took count (items self.old) (items self.new) (S.state source.old) (S.state source.new)) }
        ensures end { IfOk result (λ count. count ≡ 0 → 0 < room self.old → IsAtEnd (S.state source.new).left) }
        ensures kept { OnErr result (items self.new ≡ items self.old) }
        ensures err { OnErr result (ReadBroke (S.state source.old) (S.state source.new)) }
    {
        let end = self.end;
        let count = source.read(&mut self.bytes[end..])?;
        self.end = end + count;
        Ok(count)
    }
}

// Whether these bytes have a line that is not empty, or behind empty ones more than a line may have.
fn holds_line(bytes: &[u8]) -> bool {
    let mut rest = bytes;
    while let Some(at) = memchr(b'\n', rest) {
        if has_text(&rest[..at]) {
            return true;
        }
        rest = behind(rest, at);
    }
    rest.len() > MOST_HELD
}

// The bytes behind the one at a place.
fn behind(bytes: &[u8], place: usize) -> &[u8]
    requires { place < length bytes.now }
    ensures { length result.now < length bytes.now }
{
    &bytes[place + 1..]
}

// Whether a line is more than a carriage return.
fn has_text(line: &[u8]) -> bool {
    match line {
        [] | [b'\r'] => false,
        _ => true,
    }
}
