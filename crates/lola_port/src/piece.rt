//! A piece of a source: a buffer of a fixed length, and which of its bytes are still to be moved.

ghost use Rattle.std.specs.Prelude.{◌≡◌, ◌+◌, ◌<◌, ◌≤◌, ◌↔◌, [], drop, length, min, take, IfOk, IsFalse, IsTrue, OnErr};
ghost use Rattle.std.specs.Io.KnownBytes.{Keeps};
ghost use Rattle.lola_port.specs.Bytes.{IsFilled};

use crate::again::read_some;
use crate::line::Line;
use lola_value::text::Memory;
use std::alloc::Global;
use std::io;
use std::io::Read;
use std::marker::Model;

/// How many bytes a piece has room for, which is more than a line may have.
pub const ROOM: usize = 1 << 17;

/// Bytes that were read of a source. Contracts see it as those that are still to be moved, which stand from `at` on and
/// before `end`, and the room behind them.
#[derive(Drop)]
pub struct Piece {
    room: Vec<u8>,
    at: usize,
    end: usize,
    // Behind how many of its bytes the last line ends that is not empty; none, where none ends.
    lines: usize,
}

impl Model for Piece {
    ghost use Rattle.std.specs.Prelude.{◌≡◌, ◌-◌, ◌^◌, ◌≤◌, drop, length, take};
    ghost use Rattle.lola_port.specs.Bytes.{PieceState};

    ghost Value = { PieceState };

    ghost view = { λ s. record { bytes = take (s.end - s.at) (drop s.at s.room.items); room = 2 ^ 17 - s.end } };

    ghost invariant = { λ s. (s.at ≤ s.end) × (s.end ≤ 2 ^ 17) × (length s.room.items ≡ 2 ^ 17) };
}

impl Piece {
    /// A piece without bytes.
    pub fn create(alloc: Global) -> Result<Piece, Memory>
        ensures { IfOk result (λ piece. piece ≡ record { bytes = []; room = ROOM }) }
    {
        Ok(Piece {
            room: vec![in alloc; 0; ROOM]?,
            at: 0,
            end: 0,
            lines: 0,
        })
    }

    /// Whether all of its bytes were moved.
    pub fn is_used_up(&self) -> bool
        ensures yes { IsTrue result → length self.now.bytes ≡ 0 }
        ensures no { IsFalse result → 0 < length self.now.bytes }
    {
        self.at == self.end
    }

    /// Forgets the bytes that it had.
    pub fn clear(&mut self)
        ensures { self.new ≡ record { bytes = []; room = ROOM } }
    {
        self.at = 0;
        self.end = 0;
        self.lines = 0;
    }

    /// Whether a line that is not empty ends among the bytes that are still to be moved.
    pub fn has_line(&self) -> bool {
        self.at < self.lines
    }

    /// Whether there is room for more bytes behind those that it has.
    pub fn has_room(&self) -> bool
        ensures { IsTrue result ↔ (0 < self.now.room) }
    {
        self.end < self.room.len()
    }

    /// Reads the next bytes behind those that it has, and says how many came, which is none at the end, or where there is no room.
    pub fn fill<F: Read>(&mut self, file: &mut F) -> io::Result<usize>
        ensures count { IfOk result (λ count. length self.new.bytes ≡ length self.old.bytes + count) }
        ensures filled { IfOk result (λ count.
            IsFilled self.old self.new (F.remaining file.old) (F.remaining file.new) count) }
        ensures failed { OnErr result (self.new ≡ self.old) }
        ensures not_read { OnErr result (Keeps (F.remaining file.old) (F.remaining file.new)) }
    {
        let count = read_some(file, &mut self.room[self.end..])?;
        self.end += count;
        Ok(count)
    }

    /// Goes on with a line over so many bytes, which came last, and tells whether a line that is not empty ends among them.
    pub fn goes_on(&mut self, count: usize, line: &mut Line) -> bool
        requires { count ≤ length self.old.bytes }
        ensures { self.new ≡ self.old }
    {
        let start = self.end - count;
        let Some(behind) = line.goes_on(&self.room[start..self.end]) else {
            return false;
        };
        self.lines = start.saturating_add(behind);
        true
    }

    /// Moves its next bytes into the front of `buf`, as many as there is room for, and says how many.
    pub fn move_to(&mut self, buf: &mut [u8]) -> usize
        ensures count { result ≡ min (length buf.new) (length self.old.bytes) }
        ensures moved { take result buf.new ≡ take result self.old.bytes }
        ensures rest { self.new ≡ record self.old { bytes = drop result self.old.bytes } }
    {
        let count = buf.len().min(self.end - self.at);
        buf[..count].copy_from_slice(&self.room[self.at..self.at + count]);
        self.at += count;
        count
    }
}
