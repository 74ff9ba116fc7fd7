//! The reader of a source that has a thread of its own.

ghost use Rattle.std.specs.Io.{ReadsAtMost};

use crate::ReadFailed;
use crate::bell::Bell;
use crate::handing::{Shared, Task};
use crate::piece::Piece;
use crate::starter::Asker;
use lola_value::text::Memory;
use std::alloc::Global;
use std::fs::File;
use std::sync::{Arc, Wait};
use std::time::Clock;

// A source's reader. Its thread is told when it is dropped.
pub(crate) struct Ahead<R: Wait + Drop> {
    rt: R,
    shared: Arc<Shared, Global>,
    // The bytes that are moved next, of which there are some left.
    front: Option<Piece>,
}

impl<R: Wait + Drop> Drop for Ahead<R> {
    fn drop(self) {
        self.shared.close(&self.rt);
        let Ahead {
            rt: _rt,
            shared: _shared,
            front: _front,
        } = self;
    }
}

impl<R: Wait + Clone + Drop> Ahead<R> {
    // The reader of a source whose thread still waits for its file, and will ring this bell. None where no thread can be started.
    pub(crate) fn start(
        alloc: Global,
        asker: &Asker<R>,
        bell: &Bell,
    ) -> Result<Option<Ahead<R>>, Memory> {
        let rt = asker.runtime().clone()?;
        let piece = Piece::create(alloc)?;
        let spare = Piece::create(alloc)?;
        let shared = Arc::new(alloc, Shared::create(spare, bell.another()?))?;
        let theirs = Arc::try_clone(&shared)?;
        let task = Task {
            shared: theirs,
            piece,
        };
        if !asker.start(task) {
            return Ok(None);
        }
        Ok(Some(Ahead {
            rt,
            shared,
            front: None,
        }))
    }
}

impl<R: Wait + Clock + Drop> Ahead<R> {
    // Gives the thread the file that it is to read.
    pub(crate) fn give(&self, file: File) {
        self.shared.give(&self.rt, file);
    }

    // Moves the next bytes into the front of `buf`, once there are any, and says how many. None come only at the end, or
    // where `buf` has no room.
    pub(crate) fn read(&mut self, buf: &mut [u8]) -> Result<usize, ReadFailed>
        ensures { ReadsAtMost result buf.new }
    {
        if buf.is_empty() {
            return Ok(0);
        }
        let Some(mut piece) = self.take_piece()? else {
            return Ok(0);
        };
        let count = piece.move_to(buf);
        self.put_piece(piece);
        Ok(count)
    }

    // The bytes that are moved next, once there are any, or none at the end.
    fn take_piece(&mut self) -> Result<Option<Piece>, ReadFailed> {
        match self.front.take() {
            Some(piece) => Ok(Some(piece)),
            None => self.shared.next_piece(&self.rt),
        }
    }

    // What is left of a piece is moved next. One that was used up goes back to the thread, which then has it before the next bytes come.
    fn put_piece(&mut self, piece: Piece) {
        if piece.is_used_up() {
            self.shared.give_back(&self.rt, piece);
        } else {
            self.front = Some(piece);
        }
    }

    // Whether the next line can be moved at once, or whatever ends the source, after so many milliseconds at most. The bytes that are left
    // of a piece may have no end of a line: that stands in the next piece then.
    pub(crate) fn has_come(&self, milliseconds: u16) -> bool {
        self.has_line() || self.shared.has_come(&self.rt, milliseconds)
    }

    // Whether a line ends among the bytes that can be moved at once.
    fn has_line(&self) -> bool {
        match &self.front {
            Some(piece) => piece.has_line(),
            None => false,
        }
    }
}
