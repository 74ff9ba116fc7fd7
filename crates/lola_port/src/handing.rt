//! What a source's thread and its reader share, and what the thread does: it reads one piece ahead of its reader, and rings a
//! bell whenever there is something to read. It is never joined: where it waits for bytes that do not come it ends with the
//! program, or at the next bytes after the source was closed.
//!
//! A piece is handed over once a line has ended in it, so that its reader, who asks for lines, does not wait inside of one;
//! sooner where it is full, since no line is as long, and where the source ends.

use crate::ReadFailed;
use crate::bell::Bell;
use crate::line::Line;
use crate::piece::{Piece, ROOM};
use std::alloc::Global;
use std::fs::File;
use std::io::Read;
use std::sync::atomic::{AtomicBool, Ordering};
use std::sync::{Arc, Condvar, Mutex, Wait};
use std::time::{Clock, Duration};

// How a source ended.
#[derive(Clone, Copy)]
enum End {
    Reached,
    Failed,
}

// What a source's thread and its reader share.
#[derive(Drop)]
struct Held {
    // What the thread is to read. It takes it at its start.
    file: Option<File>,
    // The next bytes, which are some.
    next: Option<Piece>,
    // What the thread may fill next, and what behind that.
    spare: Option<Piece>,
    second: Option<Piece>,
    // What stands behind the next bytes, where that is known.
    end: Option<End>,
    // Nobody reads the source any more.
    is_closed: bool,
}

impl Held {
    // Whether a read would wait.
    fn is_silent(&self) -> bool {
        self.next.is_none() && self.end.is_none()
    }

    // Keeps a piece that the thread may fill. There are two pieces, and both may be here.
    fn put_spare(&mut self, piece: Piece) {
        if self.spare.is_none() {
            self.spare = Some(piece);
        } else {
            self.second = Some(piece);
        }
    }

    // Takes a piece to fill, if one is here.
    fn take_spare(&mut self) -> Option<Piece> {
        match self.spare.take() {
            Some(piece) => Some(piece),
            None => self.second.take(),
        }
    }
}

// The cell of a source's thread and its reader, and on what each of them waits.
#[derive(Drop)]
pub(crate) struct Shared {
    held: Mutex<Held>,
    // Whether a read would not wait, as it stands whenever nobody has the lock. It is changed under the lock alone.
    is_there: AtomicBool,
    // It rings when a read would wait no longer.
    bell: Bell,
    // There are next bytes, or the source ended.
    came: Condvar,
    // There is the file, room for the next bytes or a piece to fill, or the source is closed.
    freed: Condvar,
}

impl Shared {
    // The cell of a source that was not read yet, with a piece that is to be filled second.
    pub(crate) fn create(spare: Piece, bell: Bell) -> Shared {
        Shared {
            held: Mutex::new(Held {
                file: None,
                next: None,
                spare: Some(spare),
                second: None,
                end: None,
                is_closed: false,
            }),
            is_there: AtomicBool::new(false),
            bell,
            came: Condvar::new(),
            freed: Condvar::new(),
        }
    }

    // What the thread is to read, once it was given. None where the source was closed.
    fn wait_for_file<R: Wait>(&self, rt: &R) -> Option<File> {
        let mut held = self.held.lock(rt);
        for _ in rt.forever() {
            if held.is_closed {
                return None;
            }
            if let Some(file) = held.file.take() {
                return Some(file);
            }
            held = self.freed.wait(rt, held);
        }
        unreachable!()
    }

    // Gives the thread what it is to read.
    pub(crate) fn give<R: Wait>(&self, rt: &R, file: File) {
        self.held.lock(rt).file = Some(file);
        self.freed.notify_one();
    }

    // Says that a read would wait no longer, once the lock was let go.
    fn tell(&self) {
        self.bell.ring();
        self.came.notify_all();
    }

    // Hands a piece over that has bytes, once the one before it was taken. False where the source was closed.
    fn hand_over<R: Wait>(&self, rt: &R, piece: Piece) -> bool {
        if piece.is_used_up() {
            return true;
        }
        let mut held = self.held.lock(rt);
        for _ in rt.forever() {
            if held.is_closed {
                return false;
            }
            if held.next.is_none() {
                break;
            }
            held = self.freed.wait(rt, held);
        }
        held.next = Some(piece);
        self.is_there.store(true, Ordering::SeqCst);
        drop(held);
        self.tell();
        true
    }

    // A piece to fill, once there is one. None where the source was closed.
    fn wait_for_spare<R: Wait>(&self, rt: &R) -> Option<Piece> {
        let mut held = self.held.lock(rt);
        for _ in rt.forever() {
            if held.is_closed {
                return None;
            }
            if let Some(piece) = held.take_spare() {
                return Some(piece);
            }
            held = self.freed.wait(rt, held);
        }
        unreachable!()
    }

    // Says how the source ended, behind the bytes that were handed over.
    fn finish<R: Wait>(&self, rt: &R, end: End) {
        let mut held = self.held.lock(rt);
        held.end = Some(end);
        self.is_there.store(true, Ordering::SeqCst);
        drop(held);
        self.tell();
    }

    // Gives a piece back whose bytes were moved. The thread mostly waits for bytes then, and need not be woken.
    pub(crate) fn give_back<R: Wait>(&self, rt: &R, piece: Piece) {
        self.held.lock(rt).put_spare(piece);
        self.freed.notify_one();
    }

    // The next bytes, once there are any, or none at the end.
    pub(crate) fn next_piece<R: Wait>(&self, rt: &R) -> Result<Option<Piece>, ReadFailed> {
        let mut held = self.held.lock(rt);
        for _ in rt.forever() {
            if let Some(piece) = held.next.take() {
                self.is_there.store(held.end.is_some(), Ordering::SeqCst);
                drop(held);
                self.freed.notify_one();
                return Ok(Some(piece));
            }
            match held.end {
                Some(End::Reached) => return Ok(None),
                Some(End::Failed) => return Err(ReadFailed),
                None => held = self.came.wait(rt, held),
            }
        }
        unreachable!()
    }

    // Whether a read would not wait, after so many milliseconds at most.
    pub(crate) fn has_come<R: Wait + Clock>(&self, rt: &R, milliseconds: u16) -> bool {
        self.is_there.load(Ordering::SeqCst)
            || (milliseconds > 0 && self.comes_within(rt, milliseconds))
    }

    // Whether a read would not wait, after so many milliseconds at most, in which it is waited for.
    fn comes_within<R: Wait + Clock>(&self, rt: &R, milliseconds: u16) -> bool {
        let limit = Duration::from_millis(u64::from(milliseconds));
        let held = self.held.lock(rt);
        let (_, result) = self
            .came
            .wait_timeout_while(rt, held, limit, |held| held.is_silent());
        !result.timed_out()
    }

    // Says that nobody reads the source any more.
    pub(crate) fn close<R: Wait>(&self, rt: &R) {
        self.held.lock(rt).is_closed = true;
        self.freed.notify_one();
    }
}

// What a source's thread is given: the cell, and the piece that it fills first.
#[derive(Drop)]
pub(crate) struct Task {
    pub(crate) shared: Arc<Shared, Global>,
    pub(crate) piece: Piece,
}

// Reads a piece: until a line that is not empty has ended in it, until it is full, or until the source ends or fails, which is told.
fn fill<F: Read>(piece: &mut Piece, file: &mut F, line: &mut Line) -> Option<End> {
    piece.clear();
    for _ in 0..ROOM {
        if !piece.has_room() {
            break;
        }
        match piece.fill(file) {
            Ok(0) => return Some(End::Reached),
            Ok(count) => {
                if piece.goes_on(count, line) {
                    break;
                }
            }
            Err(_) => return Some(End::Failed),
        }
    }
    None
}

// What a source's thread does: it reads pieces one after another, until the source ends, fails or is closed.
pub(crate) fn read_ahead<R: Wait>(rt: &R, task: Task) {
    let Task { shared, mut piece } = task;
    let Some(mut file) = shared.wait_for_file(rt) else {
        return;
    };
    let mut line = Line::Start;
    for _ in rt.forever() {
        let end = fill(&mut piece, &mut file, &mut line);
        if !shared.hand_over(rt, piece) {
            return;
        }
        if let Some(end) = end {
            shared.finish(rt, end);
            return;
        }
        match shared.wait_for_spare(rt) {
            Some(spare) => piece = spare,
            None => return,
        }
    }
}
