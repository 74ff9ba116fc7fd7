//! The board at which the threads of a run wait for each other. It says in which order rows are handed in, and who
//! sleeps meanwhile; what is handed in, and what becomes of it, does not depend on it, so nothing of it is claimed.
//!
//! Each source has a cell. While its thread has a row in hand, the cell is the row's stamp, and the row is handed in
//! once no other cell is below its own, in the order of stamp and source. The cell of a source whose reads answer at
//! once stays at the row that was handed in last until the next is in hand, so that the others wait for it; before
//! its first row it is below all. The cell of any other source is above all while it reads, so that nobody waits for
//! somebody who writes; so is that of a source that has ended. The thread that takes rows may read sources too: their
//! cells are as those of others, and it takes where others wait. While all sources are its own no cell is looked at.
//! It sleeps on a bell, which those ring that have a row for it, and the threads that read bytes ahead of it.
//!
//! Nobody waits for ever: the least of the cells belongs to a thread that waits for no other. Whoever has changed its
//! cell looks for the least then, and wakes its thread; whoever sleeps has said so before it looked.

use lola_port::Bell;
use lola_value::text::Memory;
use std::alloc::Global;
use std::sync::Wait;
use std::sync::atomic::{AtomicBool, AtomicU64, Ordering};
use std::thread::Parker;
use std::{hint, thread};

// A cell that is below those of all rows, and one that is above them. That of a row is its stamp and 1.
const BELOW: u64 = 0;

const ABOVE: u64 = u64::MAX;

// How often a thread looks before it lets others run, how often it does so before it sleeps where each thread has a
// processor, and where some have not.
const SPINS: u32 = 64;

const LONG: u32 = 4096;

const SHORT: u32 = 64;

// How often a thread that found no room tries again before it says that it is about to sleep.
const TRIES: u32 = 4;

// A source on the board, besides its cell: where its thread sleeps, and whether it does, or is about to, until its turn
// comes or until there is room; and whether it has no thread, since the one that takes reads it.
#[derive(Drop)]
struct Place {
    bed: Parker,
    sleeps: AtomicBool,
    wants_room: AtomicBool,
    is_here: AtomicBool,
}

/// What the thread of a source saw when it looked at the board: up to which cell it may go on without another look.
#[derive(Clone, Copy)]
pub struct Watch {
    limit: u64,
    limit_source: u32,
    falls: u64,
}

impl Watch {
    /// Nothing was seen yet.
    pub fn new() -> Watch {
        Watch {
            limit: BELOW,
            limit_source: 0,
            falls: 0,
        }
    }
}

/// The cells of all sources, the beds of their threads, and the bell of the thread that takes their rows.
#[derive(Drop)]
pub struct Board {
    cells: Vec<AtomicU64>,
    places: Vec<Place>,
    // How often a cell has fallen: what a thread saw may not hold any more.
    falls: AtomicU64,
    // How many threads want room.
    full: AtomicU64,
    // How many sources the thread that takes reads.
    here: AtomicU64,
    looks: u32,
    bell: Bell,
    taker_sleeps: AtomicBool,
    // How often the taker has found nothing since rows came.
    idle: AtomicU64,
    stopped: AtomicBool,
}

// Waits a moment after so many looks.
fn pause(looks: u32) {
    if looks < SPINS {
        hint::spin_loop();
    } else {
        thread::yield_now();
    }
}

// Whether a cell is below another, in the order of cell and source.
fn is_below(cell: u64, source: u32, other: u64, other_source: u32) -> bool {
    cell < other || (cell == other && source < other_source)
}

impl Board {
    /// A board for so many sources, all of which are below each row until they say otherwise.
    pub fn create(alloc: Global, sources: u32) -> Result<Board, Memory> {
        let count = sources as usize;
        let mut cells = Vec::with_capacity(alloc, count)?;
        let mut places = Vec::with_capacity(alloc, count)?;
        for _ in 0..count {
            cells.push(AtomicU64::new(BELOW))?;
            places.push(Place {
                bed: Parker::new(),
                sleeps: AtomicBool::new(false),
                wants_room: AtomicBool::new(false),
                is_here: AtomicBool::new(false),
            })?;
        }
        Ok(Board {
            cells,
            places,
            falls: AtomicU64::new(0),
            full: AtomicU64::new(0),
            here: AtomicU64::new(0),
            looks: SHORT,
            bell: Bell::create(alloc)?,
            taker_sleeps: AtomicBool::new(false),
            idle: AtomicU64::new(0),
            stopped: AtomicBool::new(false),
        })
    }

    /// The threads of the sources, and the one that takes rows, have so many processors.
    pub fn has_processors(&mut self, count: usize) {
        if self.cells.len() < count {
            self.looks = LONG;
        }
    }

    /// What the thread that takes sleeps on. Whoever has something for it that is not said at the board rings it.
    pub fn bell(&self) -> &Bell {
        &self.bell
    }

    // The source with the least cell, and the least of the other cells with its source.
    fn least(&self) -> (u32, u64, u32) {
        let mut first = ABOVE;
        let mut first_source = u32::MAX;
        let mut second = ABOVE;
        let mut second_source = u32::MAX;
        let mut source: u32 = 0;
        for word in &self.cells {
            let cell = word.load(Ordering::SeqCst);
            if cell < first {
                second = first;
                second_source = first_source;
                first = cell;
                first_source = source;
            } else if cell < second {
                second = cell;
                second_source = source;
            }
            source = source.saturating_add(1);
        }
        (first_source, second, second_source)
    }

    // Wakes the thread that reads a source, where it sleeps or is about to.
    fn wake(&self, source: u32) {
        if let Some(place) = self.places.get(source as usize) {
            if place.is_here.load(Ordering::SeqCst) {
                self.wake_taker();
            } else if place.sleeps.load(Ordering::SeqCst) {
                place.bed.unpark();
            }
        }
    }

    // Wakes the thread that takes, where it sleeps or is about to.
    fn wake_taker(&self) {
        if self.taker_sleeps.load(Ordering::SeqCst) {
            self.bell.ring();
        }
    }

    // Whether the thread that takes reads all sources: there is nobody to wait for.
    fn is_alone(&self) -> bool {
        self.here.load(Ordering::SeqCst) == self.cells.len() as u64
    }

    // Sets the cell of a source.
    fn set(&self, source: u32, cell: u64) {
        if let Some(word) = self.cells.get(source as usize) {
            if cell < word.swap(cell, Ordering::SeqCst) {
                self.falls.fetch_add(1, Ordering::SeqCst);
            }
        }
    }

    /// The thread that takes reads a source, which has no thread of its own.
    pub fn reads_here(&self, source: u32) {
        if let Some(place) = self.places.get(source as usize) {
            place.is_here.store(true, Ordering::SeqCst);
            self.here.fetch_add(1, Ordering::SeqCst);
        }
    }

    /// The thread that takes has a row of a source in hand, with this stamp.
    pub fn has_row(&self, source: u32, stamp: u64) {
        if !self.is_alone() {
            self.set(source, stamp.saturating_add(1));
        }
    }

    /// Whether no other cell is below that of a source which the thread that takes reads. Whoever's is the least is woken.
    pub fn is_first(&self, source: u32) -> bool {
        if self.is_alone() {
            return true;
        }
        let (first, _, _) = self.least();
        if first == source {
            return true;
        }
        self.wake(first);
        false
    }

    /// Nobody waits for a source from now on: it has ended, or reads what somebody may yet have to write.
    pub fn step_aside(&self, source: u32) {
        if self.is_alone() {
            return;
        }
        self.set(source, ABOVE);
        let (first, _, _) = self.least();
        self.wake(first);
    }

    /// Waits until a row of a source with this stamp may be handed in, which is at once where the run was stopped.
    pub fn wait_for_turn<R: Wait>(&self, rt: &R, source: u32, stamp: u64, watch: &mut Watch) {
        let mine = stamp.saturating_add(1);
        if is_below(mine, source, watch.limit, watch.limit_source)
            && self.falls.load(Ordering::SeqCst) == watch.falls
        {
            return;
        }
        self.set(source, mine);
        let mut looks: u32 = 0;
        for _ in rt.forever() {
            let falls = self.falls.load(Ordering::SeqCst);
            let (first, second, second_source) = self.least();
            if first == source {
                *watch = Watch {
                    limit: second,
                    limit_source: second_source,
                    falls,
                };
                break;
            }
            if self.stopped.load(Ordering::SeqCst) {
                break;
            }
            if looks == 0 {
                self.wake(first);
            }
            self.sleep_soon(rt, source, looks);
            looks = looks.saturating_add(1);
        }
        self.is_up(source, looks);
    }

    // Waits a moment for a turn after so many looks: at first it goes on, then it says that it is about to sleep, and
    // then it sleeps.
    fn sleep_soon<R: Wait>(&self, rt: &R, source: u32, looks: u32) {
        let Some(place) = self.places.get(source as usize) else {
            return;
        };
        if looks < self.looks {
            pause(looks);
        } else if looks == self.looks {
            place.sleeps.store(true, Ordering::SeqCst);
        } else {
            place.bed.park(rt);
        }
    }

    // The thread of a source is up again, after so many looks.
    fn is_up(&self, source: u32, looks: u32) {
        if looks <= self.looks {
            return;
        }
        if let Some(place) = self.places.get(source as usize) {
            place.sleeps.store(false, Ordering::SeqCst);
        }
    }

    /// There was no room for a row of a source, so many times in a row before this one. After a few times its thread says
    /// that it is about to sleep, is to try once more, and sleeps from then on until rows are taken.
    pub fn wait_for_room<R: Wait>(&self, rt: &R, source: u32, times: u32) {
        let Some(place) = self.places.get(source as usize) else {
            return;
        };
        if times < TRIES {
            thread::yield_now();
        } else if times == TRIES {
            place.wants_room.store(true, Ordering::SeqCst);
            self.full.fetch_add(1, Ordering::SeqCst);
        } else if !self.is_stopped() {
            place.bed.park(rt);
        }
    }

    /// A row of a source was handed in, after it had found no room so many times, or the source has ended. The thread
    /// that takes is woken where it sleeps.
    pub fn row_is_in(&self, source: u32, times: u32) {
        if times > TRIES {
            self.wants_no_room(source);
        }
        self.wake_taker();
    }

    // The thread of a source has said that it wants room, and wants none any more.
    fn wants_no_room(&self, source: u32) {
        if let Some(place) = self.places.get(source as usize) {
            place.wants_room.store(false, Ordering::SeqCst);
            self.full.fetch_sub(1, Ordering::SeqCst);
        }
    }

    /// The thread that takes found nothing. After a few times it sleeps until a row is in, the least cell is that of a source that it
    /// reads, or somebody else rings its bell.
    pub fn wait_for_rows<R: Wait>(&self, rt: &R) {
        let idle = self.idle.load(Ordering::SeqCst);
        if idle < u64::from(SHORT) {
            thread::yield_now();
        } else if idle == u64::from(SHORT) {
            self.taker_sleeps.store(true, Ordering::SeqCst);
        } else {
            self.bell.wait(rt);
            return;
        }
        self.idle.store(idle + 1, Ordering::SeqCst);
    }

    /// The thread that takes has taken rows, so there is room again.
    pub fn rows_are_out(&self) {
        self.idle.store(0, Ordering::SeqCst);
        self.taker_sleeps.store(false, Ordering::SeqCst);
        if self.full.load(Ordering::SeqCst) == 0 {
            return;
        }
        for place in &self.places {
            if place.wants_room.load(Ordering::SeqCst) {
                place.bed.unpark();
            }
        }
    }

    /// The run is stopped, and the intake is closed: nobody waits any more.
    pub fn stop(&self) {
        self.stopped.store(true, Ordering::SeqCst);
        for place in &self.places {
            place.bed.unpark();
        }
    }

    /// Whether the run was stopped.
    pub fn is_stopped(&self) -> bool {
        self.stopped.load(Ordering::SeqCst)
    }
}
