//! Where callers sleep whose turn is not near.
//!
//! A caller sleeps on the bed that its ticket has, by the remainder. No waking is lost. A caller is counted in its bed,
//! notes the number of its rings, and only then looks whether it has to sleep. Whoever ends a turn has written the
//! ticket that is served next before it looks who has drawn a ticket and who is counted. So either the caller finds its
//! ticket served, or the other finds the caller and rings: then the count of rings is no longer the one that was noted,
//! so that the sleep does not begin, or the waking ends it. The sleep compares the low 32 bits of the count. Between the
//! note and the sleep a thread rings a bed twice at most, once for a turn that had ended before the note and once for a
//! turn before the caller's own. There are far fewer than 2^31 threads, so these bits do not come round.

ghost use Rattle.std.specs.Prelude.{◌≡◌, vec_len};

use std::alloc::{AllocError, Global};
use std::sync::Wait;
use std::sync::atomic::{AtomicU64, Ordering};

// How many beds there are. Tickets that are so far apart have the same bed.
const BEDS: usize = 64;

// The low 32 bits.
const LOW: u64 = 0xffff_ffff;

/// A bed.
#[derive(Drop)]
pub struct Bed {
    // The callers that sleep here or are about to.
    callers: AtomicU64,
    // How many rings it has had.
    rings: AtomicU64,
}

impl Bed {
    fn new() -> Bed {
        Bed {
            callers: AtomicU64::new(0),
            rings: AtomicU64::new(0),
        }
    }

    /// Counts a caller in, and answers the low 32 bits of the count of rings.
    pub fn listen(&self) -> u32 {
        self.callers.fetch_add(1, Ordering::SeqCst);
        (self.rings.load(Ordering::SeqCst) & LOW) as u32
    }

    /// Sleeps where it has to, until the bed has one more ring than was heard, and counts the caller out. It may also
    /// return for no reason.
    pub fn sleep<R: Wait>(&self, rt: &R, heard: u32, has_to: bool) {
        if has_to {
            self.rings.park(rt, heard);
        }
        self.callers.fetch_sub(1, Ordering::SeqCst);
    }

    /// Wakes the callers here, if there are any.
    pub fn ring(&self) {
        if self.callers.load(Ordering::SeqCst) != 0 {
            self.rings.fetch_add(1, Ordering::SeqCst);
            self.rings.wake_all();
        }
    }
}

/// The beds of a lock.
#[derive(Drop)]
pub struct Beds {
    beds: Vec<Bed>,
    ghost all: { vec_len beds ≡ 64 },
}

fn with_all(beds: Vec<Bed>) -> Beds
    requires { vec_len beds ≡ 64 }
{
    Beds { beds }
}

impl Beds {
    /// Beds on which nobody sleeps.
    pub fn create(alloc: Global) -> Result<Beds, AllocError> {
        let mut beds = Vec::with_capacity(alloc, BEDS)?;
        for _made in 0..BEDS {
            beds.push_reserved(Bed::new());
        }
        Ok(with_all(beds))
    }

    /// The bed of a ticket.
    pub fn of(&self, ticket: u64) -> &Bed {
        &self.beds[ticket as usize % BEDS]
    }
}
