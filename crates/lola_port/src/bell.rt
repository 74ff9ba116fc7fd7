//! What somebody who waits for several sources sleeps on.

use lola_value::text::Memory;
use std::alloc::Global;
use std::sync::{Arc, Wait};
use std::thread::Parker;

/// A bell for one who waits, which any thread may ring. A ring that comes before the wait is kept, so none is lost; of several
/// such one is kept. A wait that ends says no more than that there was a ring since the one before.
#[derive(Drop)]
pub struct Bell {
    bed: Arc<Parker, Global>,
}

impl Bell {
    /// A bell that is silent so far.
    pub fn create(alloc: Global) -> Result<Bell, Memory> {
        Ok(Bell {
            bed: Arc::new(alloc, Parker::new())?,
        })
    }

    /// The same bell, for another who rings it.
    pub fn another(&self) -> Result<Bell, Memory> {
        Ok(Bell {
            bed: Arc::try_clone(&self.bed)?,
        })
    }

    /// Wakes the one who waits, or who waits next.
    pub fn ring(&self) {
        self.bed.unpark();
    }

    /// Waits until the bell rings. Only one may wait at a time.
    pub fn wait<R: Wait>(&self, rt: &R) {
        self.bed.park(rt);
    }
}
