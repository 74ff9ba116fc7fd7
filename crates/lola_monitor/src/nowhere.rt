//! A sink for lines that nobody reads.

use lola_port::{PutEnd, Sink};

/// Where lines go that nobody reads: nowhere. No put fails.
#[derive(Drop)]
pub struct Nowhere;

impl Sink for Nowhere {
    ghost use Rattle.std.specs.Prelude.{None};

    ghost state = { λ _. record { written = None; count = 0 } };

    fn put(&mut self, _bytes: &[u8]) -> Result<(), PutEnd> {
        Ok(())
    }
}
