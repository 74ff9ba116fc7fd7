//! The keys of tables: what their hashes are made under.

use lola_value::text::Memory;
use std::hash::RandomState;
use std::io;
use std::random::RandomSource;

// Bytes that are the same at each call, in place of random ones.
#[derive(Clone, Copy)]
struct FixedBytes;

impl RandomSource for FixedBytes {
    fn fill_bytes(&self, buf: &mut [u8]) -> io::Result<()> {
        for byte in buf {
            *byte = 0x5A;
        }
        Ok(())
    }
}

/// Keys of random bytes, so that nobody can choose texts or parameters that collide. Where `source` has none to give, as where a program
/// may not ask the system for them, they are `fixed_keys`: then what is looked up may be slow, and no answer is another one.
pub fn random_keys(source: &impl RandomSource) -> Result<RandomState, Memory> {
    match RandomState::new(source) {
        Ok(keys) => Ok(keys),
        Err(_) => fixed_keys(),
    }
}

/// Keys that are always the same, for where there are no random bytes and for tests. They need neither memory nor the system; `Memory`
/// stands for the error that the library's call could have.
pub fn fixed_keys() -> Result<RandomState, Memory> {
    match RandomState::new(&FixedBytes) {
        Ok(keys) => Ok(keys),
        Err(_) => Err(Memory),
    }
}
