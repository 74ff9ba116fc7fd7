//! Keys of a table where there are no random bytes.

use lola_text::keys::{fixed_keys, random_keys};
use std::hash::BuildHasher;
use std::io;
use std::random::RandomSource;
use std::test::Fail;

// A source with no random bytes to give.
#[derive(Clone, Copy)]
struct NoBytes;

impl RandomSource for NoBytes {
    fn fill_bytes(&self, _buf: &mut [u8]) -> io::Result<()> {
        Err(io::Error::from(io::ErrorKind::Unsupported))
    }
}

#[test]
fn keys_without_random_bytes(rt: HostRuntime) -> Result<(), Fail> {
    let keys = random_keys(&NoBytes)?;
    let fixed = fixed_keys()?;
    assert!(rt; keys.hash_one(7_u64) == fixed.hash_one(7_u64));
    assert!(rt; random_keys(&rt)?.hash_one(7_u64) != fixed.hash_one(7_u64));
    Ok(())
}
