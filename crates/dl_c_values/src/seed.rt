//! The random numbers by which a loader hashes its keys.

use std::hash::RandomState;
use std::io;
use std::random::RandomSource;

/// Sixteen random bytes of your host, as a source of random bytes.
#[derive(Drop)]
struct Seed {
    bytes: [u8; 16],
}

impl RandomSource for Seed {
    fn fill_bytes(&self, buf: &mut [u8]) -> io::Result<()> {
        for (byte, random) in buf.iter_mut().zip(&self.bytes) {
            *byte = *random;
        }
        Ok(())
    }
}

/// Hashing by two random numbers. They have no effect on what a loader answers.
pub fn hashing(low: u64, high: u64) -> io::Result<RandomState> {
    let bytes = (low as u128 | (high as u128) << 64).to_le_bytes();
    RandomState::new(&Seed { bytes })
}
