//! Tables that yield, and count the questions to them.

use dl_source::{BatchAnswer, Source, Tables};
use dl_values::FetchKey;
use dl_workers::Gate;
use std::alloc::{AllocError, Global};
use std::sync::atomic::{AtomicU64, Ordering};
use std::thread::yield_now;

/// Tables, and a gate, that yield as a seed draws it. They count how many times a loader asks them for keys.
#[derive(Drop)]
pub(crate) struct Restless {
    tables: Tables,
    seed: u64,
    yields: AtomicU64,
    fetches: AtomicU64,
}

impl Restless {
    pub(crate) fn new(tables: Tables, seed: u64) -> Restless {
        Restless {
            tables,
            seed,
            yields: AtomicU64::new(0),
            fetches: AtomicU64::new(0),
        }
    }

    /// The number of times that a loader has asked for keys.
    pub(crate) fn fetches(&self) -> u64 {
        self.fetches.load(Ordering::SeqCst)
    }
}

/// What a seed draws.
pub(crate) trait Drawn {
    /// The number that the seed draws for a number.
    fn drawn(&self, number: u64) -> u64;

    /// Yields a few times, or not at all.
    fn rest(&self);
}

impl Drawn for Restless {
    fn drawn(&self, number: u64) -> u64 {
        let number = self.seed.wrapping_add(number);
        let first = number.wrapping_add(1).wrapping_mul(0x9e37_79b9_7f4a_7c15);
        let second = (first ^ (first >> 31)).wrapping_mul(0xbf58_476d_1ce4_e5b9);
        second >> 32
    }

    fn rest(&self) {
        let number = self.yields.fetch_add(1, Ordering::SeqCst);
        for _ in 0..self.drawn(number) % 8 {
            yield_now();
        }
    }
}

impl Source for Restless {
    ghost use Rattle.dl_values.specs.Answering.{function};
    ghost use Rattle.histories.specs.Restless.{answer_restless, restless_fits};

    ghost answer = { function answer_restless };

    ghost fits = { restless_fits };

    /// What the tables answer.
    fn fetch(&self, alloc: Global, keys: &[FetchKey]) -> Result<BatchAnswer, AllocError> {
        self.rest();
        self.fetches.fetch_add(1, Ordering::SeqCst);
        self.tables.fetch(alloc, keys)
    }
}

impl Gate for Restless {
    fn before_fetch(&self, _batch: u32) {
        self.rest();
    }

    fn after_settle(&self, _batch: u32) {
        self.rest();
    }
}
