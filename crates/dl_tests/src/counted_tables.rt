//! A source that counts the questions to it.

use dl_source::{BatchAnswer, Source, Tables};
use dl_values::FetchKey;
use std::alloc::{AllocError, Global};
use std::sync::atomic::{AtomicU32, Ordering};

/// Tables that count the questions to them.
#[derive(Drop)]
pub struct CountedTables {
    tables: Tables,
    fetches: AtomicU32,
}

impl CountedTables {
    /// The tables, with no questions so far.
    pub fn new(tables: Tables) -> CountedTables {
        CountedTables {
            tables,
            fetches: AtomicU32::new(0),
        }
    }

    /// The number of questions so far.
    pub fn fetches(&self) -> u32 {
        self.fetches.load(Ordering::Relaxed)
    }
}

impl Source for CountedTables {
    ghost use Rattle.dl_values.specs.Answering.{function};
    ghost use Rattle.dl_tests.specs.CountedTables.{answer_counted, counted_fits};

    ghost answer = { function answer_counted };

    ghost fits = { counted_fits };

    /// What the tables answer.
    fn fetch(&self, alloc: Global, keys: &[FetchKey]) -> Result<BatchAnswer, AllocError> {
        self.fetches.fetch_add(1, Ordering::Relaxed);
        self.tables.fetch(alloc, keys)
    }
}
