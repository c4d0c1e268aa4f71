//! A source with no memory for one table.

use dl_source::{BatchAnswer, Source, Tables};
use dl_values::FetchKey;
use std::alloc::{AllocError, Global};

/// Tables that run out of memory for a list with a key of the table `shop`.
#[derive(Drop)]
pub struct NoRoom {
    tables: Tables,
}

impl NoRoom {
    /// These tables.
    pub fn new(tables: Tables) -> NoRoom {
        NoRoom { tables }
    }
}

impl Source for NoRoom {
    ghost use Rattle.dl_values.specs.Answering.{function};
    ghost use Rattle.dl_tests.specs.NoRoom.{answer_without_room, without_room_fits};

    ghost answer = { function answer_without_room };

    ghost fits = { without_room_fits };

    /// What the tables answer. Fails if a key is of the table `shop`.
    fn fetch(&self, alloc: Global, keys: &[FetchKey]) -> Result<BatchAnswer, AllocError> {
        if keys.iter().any(|key| key.table() == "shop") {
            return Err(AllocError);
        }
        self.tables.fetch(alloc, keys)
    }
}
