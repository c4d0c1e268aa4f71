//! What you open loaders with, and what the library refuses their calls.

ghost use Rattle.std.specs.Prelude.{◌≡◌};

use super::hashing;
use super::step::Row;
use crate::Refusal;
use dl_desk::{Limits, TableLimit, TableLimits, Text};
use dl_loader::Opening;
use dl_source::Source;
use std::alloc::Global;
use std::hash::RandomState;
use std::process::Abort;
use std::random::RandomSource;

/// What you open loaders with, and what the library refuses their calls.
#[derive(Drop)]
pub(crate) struct Stage<'a, R> {
    pub(crate) rt: &'a R,
    pub(crate) alloc: Global,
    pub(crate) hashing: RandomState,
    pub(crate) refusal: &'a Refusal,
    /// If each batch has one table: a table whose batches have one key. With `None`, batches may mix tables.
    pub(crate) table: Option<&'static str>,
}

impl<'a, R: Abort + RandomSource> Stage<'a, R> {
    /// A stage of loaders whose batches may mix tables.
    pub(crate) fn new(rt: &'a R, alloc: Global, refusal: &'a Refusal) -> Stage<'a, R> {
        Stage {
            rt,
            alloc,
            hashing: hashing(rt),
            refusal,
            table: None,
        }
    }
}

impl<R: Abort> Stage<'_, R> {
    /// The opening of a row's loader over a source.
    pub(super) fn opening<'s, S: Source>(&self, source: &'s S, row: &Row) -> Opening<'s, S>
        ensures { result.source ≡ source.now }
    {
        let (max_batch, max_cells, max_calls) = row.limits;
        let limits = Limits::new(max_batch, max_cells, max_calls);
        let limits = limits.expect(self.rt, "no limits");
        let (alloc, hashing) = (self.alloc, self.hashing);
        match self.table {
            Some(table) => {
                let tables = self.limit_of_one(table);
                let opened = Opening::by_table(alloc, hashing, source, limits, tables, row.callers);
                opened.expect(self.rt, "no opening")
            }
            None => {
                let opened = Opening::new(alloc, hashing, source, limits, row.callers);
                opened.expect(self.rt, "no opening")
            }
        }
    }

    /// The limits by which batches of a table have one key.
    fn limit_of_one(&self, table: &str) -> TableLimits {
        let table = Text::new(self.alloc, table).expect(self.rt, "no text");
        let mut list = Vec::new(self.alloc);
        let pushed = list.push(TableLimit { table, limit: 1 });
        pushed.expect(self.rt, "no memory");
        TableLimits::new(self.alloc, list).expect(self.rt, "no limits")
    }
}
