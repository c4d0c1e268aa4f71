//! Outlines: what passes leave when you close their loader.

ghost use Rattle.std.specs.Prelude.{◌≡◌, IfOk, map};
ghost use Rattle.dl_history.specs.ClosedHistory.{outline};
ghost use Rattle.dl_history.specs.Entries.{kind_of};

use crate::entry::{Entry, EntryKind};
use crate::name::LoaderName;
use std::alloc::{AllocError, Global};
use std::marker::Model;

/// A caller, and what the entries of its pass are, in order. What they speak of is in the history, so an outline names
/// no loader.
#[derive(Drop)]
pub struct Outline {
    caller: u32,
    entries: Vec<EntryKind>,
}

impl Model for Outline {
    ghost use Rattle.std.specs.Coded.{codes};
    ghost use Rattle.dl_history.specs.ClosedHistory.{Outline, outline};
    ghost use Rattle.dl_history.specs.contracts.entry.EntryKind as kind;

    ghost Value = { Outline };

    ghost coded = { Prim.hlevel (codes, kind.the_row.coded) };

    ghost view = { λ a. outline a.caller a.entries.items };
}

impl Outline {
    /// The outline of a caller with these entries. Fails if memory runs out.
    pub(crate) fn of<L: LoaderName>(
        alloc: Global,
        caller: u32,
        entries: &[Entry<L>],
    ) -> Result<Outline, AllocError>
        ensures { IfOk result (λ made. made ≡ outline caller (map kind_of entries.now)) }
    {
        let mut kinds = Vec::with_capacity(alloc, entries.len())?;
        for entry in entries {
            kinds.push_reserved(entry.kind());
        }
        Ok(Outline {
            caller,
            entries: kinds,
        })
    }

    /// The caller.
    pub fn caller(&self) -> u32
        ensures { result ≡ self.now.caller }
    {
        self.caller
    }

    /// What the entries are, in order.
    pub fn entries(&self) -> &[EntryKind]
        ensures { result.now ≡ self.now.kinds }
    {
        self.entries.as_slice()
    }
}
