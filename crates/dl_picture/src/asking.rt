//! What a term asks for: how many loads, and which of its parts wait.

ghost use Rattle.std.specs.Prelude.{◌≡◌, ◌+◌, OnOk};

use crate::loads::sum;
use dl_desk::FetchKey;
use dl_values::Text;
use std::alloc::{AllocError, Global};

/// What waits for a load.
#[derive(Clone, Copy)]
pub(crate) enum Loading<'t> {
    /// The load of a key.
    Load(&'t FetchKey),
    /// A follow of a field.
    Follow(&'t Text),
    /// An each over a field.
    Each(&'t Text),
}

/// What the parts of a term ask for that were evaluated so far.
#[derive(Drop)]
pub(crate) struct Asking<'t> {
    /// How many loads.
    pub(crate) loads: u64,
    /// The leftmost part that waits, if one does.
    pub(crate) first: Option<Loading<'t>>,
    /// In bodies, the places of the items around that part, or around the one at hand if none waits, the outermost first.
    pub(crate) places: Vec<usize>,
    /// How many other parts wait.
    pub(crate) others: u64,
}

impl<'t> Asking<'t> {
    /// Of no part yet.
    pub(crate) fn new(alloc: Global) -> Asking<'t>
        ensures { result.loads ≡ 0 }
    {
        Asking {
            loads: 0,
            first: None,
            places: Vec::new(alloc),
            others: 0,
        }
    }

    /// With one load more. Fails if no number holds the loads.
    pub(crate) fn load(&mut self) -> Result<(), AllocError>
        ensures { OnOk result (self.new.loads ≡ self.old.loads + 1) }
    {
        self.loads = sum(self.loads, 1)?;
        Ok(())
    }

    /// With one part more that waits.
    pub(crate) fn wait(&mut self, part: Loading<'t>)
        ensures { self.new.loads ≡ self.old.loads }
    {
        match self.first {
            None => self.first = Some(part),
            Some(_) => self.others = self.others.saturating_add(1),
        }
    }

    /// Goes into a body, for the item at this place. Fails if memory runs out.
    pub(crate) fn enter(&mut self, place: usize) -> Result<(), AllocError>
        ensures { OnOk result (self.new.loads ≡ self.old.loads) }
    {
        if self.first.is_none() {
            self.places.push(place)?;
        }
        Ok(())
    }

    /// Leaves the body. What waits in it keeps its places.
    pub(crate) fn leave(&mut self)
        ensures { self.new.loads ≡ self.old.loads }
    {
        if self.first.is_none() {
            self.places.pop();
        }
    }
}
