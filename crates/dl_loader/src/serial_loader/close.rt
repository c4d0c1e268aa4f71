//! The close of a serial loader.

ghost use Rattle.std.specs.Prelude.{◌≡◌, IfErr, IfOk, map};
ghost use Rattle.dl_history.specs.Accounts.{account_of};
ghost use Rattle.dl_history.specs.ClosedHistory.{IsHistory};
ghost use Rattle.dl_loader.specs.CloseRefusals.{RefusesClose};

use crate::loader::close::outlines;
use crate::serial_loader::SerialLoader;
use dl_history::{CloseFault, History, LoaderName};
use std::alloc::Global;

impl<L: LoaderName> SerialLoader<L> {
    /// Closes the loader. You get its history: one that a single-threaded data loader could have had over this loader's
    /// source, in which every batch has an end. The entries of each caller are its part. You can close a stopped loader
    /// too.
    ///
    /// # Errors
    /// The first cause of [`CloseFault`] that applies, with the loader as it was. `OutOfMemory` may come before any other.
    pub fn close(self, alloc: Global) -> Result<History, (CloseFault, SerialLoader<L>)>
        ensures closed { IfOk result (IsHistory L.service) }
        ensures events { IfOk result (λ h. h.events ≡ self.book.history) }
        ensures accounts { IfOk result (λ h. h.accounts ≡ map account_of self.traces) }
        ensures fault { IfErr result (λ e. RefusesClose L.service.callers self.book (map account_of self.traces) e.0) }
        ensures loader { IfErr result (λ e. e.1 ≡ self) }
    {
        let SerialLoader {
            callers,
            rows,
            mut book,
            mut passes,
            stopped,
        } = self;
        match outlines(alloc, &rows, callers, &mut book, &mut passes) {
            Ok(outlines) => {
                book.keeps();
                let (desk, journal) = book.into_parts();
                Ok(History::of(rows, desk, journal, outlines))
            }
            Err(fault) => Err((
                fault,
                SerialLoader {
                    callers,
                    rows,
                    book,
                    passes,
                    stopped,
                },
            )),
        }
    }
}
