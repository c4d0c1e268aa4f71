//! Lists that several places share.

ghost use Rattle.std.specs.Prelude.{◌≡◌, IfOk};

use crate::job::Job;
use std::alloc::{AllocError, Global};
use std::fmt;
use std::marker::Model;
use std::sync::Arc;

/// A list that never changes and that several places share, such as the keys of a job. A copy costs one atomic step.
/// Contracts see the list.
pub struct List<T> {
    items: Arc<Vec<T>>,
}

impl<T: Drop> Drop for List<T> {
    fn drop(self) {
        let List { items } = self;
        drop(items);
    }
}

impl<T> Model for List<T> {
    ghost use Rattle.std.specs.Prelude.{List};
    ghost use Rattle.std.specs.Arc.{arc_value};
    ghost use Rattle.std.specs.Coded.{coded_list};

    ghost Value = { List T };

    ghost coded = { coded_list T.code };

    ghost view = { λ l. (arc_value l.items).items };
}

impl<T: Drop> List<T> {
    /// Moves the items into a list that you can share.
    ///
    /// # Errors
    /// `AllocError` if memory runs out.
    pub fn new(alloc: Global, items: Vec<T>) -> Result<List<T>, AllocError>
        ensures { IfOk result (λ list. list ≡ items.items) }
    {
        let items = Arc::new(alloc, items)?;
        Ok(List { items })
    }

    /// The same list, shared.
    ///
    /// # Errors
    /// `AllocError` if the reference count would overflow.
    pub fn try_copy(&self) -> Result<List<T>, AllocError>
        ensures { IfOk result (λ list. list ≡ self.now) }
    {
        let items = Arc::try_clone(&self.items)?;
        Ok(List { items })
    }
}

impl<T> List<T> {
    /// The items, in order.
    pub fn as_slice(&self) -> &[T]
        ensures { result.now ≡ self.now }
    {
        self.items.as_slice()
    }
}

impl<T: fmt::Debug> fmt::Debug for List<T> {
    fn fmt<W: fmt::Write>(&self, f: &mut fmt::Formatter<W>) -> fmt::Result {
        write!(f, "{:?}", self.as_slice())
    }
}

/// The items in brackets, with commas between them.
impl<T: fmt::Display> fmt::Display for List<T> {
    fn fmt<W: fmt::Write>(&self, f: &mut fmt::Formatter<W>) -> fmt::Result {
        f.write_str("[")?;
        let mut before = "";
        for item in self.as_slice() {
            write!(f, "{before}{item}")?;
            before = ", ";
        }
        f.write_str("]")
    }
}

impl List<Job> {
    /// Copies of the jobs, which share their keys with them.
    ///
    /// # Errors
    /// `AllocError` if memory runs out, or if a reference count would overflow.
    pub fn copy_of(alloc: Global, jobs: &[Job]) -> Result<List<Job>, AllocError>
        ensures { IfOk result (λ copies. copies ≡ jobs.now) }
    {
        let mut copies = Vec::with_capacity(alloc, jobs.len())?;
        for job in jobs {
            copies.push_reserved(job.try_copy()?);
        }
        List::new(alloc, copies)
    }
}
