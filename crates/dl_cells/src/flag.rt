//! Flags that stay raised.

ghost use Rattle.std.specs.Prelude.{◌≡◌, IfSome};

use crate::segment::Cell;
use boxcar::slot::Written;
use boxcar::tag::Tag;
use std::marker::Model;

/// A flag that any thread may raise through a `&`, and that then stays raised. No call waits.
///
/// In clauses a flag is its name.
#[derive(Drop)]
pub struct Flag {
    cell: Cell<()>,
}

impl Model for Flag {
    ghost use Rattle.std.specs.Prelude.{ℕ};

    ghost Value = { ℕ };

    ghost view = { λ f. f.cell.id };
}

impl Flag {
    /// A flag that nobody has raised.
    pub fn new() -> Flag {
        Flag {
            cell: Cell::new(&Tag::empty()),
        }
    }

    /// Raises the flag, and gives you what shows that it is raised. Returns `None` only while another thread raises it.
    pub fn raise(&self) -> Option<Raised>
        ensures { IfSome result (λ raised. raised ≡ self.now) }
    {
        match self.cell.set_written(()) {
            Ok(shown) => Some(Raised { shown }),
            Err(()) => Some(Raised {
                shown: self.cell.witness()?,
            }),
        }
    }
}

/// What shows that a flag is raised. Only [`Flag::raise`] makes one, so if you have one, you know it for good.
///
/// In clauses it is the name of the flag. It takes no bytes, borrows nothing, and may go to another thread.
#[derive(Drop)]
pub struct Raised {
    shown: Written<()>,
}

impl Model for Raised {
    ghost use Rattle.std.specs.Prelude.{ℕ};

    ghost Value = { ℕ };

    ghost view = { λ r. r.shown.of };
}

impl Raised {
    /// The same once more, for another holder.
    pub fn again(&self) -> Raised
        ensures { result ≡ self.now }
    {
        Raised {
            shown: self.shown.again(),
        }
    }
}
