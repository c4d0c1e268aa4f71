//! The flags of a loader, and what its parts know of them.

ghost use Rattle.std.specs.Prelude.{◌≡◌, true, false};
ghost use Rattle.dl_history.specs.Flags.{known_flags};

use crate::cell_rows::CellRows;
use crate::name::LoaderName;
use dl_cells::{Flag, Raised};
use std::marker::{Model, PhantomData};
use std::sync::Wait;

/// The flags of a loader: one goes up when somebody stops it, and one when a cell refuses its outcome. Once a flag is
/// up, it stays up.
#[derive(Drop)]
pub struct Flags {
    pub(crate) stop: Flag,
    pub(crate) refusal: Flag,
}

impl Flags {
    /// Flags that nobody has raised yet.
    pub fn new() -> Flags {
        Flags {
            stop: Flag::new(),
            refusal: Flag::new(),
        }
    }
}

/// What one holder knows of the flags of a loader: whether it is stopped, and whether a cell refused its outcome. It
/// never forgets, and nobody knows of a flag that is down.
#[derive(Drop)]
pub struct KnownFlags<L: LoaderName> {
    stop: Option<Raised>,
    refusal: Option<Raised>,
    of: PhantomData<L>,
}

impl<L: LoaderName> Model for KnownFlags<L> {
    ghost use Rattle.std.specs.Prelude.{◌≡◌, IfSome, is_some};
    ghost use Rattle.dl_history.specs.Flags.{KnownFlags, known_flags};

    ghost Value = { KnownFlags };

    ghost view = { λ f. known_flags (is_some f.stop) (is_some f.refusal) };

    ghost invariant = { λ f. (IfSome f.stop (λ raised. raised ≡ L.cells.flags.stop)) × (IfSome f.refusal (λ raised. raised ≡ L.cells.flags.refusal)) };
}

impl<L: LoaderName> KnownFlags<L> {
    /// It knows of no flag.
    pub fn none() -> KnownFlags<L>
        ensures { result ≡ known_flags false false }
    {
        KnownFlags {
            stop: None,
            refusal: None,
            of: PhantomData,
        }
    }

    /// Whether it knows that the loader is stopped. `false` says nothing of the loader.
    pub fn is_stopped(&self) -> bool
        ensures { result ≡ self.now.stopped }
    {
        self.stop.is_some()
    }

    /// Stops the loader. You need its rows for that. It waits only while another thread raises the flag.
    pub fn stop(&mut self, rt: &impl Wait, rows: &CellRows<L>)
        ensures { self.new ≡ known_flags true self.old.refused }
    {
        let raised = raise(rt, rows.stop());
        self.stop = Some(raised);
    }

    /// Notes that a cell refused its outcome. You need the rows of the loader for that.
    pub fn refuse(&mut self, rt: &impl Wait, rows: &CellRows<L>)
        ensures { self.new ≡ known_flags self.old.stopped true }
    {
        let raised = raise(rt, rows.refusal());
        self.refusal = Some(raised);
    }

    /// Learns from another holder that the loader is stopped.
    pub fn learn_stop(&mut self, other: &KnownFlags<L>)
        requires { other.now.stopped ≡ true }
        ensures { self.new ≡ known_flags true self.old.refused }
    {
        self.stop = other.stop.as_ref().map(|raised| raised.again());
    }

    /// Learns from another holder that a cell refused its outcome.
    pub fn learn_refusal(&mut self, other: &KnownFlags<L>)
        requires { other.now.refused ≡ true }
        ensures { self.new ≡ known_flags self.old.stopped true }
    {
        self.refusal = other.refusal.as_ref().map(|raised| raised.again());
    }
}

/// Raises a flag. It waits only while another thread raises it.
fn raise(rt: &impl Wait, flag: &Flag) -> Raised
    ensures { result ≡ flag.now }
{
    for _ in rt.forever() {
        if let Some(raised) = flag.raise() {
            return raised;
        }
    }
    unreachable!()
}
