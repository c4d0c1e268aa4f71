//! Opening a desk, whose batches may mix tables or not, and closing it.

ghost use Rattle.std.specs.Prelude.{◌≡◌, ◌<◌, true, false};
ghost use Rattle.dl_c.specs.Handles.{OnClosed};
ghost use Rattle.dl_c.specs.Lives.{AnswersOpen, AnswersByTable, limits_of};

use crate::handle::{Handle, take};
use crate::kept_desk::KeptDesk;
use dl_c_values::codes::{BAD_LIMIT, CLOSED, DONE, OPEN, OUT_OF_MEMORY};
use dl_c_values::seed::hashing;
use dl_c_values::tables::{NamedLimit, limits_of_tables};
use dl_desk::{Desk, LARGEST_LIMIT, Limits};
use std::alloc::Global;

/// What you open a desk by table with: the limits and the seed, as in [`dl_desk_open`].
#[repr(C)]
#[derive(Clone, Copy, Debug, PartialEq, Eq)]
pub struct Opening {
    pub max_batch: u32,
    pub max_cells: u32,
    pub seed_low: u64,
    pub seed_high: u64,
}

/// Opens a desk, whose batches have at most `max_batch` keys and which begins at most `max_cells` cells, each 1 to
/// 65,536. Begin with a handle of all zeros. The seed is two random numbers, by which the desk hashes keys, so that
/// nobody can make keys whose hashes meet.
///
/// Codes: `DONE`; `OPEN`, `BAD_LIMIT`, `OUT_OF_MEMORY`, each of which leaves the handle as it was.
#[unsafe(no_mangle)]
pub extern "C" fn dl_desk_open(
    alloc: Global,
    handle: &mut Handle,
    max_batch: u32,
    max_cells: u32,
    seed_low: u64,
    seed_high: u64,
) -> u32
    ensures opens { AnswersOpen (limits_of max_batch max_cells) result handle.old handle.new }
{
    if handle.is_open {
        return OPEN;
    }
    let Ok(limits) = Limits::new(max_batch, max_cells, LARGEST_LIMIT) else {
        return BAD_LIMIT;
    };
    let Ok(hashing) = hashing(seed_low, seed_high) else {
        return OUT_OF_MEMORY;
    };
    keep(alloc, handle, Desk::new(alloc, hashing, limits))
}

/// Opens a desk as [`dl_desk_open`] does, with keys of one table in each batch. `names` has the names of the tables
/// that have a limit of their own, one after another with nothing between them, in the order of `tables`. A batch of
/// another table has at most `max_batch` keys.
///
/// Codes: `DONE`; `OPEN`, `BAD_LIMIT`, `BAD_LENGTHS`, `BAD_TEXT`, `EMPTY_TABLE`, `TABLE_TOO_LONG`, `BAD_TABLE_LIMIT`,
/// `DUPLICATE_TABLE`, `OUT_OF_MEMORY`, each of which leaves the handle as it was. From `EMPTY_TABLE` on, you get the
/// first one that applies to any table.
#[unsafe(no_mangle)]
pub extern "C" fn dl_desk_open_by_table(
    alloc: Global,
    handle: &mut Handle,
    opening: &Opening,
    names: &[u8],
    tables: &[NamedLimit],
) -> u32
    ensures opens { AnswersByTable (limits_of opening.now.max_batch opening.now.max_cells) names.now tables.now result handle.old handle.new }
{
    if handle.is_open {
        return OPEN;
    }
    let Ok(limits) = Limits::new(opening.max_batch, opening.max_cells, LARGEST_LIMIT) else {
        return BAD_LIMIT;
    };
    let Ok(hashing) = hashing(opening.seed_low, opening.seed_high) else {
        return OUT_OF_MEMORY;
    };
    match limits_of_tables(alloc, names, tables) {
        Ok(tables) => keep(
            alloc,
            handle,
            Desk::by_table(alloc, hashing, limits, tables),
        ),
        Err(code) => code,
    }
}

/// Keeps a desk in a closed handle, and answers a code.
fn keep(alloc: Global, handle: &mut Handle, desk: Desk) -> u32
    requires { handle.old.is_open ≡ false }
    ensures kept { result ≡ DONE → (handle.new.is_open ≡ true) × (handle.new.held.kept.desk ≡ desk) }
    ensures refused { DONE < result → (result ≡ OUT_OF_MEMORY) × (handle.new ≡ handle.old) }
{
    let Ok(kept) = Box::new(alloc, KeptDesk { desk, spare: None }) else {
        return OUT_OF_MEMORY;
    };
    *handle = Handle::opened(kept);
    DONE
}

/// Closes a desk, and gives its memory back.
///
/// Codes: `DONE`; `CLOSED`.
#[unsafe(no_mangle)]
pub extern "C" fn dl_desk_close(alloc: Global, handle: &mut Handle) -> u32
    ensures closed { OnClosed handle.old handle.new (result ≡ CLOSED) }
    ensures close { handle.old.is_open ≡ true → (result ≡ DONE) × (handle.new.is_open ≡ false) }
{
    let Some(kept) = take(alloc, handle) else {
        return CLOSED;
    };
    drop(kept);
    DONE
}
