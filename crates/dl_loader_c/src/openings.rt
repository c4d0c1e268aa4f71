//! Opening a loader, whose batches may mix tables or not.

ghost use Rattle.std.specs.Prelude.{◌≡◌, ◌<◌, false, None, IfErr, IfOk};
ghost use Rattle.dl_values.specs.Answering.{function};
ghost use Rattle.dl_values.specs.Limits.{mixed};
ghost use Rattle.dl_loader.specs.HostSource.{answer_of};
ghost use Rattle.dl_loader.specs.Opening.{Names};
ghost use Rattle.dl_c_values.specs.declared.codes.TheConstants.{DONE};
ghost use Rattle.dl_loader_c.specs.Lives.{AnswersOpen, AreNew, AreRulesOf, IsByTableFault, IsNew, IsOpenFault, limits_of};
ghost use Rattle.dl_loader_c.specs.Named.{IsHosted, named_by};

use crate::codes::start_code;
use crate::handle::{Handle, HeldOf};
use crate::kept::Kept;
use dl_c_values::box_parts::BoxParts;
use dl_c_values::codes::{BAD_LIMIT, DONE, OPEN, OUT_OF_MEMORY};
use dl_c_values::seed::hashing;
use dl_c_values::tables::{NamedLimit, limits_of_tables};
use dl_desk::Limits;
use dl_loader::{HostSource, LoaderName, Opening, SerialLoader};
use std::alloc::Global;
use std::marker::Brand;

/// What you open a loader with: its limits, its number of callers, and two random numbers, by which the loader hashes
/// keys, so that nobody can make keys whose hashes meet.
#[repr(C)]
#[derive(Clone, Copy, Debug, PartialEq, Eq)]
pub struct SerialOpening {
    pub max_batch: u32,
    pub max_cells: u32,
    pub max_calls: u32,
    pub callers: u32,
    pub seed_low: u64,
    pub seed_high: u64,
}

/// Opens a loader, whose batches have at most `max_batch` keys, which begins at most `max_cells` cells, and whose history
/// has at most `max_calls` events, each 1 to 65,536. It has 1 to 32 callers. Begin with a handle of all zeros.
///
/// Codes: `DONE`; `OPEN`, `BAD_LIMIT`, `BAD_CALLERS`, `OUT_OF_MEMORY`, each of which leaves the handle as it was.
#[unsafe(no_mangle)]
pub extern "C" fn dl_serial_open(alloc: Global, handle: &mut Handle, opening: &SerialOpening) -> u32
    ensures opens { AnswersOpen opening.now.callers (λ rules. rules ≡ mixed (limits_of opening.now)) (IsOpenFault opening.now) result handle.old handle.new }
{
    if handle.is_open {
        return OPEN;
    }
    let Ok(limits) = Limits::new(opening.max_batch, opening.max_cells, opening.max_calls) else {
        return BAD_LIMIT;
    };
    let Ok(hashing) = hashing(opening.seed_low, opening.seed_high) else {
        return OUT_OF_MEMORY;
    };
    match Opening::new(alloc, hashing, &HostSource, limits, opening.callers) {
        Ok(opening) => keep(alloc, handle, opening),
        Err(fault) => start_code(fault),
    }
}

/// Opens a loader as [`dl_serial_open`] does, with keys of one table in each batch. `names` has the names of the tables
/// that have a limit of their own, one after another with nothing between them, in the order of `tables`. A batch of
/// another table has at most `max_batch` keys.
///
/// Codes: `DONE`; `OPEN`, `BAD_LIMIT`, `BAD_LENGTHS`, `BAD_TEXT`, `EMPTY_TABLE`, `TABLE_TOO_LONG`, `BAD_TABLE_LIMIT`,
/// `DUPLICATE_TABLE`, `BAD_CALLERS`, `OUT_OF_MEMORY`, each of which leaves the handle as it was. From `EMPTY_TABLE` on, you
/// get the first one that applies to any table.
#[unsafe(no_mangle)]
pub extern "C" fn dl_serial_open_by_table(
    alloc: Global,
    handle: &mut Handle,
    opening: &SerialOpening,
    names: &[u8],
    tables: &[NamedLimit],
) -> u32
    ensures opens { AnswersOpen opening.now.callers (AreRulesOf (limits_of opening.now) names.now tables.now)
        (IsByTableFault opening.now names.now tables.now) result handle.old handle.new }
{
    if handle.is_open {
        return OPEN;
    }
    let Ok(limits) = Limits::new(opening.max_batch, opening.max_cells, opening.max_calls) else {
        return BAD_LIMIT;
    };
    let Ok(hashing) = hashing(opening.seed_low, opening.seed_high) else {
        return OUT_OF_MEMORY;
    };
    let tables = match limits_of_tables(alloc, names, tables) {
        Ok(tables) => tables,
        Err(code) => return code,
    };
    match Opening::by_table(alloc, hashing, &HostSource, limits, tables, opening.callers) {
        Ok(opening) => keep(alloc, handle, opening),
        Err(fault) => start_code(fault),
    }
}

/// Keeps the loader of an opening in a closed handle, and answers a code.
fn keep(alloc: Global, handle: &mut Handle, opening: Opening<'_, HostSource>) -> u32
    requires { handle.old.is_open ≡ false }
    ensures kept { result ≡ DONE → IsNew opening.entry.callers (λ rules. rules ≡ opening.entry.rules) handle.new }
    ensures refused { DONE < result → (result ≡ OUT_OF_MEMORY) × (handle.new ≡ handle.old) }
{
    match start::<Brand>(alloc, opening) {
        Ok(held) => {
            handle.open(held);
            DONE
        }
        Err(code) => code,
    }
}

fn start<L: LoaderName>(alloc: Global, opening: Opening<'_, HostSource>) -> Result<HeldOf<L>, u32>
    requires names { Names (function answer_of) opening L.service L.parts L.cells L.name }
    requires hosted { IsHosted L.service L.parts }
    ensures name { IfOk result (λ held. held.name ≡ named_by L.cells L.service L.name) }
    ensures new { IfOk result (λ held. AreNew L.service.callers held.kept) }
    ensures refused { IfErr result (λ code. code ≡ OUT_OF_MEMORY) }
{
    let loader = match SerialLoader::<L>::start(alloc, opening) {
        Ok(loader) => loader,
        Err(fault) => return Err(start_code(fault)),
    };
    let kept = Kept {
        loader: Some(loader),
        history: None,
        spare: None,
    };
    match Box::new(alloc, kept) {
        Ok(kept) => Ok(HeldOf::<L>::hold(BoxParts::of(kept))),
        Err(_) => Err(OUT_OF_MEMORY),
    }
}
