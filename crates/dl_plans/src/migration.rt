//! Migrates a plan file over a reader and a writer.

ghost use Rattle.std.specs.Prelude.{◌≡◌, ◌≢◌, ◌+◌, IfOk, IfErr, IfSome, OnOk, string_bytes};
ghost use Rattle.std.specs.Io.KnownBytes.{Keeps};
ghost use Rattle.dl_documents.specs.Faults.{most_bytes};
ghost use Rattle.dl_migration.specs.Migration.{IsMigrated};
ghost use Rattle.dl_plans.specs.Migration.{IsNotMigrated};
ghost use Rattle.dl_plans.specs.Run.{Writes, WritesFront, ReadsAtMost};

use crate::fault::RunError;
use crate::streams::{read_all, write_all};
use dl_migration::{MigrateFault, Target, migrate};
use std::alloc::Global;
use std::hash::RandomState;
use std::io::{Read, Write};

/// Reads a plan file of an earlier version, makes all of its text in this one, as [`migrate`] gives it, and then writes
/// it. It reads by [`read_all`] and writes by [`write_all`]. `hashing` hashes tables, and nothing that you see depends on
/// it.
///
/// # Errors
/// `Read` if the reader fails, `Refused` if what it has is not a document, `NotVersion1` or `NotVersion1Or2` if it is a
/// script or a plan file of no earlier version, `OutOfMemory`, and `Write` if the writer fails. Only with `Write` may the
/// writer have got something: the beginning of the text.
pub fn run_migrate<R: Read, W: Write>(
    alloc: Global,
    hashing: RandomState,
    reader: &mut R,
    writer: &mut W,
    target: Target,
) -> Result<(), RunError>
    ensures ok { OnOk result (IfSome (R.remaining reader.old) (Writes (IsMigrated target) (W.contents writer.old) (W.contents writer.new))) }
    ensures refused { IfErr result (λ e. IfSome (R.remaining reader.old) (λ bytes. IsNotMigrated target bytes e)) }
    ensures write { result ≡ Err RunError.Write → IfSome (R.remaining reader.old) (WritesFront (IsMigrated target) (W.contents writer.old) (W.contents writer.new)) }
    ensures reads { ReadsAtMost (most_bytes + 1) (R.remaining reader.old) (R.remaining reader.new) }
    ensures untouched { IfErr result (λ e. e ≢ RunError.Write → Keeps (W.contents writer.old) (W.contents writer.new)) }
{
    let bytes = read_all(alloc, reader)?;
    let text = migrated(alloc, hashing, &bytes, target)?;
    write_all(writer, text.as_bytes())
}

/// The text of a plan file of an earlier version in this one.
fn migrated(
    alloc: Global,
    hashing: RandomState,
    bytes: &[u8],
    target: Target,
) -> Result<String, RunError>
    ensures ok { IfOk result (λ text. IsMigrated target bytes.now (string_bytes text)) }
    ensures err { IfErr result (IsNotMigrated target bytes.now) }
    ensures kept { IfErr result (λ e. e ≢ RunError.Write) }
{
    match migrate(alloc, hashing, bytes, target) {
        Ok(text) => Ok(text),
        Err(MigrateFault::Refused(fault)) => Err(RunError::Refused(fault)),
        Err(MigrateFault::NotVersion1) => Err(RunError::NotVersion1),
        Err(MigrateFault::NotVersion1Or2) => Err(RunError::NotVersion1Or2),
        Err(MigrateFault::OutOfMemory) => Err(RunError::OutOfMemory),
    }
}
