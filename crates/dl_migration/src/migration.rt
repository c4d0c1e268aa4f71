//! Migrates the bytes of a document.

ghost use Rattle.std.specs.Prelude.{◌≡◌, ◌≤◌, ◌↔◌, IfOk, IfErr, OnOk, IsSome, IsTrue, Some, false, string_bytes};
ghost use Rattle.serde_json.specs.Data.{depth};
ghost use Rattle.serde_json.specs.Find.{as_object};
ghost use Rattle.serde_json.specs.Read.{read, max_depth};
ghost use Rattle.serde_json.specs.View.{view};
ghost use Rattle.serde_json.specs.Written.{compact_text, has_float};
ghost use Rattle.dl_migration.specs.Migrated.{migrated, number_of};
ghost use Rattle.dl_migration.specs.Migration.{IsEarlier, IsMigrated, IsUnmigrated, version_in};

use crate::fault::MigrateFault;
use crate::target::Target;
use dl_documents::{Input, read_document};
use serde_json::Value;
use std::alloc::{AllocError, Global};
use std::hash::RandomState;

/// Writes a plan file of an earlier version in this one. You get compact JSON without a line feed: the same tree, but
/// its member `version` is the new number. It reads the bytes as [`read_input`](dl_documents::read_input) does, and that
/// reads the text too, unless it is too large for a document. `hashing` hashes tables, and nothing that you see depends
/// on it.
///
/// # Errors
/// `Refused` with the cause for which `read_input` refuses the bytes, `NotVersion1` or `NotVersion1Or2` if they are a
/// script or a plan file of the target's version or a later one, and `OutOfMemory`.
pub fn migrate(
    alloc: Global,
    hashing: RandomState,
    bytes: &[u8],
    target: Target,
) -> Result<String, MigrateFault>
    ensures ok { IfOk result (λ text. IsMigrated target bytes.now (string_bytes text)) }
    ensures err { IfErr result (IsUnmigrated target bytes.now) }
{
    let (mut document, said) = read_document(alloc, hashing, bytes)?;
    if !is_earlier(&document, said, target) {
        return Err(MigrateFault::late(target));
    }
    let text = migrated_text(alloc, &mut document, target)?;
    Ok(text)
}

/// Whether the document is a plan file of an earlier version.
fn is_earlier(document: &Value, said: Input, target: Target) -> bool
    ensures { IsTrue result ↔ IsEarlier target (view document.now) said }
{
    match said {
        Input::Plans(_) => match version_in(document) {
            Some(number) => number < target.number(),
            None => false,
        },
        Input::Script(_) => false,
    }
}

/// The number in the member `version`.
fn version_in(document: &Value) -> Option<u64>
    ensures { result ≡ version_in (view document.now) }
{
    match document.get("version") {
        Some(version) => version.as_u64(),
        None => None,
    }
}

/// The text of a document in this version.
fn migrated_text(alloc: Global, document: &mut Value, target: Target) -> Result<String, AllocError>
    requires { IsSome (as_object (view document.old)) }
    ensures text { IfOk result (λ s. has_float (migrated (number_of target) (view document.old)) ≡ false
        → string_bytes s ≡ compact_text (migrated (number_of target) (view document.old))) }
    ensures again { IfOk result (λ s. depth (migrated (number_of target) (view document.old)) ≤ max_depth
        → read (string_bytes s) ≡ Some (migrated (number_of target) (view document.old))) }
{
    with_version(alloc, document, target)?;
    Value::to_string(document, alloc)
}

/// Gives a document this version. Fails if memory runs out.
fn with_version(alloc: Global, document: &mut Value, target: Target) -> Result<(), AllocError>
    requires { IsSome (as_object (view document.old)) }
    ensures { OnOk result (view document.new ≡ migrated (number_of target) (view document.old)) }
{
    if let Some(members) = document.as_object_mut() {
        let name = String::from_str(alloc, "version")?;
        members.insert(name, Value::from(target.number()))?;
    }
    Ok(())
}
