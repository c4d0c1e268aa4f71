//! Reads documents from their bytes.

ghost use Rattle.std.specs.Prelude.{◌≡◌, ◌⊎◌, ◌≤◌, length, IfOk, IfErr, OnOk};
ghost use Rattle.serde_json.specs.Data.{Data};
ghost use Rattle.serde_json.specs.View.{view};
ghost use Rattle.dl_documents.specs.Document.{IsTextOf, Spells};
ghost use Rattle.dl_documents.specs.Faults.{Applies, AppliesTo, IsLeast, most_bytes};
ghost use Rattle.dl_documents.specs.OverDatabase.{over_database, read_as};
ghost use Rattle.dl_documents.specs.Inside.Results.{RefusedFor};
ghost use Rattle.dl_documents.specs.Inside.Top.{top_data, IsApart};

use crate::fault::PlanFault;
use crate::head::{is_script, read_head};
use crate::input::Input;
use crate::plan_files::plan_file;
use crate::scripts::script;
use crate::top::{Top, read_as, read_top};
use json::Scratch;
use std::alloc::Global;
use std::hash::RandomState;

/// The most bytes that a document may have.
pub const MOST_BYTES: usize = 1_048_576;

/// Reads a document: a call script or a plan file, in JSON. `hashing` hashes tables, and nothing that you see depends
/// on it.
///
/// # Errors
/// The first cause of [`PlanFault`] that applies anywhere in the document, in its order. `OutOfMemory` may come before
/// any other.
///
/// # Examples
/// The last plan of a file, if the text is a plan file, from `crates/dl_tests`:
///
/// ```rust
/// match read_input(alloc, hashing, file.as_bytes()) {
///     Ok(Input::Plans(mut file)) => file.plans.pop(),
///     Ok(Input::Script(_)) | Err(_) => None,
/// }
/// ```
pub fn read_input(alloc: Global, hashing: RandomState, bytes: &[u8]) -> Result<Input, PlanFault>
    ensures ok { IfOk result (λ i. (d : Data) × IsTextOf bytes.now d × Spells d i) }
    ensures passes { OnOk result ((f : PlanFault) → Applies bytes.now f → ⊥) }
    ensures err { IfErr result (λ f. (f ≡ PlanFault.OutOfMemory) ⊎ IsLeast (Applies bytes.now) f) }
{
    read(alloc, hashing, bytes, false)
}

/// Reads a document as [`read_input`] does, and gives you its tree too.
///
/// # Errors
/// Those of [`read_input`].
pub fn read_document(
    alloc: Global,
    hashing: RandomState,
    bytes: &[u8],
) -> Result<(serde_json::Value, Input), PlanFault>
    ensures ok { IfOk result (λ p. IsTextOf bytes.now (view p.0) × Spells (view p.0) p.1) }
    ensures passes { OnOk result ((f : PlanFault) → Applies bytes.now f → ⊥) }
    ensures err { IfErr result (λ f. (f ≡ PlanFault.OutOfMemory) ⊎ IsLeast (Applies bytes.now) f) }
{
    let input = read_input(alloc, hashing, bytes)?;
    let document = tree(alloc, bytes)?;
    Ok((document, input))
}

/// Reads a document as [`read_document`] does, if a database answers too: a plan file of version 2 may then lack the
/// member `tables`, and has no tables if it does. The tree that you get is that of the bytes all the same.
///
/// # Errors
/// Those of [`read_input`] for that: `Top` never says that such a file lacks tables.
pub fn read_over_database(
    alloc: Global,
    hashing: RandomState,
    bytes: &[u8],
) -> Result<(serde_json::Value, Input), PlanFault>
    ensures ok { IfOk result (λ p. IsTextOf bytes.now (view p.0) × Spells (over_database (view p.0)) p.1) }
    ensures passes { OnOk result ((f : PlanFault) → AppliesTo over_database bytes.now f → ⊥) }
    ensures err { IfErr result (λ f. (f ≡ PlanFault.OutOfMemory) ⊎ IsLeast (AppliesTo over_database bytes.now) f) }
{
    let input = read(alloc, hashing, bytes, true)?;
    let document = tree(alloc, bytes)?;
    Ok((document, input))
}

/// The tree of a document that was read from these bytes. Fails if memory runs out.
fn tree(alloc: Global, bytes: &[u8]) -> Result<serde_json::Value, PlanFault>
    requires { (d : Data) × IsTextOf bytes.now d }
    ensures ok { IfOk result (λ tree. IsTextOf bytes.now (view tree)) }
    ensures err { IfErr result (λ f. f ≡ PlanFault.OutOfMemory) }
{
    match serde_json::Value::from_slice(alloc, bytes) {
        Ok(tree) => Ok(tree),
        Err(error) if error.is_memory() => Err(PlanFault::OutOfMemory),
        Err(_) => Err(PlanFault::NotJson),
    }
}

/// Reads a document that a database answers too, or that none does.
fn read(
    alloc: Global,
    hashing: RandomState,
    bytes: &[u8],
    has_database: bool,
) -> Result<Input, PlanFault>
    ensures ok { IfOk result (λ i. (d : Data) × IsTextOf bytes.now d × Spells (read_as has_database d) i) }
    ensures passes { OnOk result ((f : PlanFault) → AppliesTo (read_as has_database) bytes.now f → ⊥) }
    ensures err { IfErr result (λ f. (f ≡ PlanFault.OutOfMemory) ⊎ IsLeast (AppliesTo (read_as has_database) bytes.now) f) }
{
    let mut scratch = Scratch::new(alloc);
    let top = top(alloc, bytes, &mut scratch)?;
    input(alloc, hashing, read_as(alloc, top, has_database))
}

/// The top of the document in these bytes.
fn top<'a>(alloc: Global, bytes: &'a [u8], scratch: &'a mut Scratch) -> Result<Top<'a>, PlanFault>
    ensures ok { IfOk result (λ t. IsTextOf bytes.now (top_data t)) }
    ensures apart { IfOk result IsApart }
    ensures few { OnOk result (length bytes.now ≤ most_bytes) }
    ensures err { IfErr result (λ f. (f ≡ PlanFault.OutOfMemory) ⊎ IsLeast (Applies bytes.now) f) }
    ensures over { IfErr result (λ f. (f ≡ PlanFault.OutOfMemory) ⊎ IsLeast (AppliesTo over_database bytes.now) f) }
{
    if bytes.len() > MOST_BYTES {
        return Err(PlanFault::TooLarge);
    }
    let Ok(text) = std::str::from_utf8(bytes) else {
        return Err(PlanFault::NotJson);
    };
    read_top(alloc, text, scratch)?.ok_or(PlanFault::Version)
}

/// What a document says. This takes the document apart, drops each part once it is read, and copies only what lives on.
fn input(alloc: Global, hashing: RandomState, top: Top<'_>) -> Result<Input, PlanFault>
    requires { IsApart top }
    ensures ok { IfOk result (Spells (top_data top.entry)) }
    ensures err { IfErr result (RefusedFor (top_data top.entry)) }
{
    let head = read_head(&top)?;
    if is_script(&top) {
        let script = script(alloc, hashing, top, head)?;
        Ok(Input::Script(script))
    } else {
        let plans = plan_file(alloc, hashing, top, head)?;
        Ok(Input::Plans(plans))
    }
}
