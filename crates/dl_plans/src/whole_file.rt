//! Files that are written as a whole.

ghost use Rattle.std.specs.Prelude.{◌≡◌, ◌⊎◌, IfErr};

use crate::fault::RunError;
use crate::streams::write_all;
use std::alloc::Global;
use std::fs;
use std::fs::{File, OpenFile};
use std::io::{ErrorKind, Write};
use std::random::RandomSource;
use std::rt::Files;

/// Writes a text to a file, as a whole or not at all: to a new file in the same folder, which then takes the name,
/// even from an older file.
///
/// # Errors
/// `Write` if the file can't be written, or if a folder, a link or a device has its name; `OutOfMemory`.
pub(crate) fn write_whole<R: Files + RandomSource>(
    rt: &R,
    alloc: Global,
    file: &str,
    text: &str,
) -> Result<(), RunError>
    ensures { IfErr result (λ e. (e ≡ RunError.Write) ⊎ (e ≡ RunError.OutOfMemory)) }
{
    if !is_free(rt, file) {
        return Err(RunError::Write);
    }
    let part = part_name(rt, alloc, file)?;
    match File::create_new(rt, part.as_str()) {
        Ok(new) => fill(rt, new, part.as_str(), file, text),
        Err(_) => Err(RunError::Write),
    }
}

/// Whether nothing but a file has this name.
fn is_free<R: Files>(rt: &R, file: &str) -> bool {
    match fs::symlink_metadata(rt, file) {
        Ok(found) => found.is_file(),
        Err(error) => error.kind() == ErrorKind::NotFound,
    }
}

/// A name in the folder of the file that is new: the file's name, and a random number.
fn part_name<R: RandomSource>(rt: &R, alloc: Global, file: &str) -> Result<String, RunError>
    ensures { IfErr result (λ e. (e ≡ RunError.Write) ⊎ (e ≡ RunError.OutOfMemory)) }
{
    let mut number = [0; 8];
    if rt.fill_bytes(&mut number).is_err() {
        return Err(RunError::Write);
    }
    let number = u64::from_le_bytes(number);
    match format!(in alloc; "{file}.{number}") {
        Ok(name) => Ok(name),
        Err(_) => Err(RunError::OutOfMemory),
    }
}

/// Writes the text to the new file and gives that its name, or removes it.
fn fill<R: Files>(
    rt: &R,
    mut new: R::File,
    part: &str,
    file: &str,
    text: &str,
) -> Result<(), RunError>
    ensures { IfErr result (λ e. e ≡ RunError.Write) }
{
    if write_all(&mut new, text.as_bytes()).is_ok()
        && new.sync_all().is_ok()
        && fs::rename(rt, part, file).is_ok()
    {
        return Ok(());
    }
    // If this fails too, the file stays.
    let _ = fs::remove_file(rt, part);
    Err(RunError::Write)
}
