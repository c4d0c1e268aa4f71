//! The status with which the program ends.

ghost use Rattle.std.specs.Prelude.{◌≡◌};
ghost use Rattle.std.specs.IoError.{error_kind};
ghost use Rattle.clap.specs.Words.{kind_of};
ghost use Rattle.dl_plans.specs.Status.{run_status, command_status, words_status};

use crate::fault::RunError;
use clap::error::ErrorKind;
use std::io;

/// The status of a run that succeeds, and of a request for help.
pub(crate) const RAN: u8 = 0;

/// The status for a document or a history that is refused, or a document that doesn't have the version it must have.
const REFUSED: u8 = 1;

/// The status for a command line that is refused.
const USAGE: u8 = 2;

/// The status of any other failure.
pub(crate) const FAILED: u8 = 3;

impl RunError {
    /// The status that the program ends with after such a run: 1 if the document or the file of a history is refused, or
    /// the document must be of an earlier version to migrate and isn't; else 3.
    pub fn status(&self) -> u8
        ensures { result ≡ run_status self.now }
    {
        match self {
            RunError::Refused(_) | RunError::NotVersion1 | RunError::NotVersion1Or2 => REFUSED,
            RunError::NoHistory(_) => REFUSED,
            RunError::Read | RunError::Run(_) | RunError::Write | RunError::OutOfMemory => FAILED,
        }
    }
}

/// The status for words that give no options: 0 if they ask for help, 3 if memory ran out, and else 2.
pub(crate) fn command_status(error: &clap::Error) -> u8
    ensures { result ≡ command_status (kind_of error.now) }
{
    match error.kind() {
        ErrorKind::DisplayHelp | ErrorKind::DisplayVersion => RAN,
        ErrorKind::OutOfMemory => FAILED,
        _ => USAGE,
    }
}

/// The status for a command line that can't be read: 3 if memory ran out, and else 2.
pub(crate) fn words_status(error: &io::Error) -> u8
    ensures { result ≡ words_status (error_kind error.now) }
{
    match error.kind() {
        io::ErrorKind::OutOfMemory => FAILED,
        _ => USAGE,
    }
}
