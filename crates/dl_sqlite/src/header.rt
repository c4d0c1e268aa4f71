//! What the header of a database's file says of why it isn't opened.

ghost use Rattle.std.specs.Prelude.{◌≤◌, length};

use crate::fault::DatabaseFault;
use sqlite_format::bytes::{get_u16, get_u32};

/// The length of the header.
const HEADER_BYTES: usize = 100;

/// The place of the size of a page, which is 65,536 if it says 1.
const PAGE_SIZE: usize = 16;

/// The place of the count of changes.
const CHANGES: usize = 24;

/// The place of the count of pages.
const PAGES: usize = 28;

/// The place of the greatest root page, which only a file with auto_vacuum has.
const GREATEST_ROOT: usize = 52;

/// The place of the encoding of texts, which is 1 for UTF-8.
const ENCODING: usize = 56;

/// The place of the count of changes for which the count of pages is right.
const PAGES_AT: usize = 92;

/// Why a file isn't opened, if its header says so.
pub(crate) fn header_fault(file: &[u8], log: &[u8]) -> Option<DatabaseFault> {
    if file.len() < HEADER_BYTES {
        return Some(cut_off(file, HEADER_BYTES as u64));
    }
    // With a log, the count in the file may be of pages that are still in the log.
    if log.is_empty() && get_u32(file, CHANGES) == get_u32(file, PAGES_AT) {
        let wanted = page_size(file).saturating_mul(u64::from(get_u32(file, PAGES)));
        if (file.len() as u64) < wanted {
            return Some(cut_off(file, wanted));
        }
    }
    if get_u32(file, GREATEST_ROOT) != 0 {
        return Some(DatabaseFault::Setting("auto_vacuum"));
    }
    if get_u32(file, ENCODING) > 1 {
        return Some(DatabaseFault::Setting("texts in UTF-16"));
    }
    None
}

/// The size of a page, in bytes.
fn page_size(file: &[u8]) -> u64
    requires { 100 ≤ length file.now }
{
    match get_u16(file, PAGE_SIZE) {
        1 => 65536,
        size => size as u64,
    }
}

fn cut_off(file: &[u8], wanted: u64) -> DatabaseFault {
    DatabaseFault::CutOff {
        found: file.len() as u64,
        wanted,
    }
}
