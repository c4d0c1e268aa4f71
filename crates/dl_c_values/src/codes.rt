//! The codes of answers, as `c/dl_desk.h` and `c/dl_types.h` number them.

ghost use Rattle.std.specs.Prelude.{◌≡◌, ◌<◌};
ghost use Rattle.dl_c_values.specs.Codes.{table_code_of};

use dl_desk::TableLimitFault;

/// The loader made the call, and has nothing else to answer.
pub const DONE: u32 = 0;

/// A load or a look-up found a cell; for a prime, the loader holds the key.
pub const HIT: u32 = 0;

/// A load or a prime began a cell; a look-up found none.
pub const FRESH: u32 = 1;

/// The cell has not ended.
pub const NONE: u32 = 1;

/// Memory ran out.
pub const OUT_OF_MEMORY: u32 = 2;

/// The call needs more cells than the limit leaves.
pub const CELLS_FULL: u32 = 3;

/// No batch has this number yet.
pub const NO_BATCH: u32 = 4;

/// The batch has not gone out: it still collects keys.
pub const NOT_SENT: u32 = 5;

/// The batch has already ended, settled or failed.
pub const ENDED_BEFORE: u32 = 6;

/// The two texts aren't a key: each must be UTF-8, a table 1 to 64 bytes, and an id 1 to 256.
pub const BAD_KEY: u32 = 7;

/// A limit isn't 1 to 65,536.
pub const BAD_LIMIT: u32 = 8;

/// The handle has no loader, or one that is closed.
pub const CLOSED: u32 = 9;

/// The handle has a loader or its history: free it first. For a look at the history: its loader isn't closed.
pub const OPEN: u32 = 10;

/// The batch has no member of this index, or the event no key of it.
pub const NO_MEMBER: u32 = 11;

/// The lengths don't add up to the length of the texts, or there are more or fewer of them than answers.
pub const BAD_LENGTHS: u32 = 12;

/// The name of a table isn't UTF-8.
pub const BAD_TEXT: u32 = 13;

/// The name of a table is empty.
pub const EMPTY_TABLE: u32 = 14;

/// The name of a table has more than 64 bytes.
pub const TABLE_TOO_LONG: u32 = 15;

/// The limit of a table isn't 1 to 65,536.
pub const BAD_TABLE_LIMIT: u32 = 16;

/// The list names a table twice.
pub const DUPLICATE_TABLE: u32 = 17;

/// A loader has 1 to 32 callers.
pub const BAD_CALLERS: u32 = 18;

/// The loader has no caller of this number.
pub const NO_CALLER: u32 = 19;

/// The loader is stopped.
pub const STOPPED: u32 = 20;

/// The history has all the events that it may have.
pub const LOG_FULL: u32 = 21;

/// A batch has not ended: settle it or fail it first.
pub const UNSETTLED: u32 = 22;

/// The history has no such event, or a caller no such entry.
pub const NO_EVENT: u32 = 23;

/// The caller has no ticket of this number.
pub const NO_TICKET: u32 = 24;

/// What never comes in a run.
pub const BUG: u32 = 25;

/// The code of a fault of limits by table.
pub fn table_code_of(fault: TableLimitFault) -> u32
    ensures code { result ≡ table_code_of fault }
    ensures refused { DONE < result }
{
    match fault {
        TableLimitFault::OutOfMemory => OUT_OF_MEMORY,
        TableLimitFault::EmptyTable => EMPTY_TABLE,
        TableLimitFault::TableTooLong => TABLE_TOO_LONG,
        TableLimitFault::BatchLimit => BAD_TABLE_LIMIT,
        TableLimitFault::DuplicateTable => DUPLICATE_TABLE,
    }
}
