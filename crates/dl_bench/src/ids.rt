//! The ids of keys, which may all share a hash if the kit's `FoldHasher`, whose seed is fixed, hashes them.
//!
//! Of 32 bytes it first multiplies halves of the first 16 into its state. Then it joins that by xor with the next eight
//! bytes, and multiplies by the last eight. If those next eight bytes spell its state, the product is 0.

use crate::command::Ids;
use std::alloc::AllocError;

/// The front of ids of the table `trips` whose keys all have one hash: the 32 bytes of such a key are the table's length,
/// the table and the id.
const HOSTILE: &str = "hostileu7hlkD2YNg6";

/// The front of ids whose keys have hashes of their own.
const HARMLESS: &str = "harmless to anyone";

/// The front of ids of rows that all have one hash: the id alone finds a row, and such an id has 32 bytes.
const HOSTILE_ROW: &str = "hostileBiTzKyZUyTP71oLzh";

/// The front of ids of rows that have hashes of their own.
const HARMLESS_ROW: &str = "harmless to anyone at al";

impl Ids {
    /// What the ids begin with, if they aren't numbers alone.
    pub(crate) fn front(self) -> Option<&'static str> {
        match self {
            Ids::Short => None,
            Ids::Hostile => Some(HOSTILE),
            Ids::Harmless => Some(HARMLESS),
        }
    }

    /// The same for the ids of a table's rows.
    pub(crate) fn row_front(self) -> Option<&'static str> {
        match self {
            Ids::Short => None,
            Ids::Hostile => Some(HOSTILE_ROW),
            Ids::Harmless => Some(HARMLESS_ROW),
        }
    }
}

/// The table of the keys whose ids begin with this front.
pub(crate) fn table_of(front: Option<&str>) -> &'static str {
    match front {
        Some(_) => "trips",
        None => "users",
    }
}

/// Writes the id of a number: the front and then eight digits, or the number alone.
pub(crate) fn push_id(
    text: &mut String,
    front: Option<&str>,
    number: u32,
) -> Result<(), AllocError> {
    match front {
        Some(front) => write!(text, "{front}{number:08}"),
        None => write!(text, "{number}"),
    }
}
