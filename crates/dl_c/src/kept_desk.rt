//! A desk, with memory that its calls use again.

use dl_desk::{Desk, FetchKey};

/// A desk, and the key of its last call on a key. The next such call may use the memory of that key.
#[derive(Drop)]
pub struct KeptDesk {
    pub(crate) desk: Desk,
    pub(crate) spare: Option<FetchKey>,
}
