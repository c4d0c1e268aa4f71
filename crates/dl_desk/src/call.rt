//! The calls of a desk, as values.

use dl_values::{FetchKey, Keys};

/// A call of a desk, as a value for [`Desk::call`](crate::Desk::call) and [`Desk::play`](crate::Desk::play). The
/// numbers are those of batches. A desk never sees an outcome.
#[derive(Debug, Drop)]
pub enum DeskCall {
    /// `load` of a key.
    Load(FetchKey),
    /// `load_many`: loads of several keys in order, as one call.
    LoadMany(Keys),
    /// `prime` of a key.
    Prime(FetchKey),
    /// `clear`: the memo forgets a key.
    Clear(FetchKey),
    /// `clear_all`: the memo forgets all keys.
    ClearAll,
    /// `dispatch`: each batch that hasn't gone out goes out.
    Dispatch,
    /// `settle`: a batch ends with an outcome for each member.
    Settle(u32),
    /// `fail`: a batch fails as a whole.
    Fail(u32),
}
