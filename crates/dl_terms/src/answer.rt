//! What a term ends with.

use crate::answer_value::AnswerValue;
use dl_values::{BatchFault, FetchKey, Message};

/// What a term ends with: a value, or a fault that says why it has none.
#[derive(Debug, Drop)]
pub enum Answer {
    /// The value.
    Value(AnswerValue),
    /// Why there is no value. If several parts failed, it is the fault of the leftmost.
    Fault(EvalFault),
}

/// Why a term has no value.
#[derive(Debug, Drop)]
pub enum EvalFault {
    /// The key's outcome is an error, with this text.
    Key { key: FetchKey, text: Message },
    /// The batch in which the key was loaded failed.
    Batch { key: FetchKey, fault: BatchFault },
    /// The value isn't an object, or has no member of this name.
    NoField,
    /// A value in the place of an id isn't a text of 1 to 256 bytes.
    NotAKey,
    /// A value in the place of a list isn't a list.
    NotAList,
    /// A list of ids, or of items to go over, has more than 1,024 items.
    TooMany,
    /// An `Item` lies in the body of no `Over`.
    NoItem,
}
