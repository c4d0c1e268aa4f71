//! A call that a desk has prepared.

ghost use Rattle.std.specs.Prelude.{◌≡◌};

use crate::reply::DeskReply;

/// A call with its allocations made and its steps prepared, in the desk that gave it to you. Only
/// [`Desk::commit`](crate::Desk::commit) of that desk takes it. Any other call that changes the desk takes back what it
/// prepared.
#[derive(Debug, Drop)]
pub struct Ready {
    pub(crate) reply: DeskReply,
}

impl Ready {
    /// The reply that the call will have.
    pub fn reply(&self) -> &DeskReply
        ensures { result.now ≡ self.now.reply }
    {
        &self.reply
    }
}
