//! Texts of errors.

ghost use Rattle.std.specs.Prelude.{◌≡◌, IfOk};

use std::alloc::{AllocError, Global};
use std::fmt;
use std::marker::Model;
use std::sync::Arc;

/// The text of an error, which several places share. A copy costs one atomic step. Contracts see its bytes.
pub struct Message {
    text: Arc<String>,
}

impl Drop for Message {
    fn drop(self) {
        let Message { text } = self;
        drop(text);
    }
}

impl Model for Message {
    ghost use Rattle.std.specs.Prelude.{List, ℕ, string_bytes};
    ghost use Rattle.std.specs.Arc.{arc_value};

    ghost Value = { List ℕ };

    ghost view = { λ m. string_bytes (arc_value m.text) };
}

impl fmt::Debug for Message {
    fn fmt<W: fmt::Write>(&self, f: &mut fmt::Formatter<W>) -> fmt::Result {
        write!(f, "{:?}", self.as_str())
    }
}

impl Message {
    /// Copies a text into a message.
    ///
    /// # Errors
    /// `AllocError` if memory runs out.
    pub fn new(alloc: Global, text: &str) -> Result<Message, AllocError>
        ensures { IfOk result (λ m. m ≡ text.now) }
    {
        let text = Arc::new(alloc, String::from_str(alloc, text)?)?;
        Ok(Message { text })
    }

    /// The text itself.
    pub fn as_str(&self) -> &str
        ensures { result.now ≡ self.now }
    {
        self.text.as_str()
    }

    /// The same message, shared.
    ///
    /// # Errors
    /// `AllocError` if the reference count would overflow.
    pub fn try_copy(&self) -> Result<Message, AllocError>
        ensures { IfOk result (λ m. m ≡ self.now) }
    {
        let text = Arc::try_clone(&self.text)?;
        Ok(Message { text })
    }
}
