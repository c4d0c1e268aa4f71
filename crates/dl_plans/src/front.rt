//! The fronts of texts that may be long.

use std::alloc::{AllocError, Global};
use std::fmt;
use std::fmt::{Display, Write};

/// How many characters of a text are shown.
const MOST_SHOWN: usize = 60;

/// Takes the front of what is written to it. It fails once it has that, so that nobody makes the rest.
#[derive(Drop)]
struct Front {
    text: String,
    room: usize,
    is_cut: bool,
    is_out_of_memory: bool,
}

impl Front {
    /// Takes one character more.
    fn take(&mut self, letter: char) -> fmt::Result {
        if self.room == 0 {
            self.is_cut = true;
            return Err(fmt::Error);
        }
        self.room -= 1;
        if self.text.push(letter).is_err() {
            self.is_out_of_memory = true;
            return Err(fmt::Error);
        }
        Ok(())
    }
}

impl Write for Front {
    fn write_str(&mut self, text: &str) -> fmt::Result {
        for letter in text.chars() {
            self.take(letter)?;
        }
        Ok(())
    }
}

/// Appends the text of a value, or its front and three dots if it has more than 60 characters. Fails if memory runs out.
pub(crate) fn push_front<D: Display>(
    alloc: Global,
    out: &mut String,
    value: &D,
) -> Result<(), AllocError> {
    let mut front = Front {
        text: String::new(alloc),
        room: MOST_SHOWN,
        is_cut: false,
        is_out_of_memory: false,
    };
    // If it fails, the front says why.
    let _ = write!(front, "{value}");
    if front.is_out_of_memory {
        return Err(AllocError);
    }
    out.push_str(front.text.as_str())?;
    if front.is_cut {
        out.push_str("…")?;
    }
    Ok(())
}
