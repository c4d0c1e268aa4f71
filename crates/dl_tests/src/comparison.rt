//! How tests compare.

use dl_values::FetchKey;
use std::alloc::{AllocError, Global};
use std::fmt::{Debug, Display};
use std::io::Eprint;

/// Whether you got what you want. If not, a line on standard error says so, and what it is about.
pub fn is_same<R: Eprint, T: PartialEq + Debug, D: Display + Drop>(
    rt: &R,
    got: &T,
    want: &T,
    about: D,
) -> bool {
    let is_same = *got == *want;
    if !is_same {
        let _ = eprintln!(rt; "{about}: there is {got:?}, and wanted is {want:?}");
    }
    is_same
}

/// You got what you want. If not, the test ends, and says what it is about.
#[macro_export]
macro_rules! assert_is {
    ($rt:expr, $got:expr, $want:expr, $about:expr $(,)?) => {
        assert!($rt; $crate::is_same($rt, $got, $want, $about))
    };
}

/// The ids of keys, with a space between them.
pub fn ids_text(alloc: Global, keys: &[FetchKey]) -> Result<String, AllocError> {
    let mut text = String::new(alloc);
    for key in keys {
        let space = if text.is_empty() { "" } else { " " };
        write!(text, "{space}{}", key.id())?;
    }
    Ok(text)
}
