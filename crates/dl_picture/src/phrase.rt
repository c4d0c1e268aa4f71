//! Phrases: words of the program, alone or about numbers.

/// Words of the program, alone or about numbers.
#[derive(Clone, Copy)]
pub(crate) enum Phrase {
    /// Words alone.
    Words(&'static str),
    /// Words before a number, the number, and words after it.
    Numbered(&'static str, u64, &'static str),
    /// A number, a space and words.
    Named(u64, &'static str),
    /// Words, a number, ` to ` and another number.
    Range(&'static str, u64, u64),
    /// A number, in tenths.
    Tenths(u64),
}

impl Phrase {
    /// A count with its noun, for one or for more.
    pub(crate) fn count(count: usize, one: &'static str, several: &'static str) -> Phrase {
        Phrase::Numbered("", count as u64, noun(count, one, several))
    }

    /// A count of what comes behind other lines, with its noun, for one or for more.
    pub(crate) fn more(count: usize, one: &'static str, several: &'static str) -> Phrase {
        Phrase::Numbered("and ", count as u64, noun(count, one, several))
    }
}

/// The noun for one or for more.
fn noun(count: usize, one: &'static str, several: &'static str) -> &'static str {
    if count == 1 { one } else { several }
}
