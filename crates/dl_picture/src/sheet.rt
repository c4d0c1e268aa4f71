//! Sheets: texts to write on.

use crate::json_text::{key_text, keys_text, quoted_text};
use crate::phrase::Phrase;
use crate::xml;
use dl_desk::FetchKey;
use std::alloc::{AllocError, Global};
use std::fmt::Write;

/// A text to write on. If memory runs out, it has only a part of what you push, and [`finish`](Sheet::finish) fails.
#[derive(Drop)]
pub struct Sheet {
    /// Makes the texts that go onto it.
    pub alloc: Global,
    text: String,
    is_whole: bool,
}

impl Sheet {
    /// An empty sheet.
    pub fn new(alloc: Global) -> Sheet {
        Sheet {
            alloc,
            text: String::new(alloc),
            is_whole: true,
        }
    }

    /// Notes whether memory ran out.
    pub fn note(&mut self, pushed: Result<(), AllocError>) {
        if pushed.is_err() {
            self.is_whole = false;
        }
    }

    /// Appends a text as it is.
    pub fn push(&mut self, text: &str) {
        let pushed = self.text.push_str(text);
        self.note(pushed);
    }

    /// Appends a text as it is, and then a number.
    pub fn push_number(&mut self, front: &str, number: u64) {
        let pushed = write!(self.text, "{front}{number}");
        self.note(pushed);
    }

    /// Appends a text that was made for it, or notes that memory ran out.
    pub fn push_made(&mut self, made: Result<String, AllocError>) {
        match made {
            Ok(text) => self.push(text.as_str()),
            Err(error) => self.note(Err(error)),
        }
    }

    /// Appends a stranger's text as JSON, in quotation marks.
    pub fn push_quoted(&mut self, text: &str) {
        let quoted = quoted_text(self.alloc, text);
        self.push_made(quoted);
    }

    /// Appends a key as JSON, the list of its two texts.
    pub fn push_key(&mut self, key: &FetchKey) {
        let text = key_text(self.alloc, key);
        self.push_made(text);
    }

    /// Appends a list of keys as JSON.
    pub fn push_keys(&mut self, keys: &[FetchKey]) {
        let text = keys_text(self.alloc, keys);
        self.push_made(text);
    }

    /// Appends a form, with the next of the numbers in place of each `#`.
    pub(crate) fn push_form(&mut self, form: &str, numbers: &[u64]) {
        let mut numbers = numbers.iter();
        for c in form.chars() {
            if c == '#' {
                if let Some(number) = numbers.next() {
                    self.push_number("", *number);
                }
            } else {
                let pushed = self.text.push(c);
                self.note(pushed);
            }
        }
    }

    /// Appends a phrase.
    pub(crate) fn push_phrase(&mut self, phrase: Phrase) {
        match phrase {
            Phrase::Words(words) => self.push(words),
            Phrase::Numbered(front, number, back) => {
                self.push_number(front, number);
                self.push(back);
            }
            Phrase::Named(number, words) => {
                self.push_number("", number);
                self.push(" ");
                self.push(words);
            }
            Phrase::Range(front, first, last) => {
                self.push(front);
                self.push_form("# to #", &[first, last]);
            }
            Phrase::Tenths(tenths) => self.push_form("#.#", &[tenths / 10, tenths % 10]),
        }
    }

    /// Appends a stranger's text as XML.
    pub(crate) fn push_escaped(&mut self, text: &str) {
        let pushed = xml::push_text(&mut self.text, text);
        self.note(pushed);
    }

    /// Appends a character of a stranger's text as XML.
    pub(crate) fn push_escaped_char(&mut self, c: char) {
        let pushed = xml::push_char(&mut self.text, c);
        self.note(pushed);
    }

    /// Appends the beginning of a `text` element in a class of the style, with its foot at x and y.
    pub(crate) fn begin_text(&mut self, class: &str, x: u64, y: u64) {
        self.push("<text class='");
        self.push(class);
        self.push_form("' x='#' y='#'>", &[x, y]);
    }

    /// Appends a phrase as a `text` element in a class of the style, with its foot at x and y.
    pub(crate) fn push_words(&mut self, class: &str, x: u64, y: u64, words: Phrase) {
        self.begin_text(class, x, y);
        self.push_phrase(words);
        self.push("</text>");
    }

    /// Appends the text of another sheet.
    pub(crate) fn push_sheet(&mut self, other: &Sheet) {
        self.push(other.text.as_str());
        if !other.is_whole {
            self.is_whole = false;
        }
    }

    /// What is on it so far.
    pub(crate) fn text(&self) -> &str {
        self.text.as_str()
    }

    /// The text. Fails if memory ran out.
    pub fn finish(self) -> Result<String, AllocError> {
        let Sheet { text, is_whole, .. } = self;
        if is_whole { Ok(text) } else { Err(AllocError) }
    }
}
