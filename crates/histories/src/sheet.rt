//! JSON on a sheet.

use dl_picture::Sheet;
use dl_terms::AnswerValue;
use dl_values::Json;

/// Appends JSON.
pub(crate) trait PushJson {
    /// Appends what separates an item of a list from the `before` items before it.
    fn part(&mut self, before: usize);

    /// Appends a JSON value.
    fn push_json(&mut self, value: &Json);

    /// Appends the value of an answer.
    fn push_answer(&mut self, value: &AnswerValue);
}

impl PushJson for Sheet {
    fn part(&mut self, before: usize) {
        if before > 0 {
            self.push(",");
        }
    }

    fn push_json(&mut self, value: &Json) {
        let text = value.to_text(self.alloc);
        self.push_made(text);
    }

    fn push_answer(&mut self, value: &AnswerValue) {
        let text = value.to_text(self.alloc);
        self.push_made(text);
    }
}
