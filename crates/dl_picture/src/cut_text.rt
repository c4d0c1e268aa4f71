//! Texts, cut in their middle if they need more room than there is.

use crate::sheet::Sheet;

/// The first character that may be wider than one of the Latin, Greek and Cyrillic ones.
const FIRST_WIDE: char = '\u{590}';

/// How many pixels a narrow character takes.
pub(crate) const CHARACTER: u64 = 7;

/// The room of a character, in narrow characters.
fn room_of(c: char) -> u64 {
    if c < FIRST_WIDE { 1 } else { 2 }
}

/// The room of a text, in narrow characters.
pub(crate) fn room_for(text: &str) -> u64 {
    let mut room: u64 = 0;
    for c in text.chars() {
        room = room.saturating_add(room_of(c));
    }
    room
}

/// A `text` element at x and y. It cuts the text in its middle if that needs more room than this many narrow
/// characters. If the text has wide characters, it fits its room in every font.
pub(crate) fn push_cut_text(sheet: &mut Sheet, x: u64, y: u64, text: &str, room: u64) {
    sheet.push_form("<text x='#' y='#'", &[x, y]);
    let whole = room_for(text);
    if whole > text.chars().count() as u64 {
        let width = whole.min(room).saturating_mul(CHARACTER);
        sheet.push_form(" textLength='#' lengthAdjust='spacingAndGlyphs'", &[width]);
    }
    sheet.push(">");
    if whole > room {
        push_cut(sheet, text, whole, room);
    } else {
        sheet.push_escaped(text);
    }
    sheet.push("</text>");
}

/// A text without its middle. All of it is `whole` narrow characters wide, and there is room for fewer.
fn push_cut(sheet: &mut Sheet, text: &str, whole: u64, room: u64) {
    let half = room.saturating_sub(1) / 2;
    let mut passed: u64 = 0;
    let mut is_cut = false;
    for c in text.chars() {
        let end = passed.saturating_add(room_of(c));
        if end <= half || whole.saturating_sub(passed) <= half {
            sheet.push_escaped_char(c);
        } else if !is_cut {
            sheet.push("…");
            is_cut = true;
        }
        passed = end;
    }
}
