//! Columns: what a call did to its keys, which keys a batch has, or which batches a worker ended.

use crate::cut_text::{CHARACTER, push_cut_text, room_for};
use crate::lines::{Line, Lines};
use crate::mark::{Badges, Mark};
use crate::phrase::Phrase;
use crate::sheet::Sheet;

/// How wide a column is.
pub(crate) const COLUMN_WIDTH: u64 = 214;

/// How high a line of a column is, and how much room is above and below all its lines.
pub(crate) const LINE_HEIGHT: u64 = 18;

pub(crate) const HEADING_HEIGHT: u64 = 26;

const FOOT_HEIGHT: u64 = 6;

/// How far below the top of a column the foot of its heading is.
const HEADING_FOOT: u64 = 17;

/// How wide a badge with a mark is, and how far from its left side the next one begins.
const BADGE: u64 = 15;

const BADGE_STEP: u64 = 18;

/// How many characters another badge takes.
const BADGE_ROOM: u64 = 3;

/// How far below its corner the foot of a line's letters is.
const FOOT: u64 = 12;

/// The room inside a column, at each side.
const PADDING: u64 = 10;

/// How many characters a line has room for, and how many of them the number of a batch takes.
const LINE_ROOM: u64 = 24;

const BATCH_ROOM: u64 = 7;

/// How many characters a line has room for that has no badge.
const NOTE_ROOM: u64 = LINE_ROOM + BADGE_ROOM;

/// A column of a call's keys shows counts in their place if they are more than this.
const MOST_KEYS: usize = 200;

/// A column of a batch's keys, of a worker's batches or of faults has at most this many lines, or else its first ones and
/// counts of the others.
const MOST_LINES: usize = 24;

pub(crate) const FIRST_LINES: usize = 8;

/// A column: a heading, what is to the right of it, what is said below it, and lines, some of which are at its foot.
#[derive(Clone, Copy)]
pub(crate) struct Column<'a> {
    pub(crate) heading: Phrase,
    pub(crate) side: Phrase,
    pub(crate) note: Option<&'a str>,
    /// The batch that it is, if it is one.
    pub(crate) batch: Option<u32>,
    pub(crate) lines: Lines<'a>,
    pub(crate) foot: Lines<'a>,
}

impl Column<'_> {
    /// How many lines it has.
    pub(crate) fn count(&self) -> usize {
        self.lines.count().saturating_add(self.foot.count())
    }

    /// The line in a place, if there is one.
    pub(crate) fn line(&self, place: usize) -> Option<Line<'_>> {
        let count = self.lines.count();
        if place < count {
            self.lines.line(place)
        } else {
            self.foot.line(place - count)
        }
    }

    /// How high it is.
    pub(crate) fn height(&self) -> u64 {
        let mut height = self.top().saturating_add(FOOT_HEIGHT);
        for place in 0..self.count() {
            if let Some(line) = self.line(place) {
                height = height.saturating_add(line.height());
            }
        }
        height
    }

    /// Whether it shows only the first of its lines, and counts of the others.
    pub(crate) fn is_cut(&self) -> bool {
        let may_be = match self.lines {
            Lines::Ended(_) | Lines::Faults(_) => true,
            _ => self.batch.is_some(),
        };
        may_be && self.lines.count() > MOST_LINES
    }

    /// Whether it shows counts in place of its lines.
    pub(crate) fn is_summed_up(&self) -> bool {
        self.batch.is_none() && self.lines.count() > MOST_KEYS
    }

    /// The same with these lines and these at its foot.
    pub(crate) fn with_lines<'l>(&'l self, lines: Lines<'l>, foot: Lines<'l>) -> Column<'l> {
        Column {
            heading: self.heading,
            side: self.side,
            note: self.note,
            batch: self.batch,
            lines,
            foot,
        }
    }

    /// How far below its top the lines begin.
    pub(crate) fn top(&self) -> u64 {
        match self.note {
            Some(note) if takes_two_lines(note, NOTE_ROOM) => {
                HEADING_HEIGHT + LINE_HEIGHT + LINE_HEIGHT
            }
            Some(_) => HEADING_HEIGHT + LINE_HEIGHT,
            None => HEADING_HEIGHT,
        }
    }
}

/// A column of this height, with its corner at x and y.
pub(crate) fn push_column(sheet: &mut Sheet, x: u64, y: u64, height: u64, column: &Column<'_>) {
    push_card(sheet, x, y, height);
    sheet.push_words("head", PADDING, HEADING_FOOT, column.heading);
    sheet.push_words("side", COLUMN_WIDTH - PADDING, HEADING_FOOT, column.side);
    sheet.push("\n");
    if let Some(note) = column.note {
        push_note(sheet, note);
    }
    push_lines(sheet, column);
    sheet.push("</svg>\n");
}

/// Whether a text of several words takes two lines: one with this room has none for all of it.
fn takes_two_lines(text: &str, room: u64) -> bool {
    text.contains(' ') && room_for(text) > room
}

/// How high the text of an error is below its line.
pub(crate) fn told_height(why: &str) -> u64 {
    if takes_two_lines(why, LINE_ROOM) {
        LINE_HEIGHT + LINE_HEIGHT
    } else {
        LINE_HEIGHT
    }
}

/// What is said below the heading of a column.
fn push_note(sheet: &mut Sheet, note: &str) {
    let place = [PADDING, HEADING_HEIGHT];
    sheet.push_form("<g class='note' transform='translate(# #)'><title>", &place);
    sheet.push_escaped(note);
    sheet.push("</title>");
    push_told(sheet, 0, FOOT, note, NOTE_ROOM);
    sheet.push("</g>\n");
}

/// A text with its foot at x and y, on one line with this room or on two.
fn push_told(sheet: &mut Sheet, x: u64, y: u64, text: &str, room: u64) {
    if takes_two_lines(text, room) {
        push_two_lines(sheet, x, y, text, room);
    } else {
        push_cut_text(sheet, x, y, text, room);
    }
}

/// A text on two lines: the first one has the words that fit it, at least one, and the second one the others.
fn push_two_lines(sheet: &mut Sheet, x: u64, y: u64, text: &str, room: u64) {
    let (mut first, mut second) = (Sheet::new(sheet.alloc), Sheet::new(sheet.alloc));
    for word in text.split(' ') {
        let taken = room_for(first.text()).saturating_add(1);
        let fits = first.text().is_empty() || taken.saturating_add(room_for(word)) <= room;
        if fits && second.text().is_empty() {
            push_word(&mut first, word);
        } else {
            push_word(&mut second, word);
        }
    }
    push_line_of(sheet, x, y, first, room);
    push_line_of(sheet, x, y.saturating_add(LINE_HEIGHT), second, room);
}

/// Appends a word behind those of a line.
fn push_word(line: &mut Sheet, word: &str) {
    if !line.text().is_empty() {
        line.push(" ");
    }
    line.push(word);
}

/// A line of a text with its foot at x and y, without its middle if it needs more room than this.
fn push_line_of(sheet: &mut Sheet, x: u64, y: u64, line: Sheet, room: u64) {
    match line.finish() {
        Ok(text) => push_cut_text(sheet, x, y, text.as_str(), room),
        Err(error) => sheet.note(Err(error)),
    }
}

/// The beginning of a column of this height, with its corner at x and y, and its card.
fn push_card(sheet: &mut Sheet, x: u64, y: u64, height: u64) {
    let (width, inside) = (COLUMN_WIDTH - 2, height.saturating_sub(2));
    sheet.push_form(
        "<svg x='#' y='#' width='#' height='#'>\n<rect class='card' x='1' y='1' width='#' height='#' rx='6'/>\n",
        &[x, y, COLUMN_WIDTH, height, width, inside],
    );
}

/// The lines of a column.
fn push_lines(sheet: &mut Sheet, column: &Column<'_>) {
    let mut y = column.top();
    for place in 0..column.count() {
        if let Some(line) = column.line(place) {
            push_line(sheet, y, &line);
            y = y.saturating_add(line.height());
        }
    }
}

/// A line of a column, at this height.
fn push_line(sheet: &mut Sheet, y: u64, line: &Line<'_>) {
    match line.label.text(sheet.alloc) {
        Ok(label) => {
            push_title(sheet, y, line, label.as_str());
            let badges = push_badges(sheet, line.badges);
            push_label(sheet, line, label.as_str(), badges.saturating_sub(1));
            if let Some(why) = line.told() {
                push_told(sheet, BADGE + CHARACTER, FOOT + LINE_HEIGHT, why, LINE_ROOM);
            }
            sheet.push("</g>\n");
        }
        Err(error) => sheet.note(Err(error)),
    }
}

/// The beginning of a line at this height, with its title: its whole label, and what became of it.
fn push_title(sheet: &mut Sheet, y: u64, line: &Line<'_>, label: &str) {
    sheet.push_form("<g transform='translate(# #)'><title>", &[PADDING, y]);
    sheet.push_escaped(label);
    let marks = line.badges.marks();
    let mut between = ": ";
    for mark in &marks {
        if let Some(mark) = mark {
            sheet.push(between);
            sheet.push(line.label.meaning(*mark));
            between = ", ";
        }
    }
    if let Some(batch) = line.batch {
        sheet.push_form(", batch #", &[batch as u64]);
    }
    if let Some(why) = line.why {
        sheet.push(": ");
        sheet.push_escaped(why);
    }
    push_others(sheet, line);
    sheet.push("</title>");
}

/// The texts of errors that a line counts without their texts.
fn push_others(sheet: &mut Sheet, line: &Line<'_>) {
    let mut between = ", with other texts: ";
    for other in line.others {
        if let Some(why) = line.text_of(other) {
            sheet.push(between);
            sheet.push_escaped(why);
            between = "; ";
        }
    }
}

/// The badges of a line, and how many they are.
fn push_badges(sheet: &mut Sheet, badges: Badges) -> u64 {
    let marks = badges.marks();
    let mut count: u64 = 0;
    for mark in &marks {
        if let Some(mark) = mark {
            push_badge(sheet, count.saturating_mul(BADGE_STEP), 0, *mark);
            count = count.saturating_add(1);
        }
    }
    count
}

/// The words of a line behind a badge and as many others.
fn push_label(sheet: &mut Sheet, line: &Line<'_>, label: &str, others: u64) {
    let x = others
        .saturating_mul(BADGE_STEP)
        .saturating_add(BADGE + CHARACTER);
    let room = LINE_ROOM.saturating_sub(others.saturating_mul(BADGE_ROOM));
    match line.batch {
        Some(batch) => {
            push_cut_text(sheet, x, FOOT, label, room.saturating_sub(BATCH_ROOM));
            let number = Phrase::Numbered("b", batch as u64, "");
            sheet.push_words("side", COLUMN_WIDTH - PADDING - PADDING, FOOT, number);
        }
        None => push_cut_text(sheet, x, FOOT, label, room),
    }
}

/// The badge of a mark, with its corner at x and y: a square in the colour of the mark, with its letter.
pub(crate) fn push_badge(sheet: &mut Sheet, x: u64, y: u64, mark: Mark) {
    sheet.push("<rect class='");
    sheet.push(mark.class());
    sheet.push_form(
        "' x='#' y='#' width='#' height='#' rx='3'/>",
        &[x, y, BADGE, BADGE],
    );
    let (middle, foot) = (x.saturating_add(BADGE / 2), y.saturating_add(FOOT));
    sheet.push_words("letter", middle, foot, Phrase::Words(mark.letter()));
}
