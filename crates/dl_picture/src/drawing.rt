//! Drawings: elements of SVG from top to bottom, in rows of columns.

use crate::column::{COLUMN_WIDTH, Column, FIRST_LINES, push_column};
use crate::head::{LEGEND_STEP, push_join_meaning, push_mark, push_meaning};
use crate::joins::Joins;
use crate::lines::Lines;
use crate::mark::{MARKS, Mark};
use crate::phrase::Phrase;
use crate::sheet::Sheet;
use crate::style::STYLE;
use crate::tally::{MOST_COUNTS, Tally};
use std::alloc::{AllocError, Global};

/// How wide a drawing is at least, in pixels.
const LEAST_WIDTH: u64 = 1200;

/// The room at each side of a drawing.
pub(crate) const MARGIN: u64 = 20;

/// How many columns a row has, if they follow no rounds.
const COLUMNS: u64 = 5;

/// The room between columns, and between what is below one another.
const GUTTER: u64 = 22;

const GAP: u64 = 8;

/// How high a place may be with a further batch. If it would be higher, the batch is in the next place.
const MOST_FILLED: u64 = 960;

/// What the number in front of a part of a term is.
const STEP_MEANING: &str = "eval N: step N of its plan, from 0";

/// How far below the top of a line of words its foot is, and how high the line is.
const WORDS_FOOT: u64 = 18;

const WORDS_HEIGHT: u64 = 26;

/// What is drawn so far: a sheet with elements of SVG, and how wide and high they are together; how many tiles the head
/// has; which place of the open row is filled, how high that is, how high the highest of them is, and how many places
/// batches took for which another one had no room; and what the legend is to explain.
#[derive(Drop)]
pub(crate) struct Drawing {
    pub(crate) sheet: Sheet,
    width: u64,
    pub(crate) height: u64,
    pub(crate) tiles: u64,
    /// The height of the head's legend.
    pub(crate) legend: u64,
    /// How many failed batches it still has room for, if it shows counts.
    pub(crate) failures: u64,
    /// With how many counts a column takes no further texts of errors.
    pub(crate) counts: usize,
    place: u64,
    columns: u64,
    filled: u64,
    tallest: u64,
    added: u64,
    occurring: Vec<Mark>,
    has_steps: bool,
    joins: Joins,
}

impl Drawing {
    /// An empty drawing.
    pub(crate) fn new(alloc: Global) -> Drawing {
        Drawing {
            sheet: Sheet::new(alloc),
            width: LEAST_WIDTH,
            height: MARGIN,
            tiles: 0,
            legend: 0,
            failures: 0,
            counts: MOST_COUNTS,
            place: 0,
            columns: 0,
            filled: 0,
            tallest: 0,
            added: 0,
            occurring: Vec::new(alloc),
            has_steps: false,
            joins: Joins::new(alloc),
        }
    }

    /// Leaves this much room below the drawing.
    pub(crate) fn add_height(&mut self, height: u64) {
        self.height = self.height.saturating_add(height);
    }

    /// A line of the program's own words, in a class of the style, below the open row.
    pub(crate) fn add_words(&mut self, class: &str, words: Phrase) {
        self.begin_words(class);
        self.sheet.push_phrase(words);
        self.sheet.push("</text>\n");
    }

    /// The beginning of such a line.
    pub(crate) fn begin_words(&mut self, class: &str) {
        self.end_row();
        let foot = self.height.saturating_add(WORDS_FOOT);
        self.add_height(WORDS_HEIGHT);
        self.sheet.begin_text(class, MARGIN, foot);
    }

    /// A column in the next place of the open row, or in the next row if that is full.
    pub(crate) fn add_column(&mut self, column: &Column<'_>) {
        if self.columns >= COLUMNS {
            self.end_row();
        }
        let place = self.columns;
        self.columns = place.saturating_add(1);
        self.go_to(place);
        self.add_below(column);
    }

    /// Goes on to a place of the open row, unless the row has come as far. Places that were added don't count.
    pub(crate) fn go_to(&mut self, place: u64) {
        let place = place.saturating_add(self.added);
        if place > self.place {
            self.place = place;
            self.filled = 0;
        }
    }

    /// A column below what the place has. If its lines are too many, it has counts of all of them, or of all but the first.
    pub(crate) fn add_below(&mut self, column: &Column<'_>) {
        if column.is_cut() {
            self.add_first(column);
        } else if column.is_summed_up() {
            self.add_counts(column);
        } else {
            self.add_lines(column);
        }
    }

    /// The first lines of a column, and counts of the others.
    fn add_first(&mut self, column: &Column<'_>) {
        let (first, others) = column.lines.split_at(FIRST_LINES);
        let tally = self.tally_of(others);
        self.add_lines(&column.with_lines(first, tally.more_lines()));
    }

    /// A column with counts of its lines.
    fn add_counts(&mut self, column: &Column<'_>) {
        let tally = self.tally_of(column.lines);
        self.add_lines(&column.with_lines(tally.lines(), column.foot));
    }

    /// The counts of lines.
    fn tally_of<'l>(&mut self, lines: Lines<'l>) -> Tally<'l> {
        let mut tally = Tally::new(self.sheet.alloc, self.counts);
        let counted = tally.add_lines(lines);
        self.sheet.note(counted);
        tally
    }

    /// Goes on to a place more if a batch of this height has no room below what the place has.
    fn make_room(&mut self, height: u64) {
        if self.filled > 0 && self.filled.saturating_add(height) > MOST_FILLED {
            self.added = self.added.saturating_add(1);
            self.place = self.place.saturating_add(1);
            self.filled = 0;
        }
    }

    /// A column with all its lines, below what the place has, or if it is a batch without room there in the next place.
    fn add_lines(&mut self, column: &Column<'_>) {
        let height = column.height();
        if column.batch.is_some() {
            self.make_room(height);
        }
        let before = self.place.saturating_mul(COLUMN_WIDTH + GUTTER);
        let (x, y) = (
            before.saturating_add(MARGIN),
            self.height.saturating_add(self.filled),
        );
        self.filled = self.filled.saturating_add(height).saturating_add(GAP);
        self.tallest = self.tallest.max(self.filled);
        self.width = self.width.max(x.saturating_add(COLUMN_WIDTH + GUTTER));
        push_column(&mut self.sheet, x, y, height, column);
        let noted = self
            .joins
            .note_column(x.saturating_add(COLUMN_WIDTH), y, column);
        self.sheet.note(noted);
        self.note_marks(column);
        self.has_steps |= column.note.is_some() && column.batch.is_none();
    }

    /// Notes which marks occur in a column.
    fn note_marks(&mut self, column: &Column<'_>) {
        for place in 0..column.count() {
            if let Some(line) = column.line(place) {
                let marks = line.badges.marks();
                for mark in &marks {
                    if let Some(mark) = mark {
                        self.note_mark(*mark);
                    }
                }
            }
        }
    }

    /// Notes that a mark occurs.
    fn note_mark(&mut self, mark: Mark) {
        if !self.occurring.contains(&mark) {
            if self.occurring.push(mark).is_err() {
                self.sheet.note(Err(AllocError));
            }
        }
    }

    /// What the marks mean that occur, in their order, and below these what the lines and the numbers of steps do. A row
    /// of the least width has room for each of the two.
    fn legend_sheet(&self) -> Sheet {
        let mut sheet = Sheet::new(self.sheet.alloc);
        let (mut x, y) = (MARGIN, self.legend);
        for mark in &MARKS {
            if self.occurring.contains(mark) {
                x = push_mark(&mut sheet, x, y, *mark);
            }
        }
        let (mut x, y) = (MARGIN, y.saturating_add(LEGEND_STEP));
        if self.joins.are_drawn() {
            x = push_join_meaning(&mut sheet, x, y);
        }
        if self.has_steps || self.occurring.contains(&Mark::Fault) {
            push_meaning(&mut sheet, x, y, STEP_MEANING);
        }
        sheet
    }

    /// Ends the open row, if it has columns.
    fn end_row(&mut self) {
        let tallest = self.tallest;
        self.add_height(tallest);
        self.place = 0;
        self.columns = 0;
        self.filled = 0;
        self.tallest = 0;
        self.added = 0;
    }

    /// The drawing as a document. Fails if memory ran out.
    pub(crate) fn finish(&mut self) -> Result<String, AllocError> {
        self.end_row();
        let height = self.height.saturating_add(MARGIN);
        let legend = self.legend_sheet();
        let mut document = Sheet::new(self.sheet.alloc);
        push_ground(&mut document, self.width, height);
        document.push_sheet(&legend);
        self.joins.push_to(&mut document);
        document.push_sheet(&self.sheet);
        document.push("</svg>\n");
        document.finish()
    }
}

/// Appends the beginning of a document of this width and height, with its style and its ground.
fn push_ground(sheet: &mut Sheet, width: u64, height: u64) {
    sheet.push_form(
        "<svg class='thrushscreen' xmlns='http://www.w3.org/2000/svg' width='#' height='#' viewBox='0 0 # #'>\n",
        &[width, height, width, height],
    );
    sheet.push(STYLE);
    sheet.push_form(
        "<rect class='ground' width='#' height='#'/>\n",
        &[width, height],
    );
}
