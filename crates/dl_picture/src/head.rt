//! The head of a picture: its title, its numbers, and a legend of what it shows.

use crate::batches::Mean;
use crate::column::push_badge;
use crate::cut_text::CHARACTER;
use crate::drawing::{Drawing, MARGIN};
use crate::mark::Mark;
use crate::numbers::HistoryNumbers;
use crate::phrase::Phrase;
use crate::sheet::Sheet;

/// How wide and how high a tile with a number is, and how far away the next one is.
const TILE_WIDTH: u64 = 157;

const TILE_HEIGHT: u64 = 50;

const TILE_STEP: u64 = 167;

/// The room below the tiles, and below the legend.
const ROOM: u64 = 20;

/// How far below its first line the legend's second one is.
pub(crate) const LEGEND_STEP: u64 = 20;

/// The room of a sign in front of its meaning, and behind that.
const SIGN_STEP: u64 = 22;

const MEANING_STEP: u64 = 24;

/// How wide a sign is, and how far below its corner its middle is.
const SIGN: u64 = 15;

const SIGN_MIDDLE: u64 = 8;

/// The tiles of the loads and batches of a history. `keys` are the words for its keys.
pub(crate) fn add_numbers(drawing: &mut Drawing, numbers: &HistoryNumbers, keys: &'static str) {
    add_count(drawing, "loads", "loads", numbers.loads.loads);
    add_count(drawing, "hits", "hits", numbers.loads.hits);
    add_count(drawing, "keys", keys, numbers.batches.keys);
    add_count(drawing, "batches", "batches", numbers.batches.batches);
    add_count(drawing, "largest", "largest batch", numbers.batches.largest);
    let mean = mean_phrase(numbers.batches.mean());
    add_tile(drawing, "mean", "mean batch", mean);
}

/// A mean: a whole number, or rounded to a tenth.
fn mean_phrase(mean: Option<Mean>) -> Phrase {
    match mean {
        Some(mean) if mean.rest == 0 => Phrase::Numbered("", mean.whole, ""),
        Some(mean) => Phrase::Tenths(tenths_of(mean)),
        None => Phrase::Words("none"),
    }
}

/// How many tenths a mean has, rounded, and up from a half.
fn tenths_of(mean: Mean) -> u64 {
    let of = mean.of.max(1);
    let rest = mean.rest.saturating_mul(10).saturating_add(of / 2) / of;
    mean.whole.saturating_mul(10).saturating_add(rest)
}

/// A tile with a count.
pub(crate) fn add_count(drawing: &mut Drawing, name: &str, words: &'static str, count: u64) {
    add_tile(drawing, name, words, Phrase::Numbered("", count, ""));
}

/// Adds a tile: a number, the name by which a program finds it in the picture, and words for what it is. The name is no
/// id, since a page may have several pictures.
fn add_tile(drawing: &mut Drawing, name: &str, words: &'static str, figure: Phrase) {
    let (place, y) = (drawing.tiles, drawing.height);
    drawing.tiles = place.saturating_add(1);
    let x = place.saturating_mul(TILE_STEP).saturating_add(MARGIN);
    let left = x.saturating_add(10);
    let sheet = &mut drawing.sheet;
    sheet.push_form(
        "<rect class='card' x='#' y='#' width='#' height='#' rx='6'/><text class='figure' data-name='",
        &[x, y, TILE_WIDTH, TILE_HEIGHT],
    );
    sheet.push(name);
    sheet.push_form("' x='#' y='#'>", &[left, y.saturating_add(22)]);
    sheet.push_phrase(figure);
    sheet.push("</text>");
    sheet.push_words("soft", left, y.saturating_add(40), Phrase::Words(words));
    sheet.push("\n");
}

/// Ends the head: below the tiles, it has room for the two lines of the legend.
pub(crate) fn end_head(drawing: &mut Drawing) {
    drawing.legend = drawing.height.saturating_add(TILE_HEIGHT + ROOM);
    drawing.add_height(TILE_HEIGHT + ROOM + LEGEND_STEP + ROOM);
}

/// What a mark means, with its corner at x and y, and where the next sign begins.
pub(crate) fn push_mark(sheet: &mut Sheet, x: u64, y: u64, mark: Mark) -> u64 {
    push_badge(sheet, x, y, mark);
    push_meaning(sheet, x.saturating_add(SIGN_STEP), y, mark.meaning())
}

/// What a line between keys and a batch means, with its corner at x and y, and where the next sign begins.
pub(crate) fn push_join_meaning(sheet: &mut Sheet, x: u64, y: u64) -> u64 {
    let (right, middle) = (x.saturating_add(SIGN), y.saturating_add(SIGN_MIDDLE));
    sheet.push_form(
        "<line class='join' x1='#' y1='#' x2='#' y2='#'/>",
        &[x, middle, right, middle],
    );
    push_meaning(
        sheet,
        x.saturating_add(SIGN_STEP),
        y,
        "joins keys to their batch",
    )
}

/// Words for what something means, with their corner at x and y, and where the next sign begins.
pub(crate) fn push_meaning(sheet: &mut Sheet, x: u64, y: u64, meaning: &'static str) -> u64 {
    sheet.push_words("soft", x, y.saturating_add(12), Phrase::Words(meaning));
    sheet.push("\n");
    let width = (meaning.len() as u64).saturating_mul(CHARACTER);
    x.saturating_add(width).saturating_add(MEANING_STEP)
}
