//! Lines that join keys to the batches that answered them.

use crate::column::{COLUMN_WIDTH, Column, HEADING_HEIGHT, LINE_HEIGHT};
use crate::sheet::Sheet;
use std::alloc::{AllocError, Global};

/// How far a line goes out to a side, and how much farther that of the next batch does, up to four.
const BOW: u64 = 9;

const BOW_STEP: u64 = 5;

/// How wide the bracket is that holds several keys together.
const BRACKET: u64 = 4;

/// A place on the right side of a column: of a batch, or of keys below one another that it answered, the first of which
/// is at the height `top`, and the last at `foot`.
#[derive(Clone, Copy)]
struct Spot {
    batch: u32,
    x: u64,
    top: u64,
    foot: u64,
}

/// The batches that are drawn, and the keys.
#[derive(Drop)]
pub(crate) struct Joins {
    batches: Vec<Spot>,
    keys: Vec<Spot>,
}

impl Joins {
    /// None.
    pub(crate) fn new(alloc: Global) -> Joins {
        Joins {
            batches: Vec::new(alloc),
            keys: Vec::new(alloc),
        }
    }

    /// Notes what a column has, whose right upper corner is at x and y. Fails if memory runs out.
    pub(crate) fn note_column(
        &mut self,
        x: u64,
        y: u64,
        column: &Column<'_>,
    ) -> Result<(), AllocError> {
        if let Some(batch) = column.batch {
            let y = y.saturating_add(HEADING_HEIGHT / 2);
            self.batches.push(Spot {
                batch,
                x,
                top: y,
                foot: y,
            })?;
        }
        let mut y = y
            .saturating_add(column.top())
            .saturating_add(LINE_HEIGHT / 2);
        for place in 0..column.count() {
            if let Some(line) = column.line(place) {
                if let Some(batch) = line.batch {
                    self.note_key(batch, x, y)?;
                }
                y = y.saturating_add(line.height());
            }
        }
        Ok(())
    }

    /// Notes a key at x and y, with those right above it that the same batch answered. Fails if memory runs out.
    fn note_key(&mut self, batch: u32, x: u64, y: u64) -> Result<(), AllocError> {
        if let Some(above) = self.keys.last_mut() {
            if above.batch == batch && above.x == x && above.foot.saturating_add(LINE_HEIGHT) == y {
                above.foot = y;
                return Ok(());
            }
        }
        self.keys.push(Spot {
            batch,
            x,
            top: y,
            foot: y,
        })?;
        Ok(())
    }

    /// Whether there are lines.
    pub(crate) fn are_drawn(&self) -> bool {
        !self.keys.is_empty()
    }

    /// Appends a line to each batch that is drawn, from its keys.
    pub(crate) fn push_to(&self, sheet: &mut Sheet) {
        for keys in &self.keys {
            for batch in &self.batches {
                if batch.batch == keys.batch {
                    push_join(sheet, *keys, *batch);
                }
            }
        }
    }
}

/// A line from keys, which a bracket holds together if they are several, to their batch: to its left side if that is
/// farther right, or else to its right side.
fn push_join(sheet: &mut Sheet, keys: Spot, batch: Spot) {
    let (x, top, foot) = (keys.x, keys.top, keys.foot);
    let middle = top.saturating_add(foot.saturating_sub(top) / 2);
    let bow = BOW + (keys.batch % 4) as u64 * BOW_STEP;
    let side = batch.x.saturating_sub(COLUMN_WIDTH);
    let (end, right) = if side > x {
        (side, side.saturating_sub(bow))
    } else {
        (batch.x, batch.x.saturating_add(bow))
    };
    let begin = if top < foot {
        sheet.push_form(
            "<path class='join' d='M# #h#V#h-#",
            &[x, top, BRACKET, foot, BRACKET],
        );
        x.saturating_add(BRACKET)
    } else {
        sheet.push("<path class='join' d='");
        x
    };
    sheet.push_form(
        "M# #C# # # # # #'/>\n",
        &[
            begin,
            middle,
            x.saturating_add(bow),
            middle,
            right,
            batch.top,
            end,
            batch.top,
        ],
    );
}
