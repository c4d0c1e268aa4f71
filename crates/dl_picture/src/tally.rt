//! Counts of lines by their marks, and by the texts of errors.

use crate::lines::{Count, Label, Lines};
use crate::mark::{Badges, Mark};
use std::alloc::{AllocError, Global};

/// With so many counts an error of a further text is counted without its text.
pub(crate) const MOST_COUNTS: usize = 8;

/// So many of the further texts are kept.
const MOST_OTHERS: usize = 100;

/// How many keys have which marks and which error, how many batches ended in which way, how many calls were refused, and
/// how many steps have faults; with how many counts it takes no further texts, and what was counted without its text.
#[derive(Drop)]
pub(crate) struct Tally<'a> {
    counts: Vec<Count<'a>>,
    most: usize,
    others: Vec<Count<'a>>,
}

impl<'a> Tally<'a> {
    /// Of nothing. With `most` counts an error of a further text is counted without its text.
    pub(crate) fn new(alloc: Global, most: usize) -> Tally<'a> {
        Tally {
            counts: Vec::new(alloc),
            most,
            others: Vec::new(alloc),
        }
    }

    /// Begins anew.
    pub(crate) fn clear(&mut self) {
        self.counts.clear();
        self.others.clear();
    }

    /// Its counts, as lines.
    pub(crate) fn lines(&self) -> Lines<'_> {
        Lines::Counts {
            counts: self.counts.as_slice(),
            others: self.others.as_slice(),
        }
    }

    /// Its counts, as lines below others of the same kind.
    pub(crate) fn more_lines(&self) -> Lines<'_> {
        Lines::More {
            counts: self.counts.as_slice(),
            others: self.others.as_slice(),
        }
    }

    /// Counts lines that aren't counts. Fails if memory runs out.
    pub(crate) fn add_lines(&mut self, lines: Lines<'a>) -> Result<(), AllocError> {
        for place in 0..lines.count() {
            if let Some(line) = lines.line(place) {
                self.add(Count {
                    badges: line.badges,
                    is_of_batches: matches!(&line.label, Label::Batches(_)),
                    why: line.error(),
                    count: 1,
                })?;
            }
        }
        Ok(())
    }

    /// Counts a batch that ended in this way. Fails if memory runs out.
    pub(crate) fn add_batch(&mut self, mark: Mark) -> Result<(), AllocError> {
        self.add(Count {
            badges: Badges::of(mark),
            is_of_batches: true,
            why: None,
            count: 1,
        })
    }

    /// Counts one more.
    fn add(&mut self, mut one: Count<'a>) -> Result<(), AllocError> {
        if has_added(&mut self.counts, &one) {
            return Ok(());
        }
        if one.why.is_some() && self.counts.len() >= self.most {
            self.add_other(one)?;
            one.why = None;
            if has_added(&mut self.counts, &one) {
                return Ok(());
            }
        }
        self.counts.push(one)?;
        Ok(())
    }

    /// Keeps the text of an error that is counted without it. Without counts by texts there are no others.
    fn add_other(&mut self, one: Count<'a>) -> Result<(), AllocError> {
        if self.most > 0 && !has_added(&mut self.others, &one) && self.others.len() < MOST_OTHERS {
            self.others.push(one)?;
        }
        Ok(())
    }
}

/// Whether there is a count for it, to which one was then added.
fn has_added<'a>(counts: &mut Vec<Count<'a>>, one: &Count<'a>) -> bool {
    for count in counts.iter_mut() {
        if count.is_like(one) {
            count.count = count.count.saturating_add(1);
            return true;
        }
    }
    false
}
