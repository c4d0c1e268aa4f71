//! Lines of columns: what became of each key of a call or of a batch.

use crate::cells::{Fate, why_of};
use crate::column::{LINE_HEIGHT, told_height};
use crate::faults::StepFault;
use crate::mark::{Badges, Mark};
use crate::phrase::Phrase;
use crate::sheet::Sheet;
use dl_desk::{FetchKey, LoadReply, Outcome};
use std::alloc::{AllocError, Global};

/// A picture with more batches than this shows counts of all keys.
pub(crate) const MOST_BATCHES: usize = 60;

/// What a line says next to its mark.
#[derive(Clone, Copy)]
pub(crate) enum Label<'a> {
    /// A key.
    Key(&'a FetchKey),
    /// A text.
    Text(&'a str),
    /// Words of the program.
    Words(Phrase),
    /// The same of whole batches.
    Batches(Phrase),
}

impl Label<'_> {
    /// Its text. Fails if memory runs out.
    pub(crate) fn text(self, alloc: Global) -> Result<String, AllocError> {
        let mut sheet = Sheet::new(alloc);
        match self {
            Label::Key(key) => {
                sheet.push(key.table());
                sheet.push("/");
                sheet.push(key.id());
            }
            Label::Text(text) => sheet.push(text),
            Label::Words(words) | Label::Batches(words) => sheet.push_phrase(words),
        }
        sheet.finish()
    }

    /// What a mark says of it.
    pub(crate) fn meaning(self, mark: Mark) -> &'static str {
        match (self, mark) {
            (Label::Batches(_), Mark::Failed) => "failed",
            _ => mark.meaning(),
        }
    }
}

/// A line of a column: its marks, what they are for, the batch that a fresh load's key went into, the text of an error,
/// whether the column shows that text below the line, and what a count without a text has texts of.
#[derive(Clone, Copy)]
pub(crate) struct Line<'a> {
    pub(crate) badges: Badges,
    pub(crate) label: Label<'a>,
    pub(crate) batch: Option<u32>,
    pub(crate) why: Option<&'a str>,
    shows_why: bool,
    pub(crate) others: &'a [Count<'a>],
}

/// A batch that ended, and the mark of its end.
#[derive(Clone, Copy)]
pub(crate) struct Ended {
    pub(crate) batch: u32,
    pub(crate) mark: Mark,
}

/// How many keys have these marks and this error, how many batches ended so, or how many calls were refused or steps have
/// faults.
#[derive(Clone, Copy)]
pub(crate) struct Count<'a> {
    pub(crate) badges: Badges,
    pub(crate) is_of_batches: bool,
    pub(crate) why: Option<&'a str>,
    pub(crate) count: usize,
}

/// The lines of a column. Each comes into being when it is drawn. They don't reach the history, since all of it would
/// then be part of each proof about them.
#[derive(Clone, Copy)]
pub(crate) enum Lines<'a> {
    /// A line for each load, by its key and its reply, and by what became of the cells if that is known.
    Loads {
        cells: &'a [Fate],
        keys: &'a [FetchKey],
        replies: &'a [LoadReply],
    },
    /// A line for each key that a prime stored, by what became of its cell if that is known.
    Primed {
        keys: &'a [FetchKey],
        fate: Option<&'a Fate>,
    },
    /// A line for each key, with one mark.
    Keys {
        keys: &'a [FetchKey],
        mark: Mark,
    },
    /// A line for each key of a settled batch, by its outcome.
    Settled {
        keys: &'a [FetchKey],
        outcomes: &'a [Outcome],
    },
    /// A line for each batch that a caller ended.
    Ended(&'a [Ended]),
    /// One line: why the call was refused.
    Refused(&'static str),
    /// A line for each fault in which a step ends.
    Faults(&'a [StepFault]),
    /// A line for each count, of which those without a text may be of others.
    Counts {
        counts: &'a [Count<'a>],
        others: &'a [Count<'a>],
    },
    /// The same, of what comes behind other lines.
    More {
        counts: &'a [Count<'a>],
        others: &'a [Count<'a>],
    },
}

/// No lines.
pub(crate) const NO_LINES: Lines<'static> = Lines::Counts {
    counts: &[],
    others: &[],
};

impl Count<'_> {
    /// Whether it counts the same as another.
    pub(crate) fn is_like(&self, other: &Count<'_>) -> bool {
        self.badges == other.badges
            && self.is_of_batches == other.is_of_batches
            && self.why == other.why
    }
}

impl<'a> Line<'a> {
    /// A line with this label alone.
    fn of(label: Label<'a>, badges: Badges) -> Line<'a> {
        Line {
            badges,
            label,
            batch: None,
            why: None,
            shows_why: false,
            others: &[],
        }
    }

    /// The text of another error that it counts, if this is one of those.
    pub(crate) fn text_of(&self, other: &Count<'a>) -> Option<&'a str> {
        if other.badges == self.badges {
            other.why
        } else {
            None
        }
    }

    /// The text that the column shows below it, if any.
    pub(crate) fn told(&self) -> Option<&'a str> {
        if self.shows_why { self.why } else { None }
    }

    /// The text of an error, which a count has too. The fault of a step is no error.
    pub(crate) fn error(&self) -> Option<&'a str> {
        match self.badges.mark {
            Mark::Fault => None,
            _ => self.why,
        }
    }

    /// How high it is, with that text.
    pub(crate) fn height(&self) -> u64 {
        match self.told() {
            Some(why) => LINE_HEIGHT.saturating_add(told_height(why)),
            None => LINE_HEIGHT,
        }
    }

    /// The line of a load, by what became of its cell if that is known.
    fn of_load(cells: &'a [Fate], key: &'a FetchKey, reply: LoadReply) -> Line<'a> {
        let (mark, cell, batch) = match reply {
            LoadReply::Fresh { cell, batch } => (Mark::Fresh, cell, Some(batch)),
            LoadReply::Hit(cell) => (Mark::Hit, cell, None),
        };
        let fate = cells.get(cell as usize);
        Line {
            batch,
            why: fate.and_then(|fate| fate.why()),
            ..Line::of(
                Label::Key(key),
                fate.map_or(Badges::of(mark), |fate| fate.badges(mark)),
            )
        }
    }

    /// The line of a key that a prime stored, by what became of its cell if that is known.
    fn of_primed(key: &'a FetchKey, fate: Option<&'a Fate>) -> Line<'a> {
        let badges = Badges {
            mark: Mark::Primed,
            is_primed: false,
            failure: fate.and_then(|fate| fate.failure()),
        };
        Line {
            why: fate.and_then(|fate| fate.why()),
            shows_why: true,
            ..Line::of(Label::Key(key), badges)
        }
    }

    /// The line of a key in a settled batch, by its outcome.
    fn of_settled(key: &'a FetchKey, outcome: &'a Outcome) -> Line<'a> {
        let mark = match outcome {
            Outcome::Value(_) => Mark::Settled,
            Outcome::KeyError(_) => Mark::KeyError,
            Outcome::BatchFailed(_) => Mark::Failed,
        };
        Line {
            why: why_of(outcome),
            shows_why: true,
            ..Line::of(Label::Key(key), Badges::of(mark))
        }
    }

    /// The line of a count, and what it may be of without a text.
    fn of_count(count: &Count<'a>, others: &'a [Count<'a>]) -> Line<'a> {
        let label = match count.badges.mark {
            _ if count.is_of_batches => {
                Label::Batches(Phrase::count(count.count, " batch", " batches"))
            }
            Mark::Refused => Label::Words(Phrase::count(count.count, " call", " calls")),
            _ => Label::Words(Phrase::count(count.count, " key", " keys")),
        };
        Line::counted(label, count, others)
    }

    /// The line of a count of what comes behind other lines, and what it may be of without a text.
    fn of_more(count: &Count<'a>, others: &'a [Count<'a>]) -> Line<'a> {
        let label = match count.badges.mark {
            _ if count.is_of_batches => {
                Label::Batches(Phrase::more(count.count, " more batch", " more batches"))
            }
            Mark::Fault => Label::Words(Phrase::more(count.count, " more step", " more steps")),
            _ => Label::Words(Phrase::more(count.count, " more key", " more keys")),
        };
        Line::counted(label, count, others)
    }

    /// A line of a count, with this label.
    fn counted(label: Label<'a>, count: &Count<'a>, others: &'a [Count<'a>]) -> Line<'a> {
        Line {
            why: count.why,
            shows_why: true,
            others: if count.why.is_some() || count.is_of_batches {
                &[]
            } else {
                others
            },
            ..Line::of(label, count.badges)
        }
    }

    /// The line of a fault in which a step ends.
    fn of_fault(fault: &'a StepFault) -> Line<'a> {
        Line {
            why: Some(fault.why.as_str()),
            shows_why: true,
            ..Line::of(Label::Text(fault.step.as_str()), Badges::of(Mark::Fault))
        }
    }

    /// The line of an ended batch.
    fn of_end(ended: &Ended) -> Line<'a> {
        let words = Phrase::Numbered("batch ", ended.batch as u64, "");
        Line::of(Label::Batches(words), Badges::of(ended.mark))
    }
}

impl<'a> Lines<'a> {
    /// How many lines there are.
    pub(crate) fn count(self) -> usize {
        match self {
            Lines::Loads { keys, .. }
            | Lines::Primed { keys, .. }
            | Lines::Keys { keys, .. }
            | Lines::Settled { keys, .. } => keys.len(),
            Lines::Ended(batches) => batches.len(),
            Lines::Refused(_) => 1,
            Lines::Faults(faults) => faults.len(),
            Lines::Counts { counts, .. } | Lines::More { counts, .. } => counts.len(),
        }
    }

    /// The first of them, as many as this at most, and the others. Loads, and what is no list, stay together.
    pub(crate) fn split_at(self, most: usize) -> (Lines<'a>, Lines<'a>) {
        match self {
            Lines::Keys { keys, mark } => {
                let (first, others) = split_at(keys, most);
                (
                    Lines::Keys { keys: first, mark },
                    Lines::Keys { keys: others, mark },
                )
            }
            Lines::Settled { keys, outcomes } => {
                let (first, others) = split_at(keys, most);
                let (own, left) = split_at(outcomes, most);
                (
                    Lines::Settled {
                        keys: first,
                        outcomes: own,
                    },
                    Lines::Settled {
                        keys: others,
                        outcomes: left,
                    },
                )
            }
            Lines::Ended(batches) => {
                let (first, others) = split_at(batches, most);
                (Lines::Ended(first), Lines::Ended(others))
            }
            Lines::Faults(faults) => {
                let (first, others) = split_at(faults, most);
                (Lines::Faults(first), Lines::Faults(others))
            }
            Lines::Loads { .. }
            | Lines::Primed { .. }
            | Lines::Refused(_)
            | Lines::Counts { .. }
            | Lines::More { .. } => (self, NO_LINES),
        }
    }

    /// The line in a place, if there is one.
    pub(crate) fn line(self, place: usize) -> Option<Line<'a>> {
        match self {
            Lines::Loads {
                cells,
                keys,
                replies,
            } => match (keys.get(place), replies.get(place)) {
                (Some(key), Some(reply)) => Some(Line::of_load(cells, key, *reply)),
                _ => None,
            },
            Lines::Primed { keys, fate } => match keys.get(place) {
                Some(key) => Some(Line::of_primed(key, fate)),
                None => None,
            },
            Lines::Keys { keys, mark } => match keys.get(place) {
                Some(key) => Some(Line::of(Label::Key(key), Badges::of(mark))),
                None => None,
            },
            Lines::Settled { keys, outcomes } => match (keys.get(place), outcomes.get(place)) {
                (Some(key), Some(outcome)) => Some(Line::of_settled(key, outcome)),
                _ => None,
            },
            Lines::Ended(batches) => match batches.get(place) {
                Some(ended) => Some(Line::of_end(ended)),
                None => None,
            },
            Lines::Refused(name) => Some(Line::of(
                Label::Words(Phrase::Words(name)),
                Badges::of(Mark::Refused),
            )),
            Lines::Faults(faults) => match faults.get(place) {
                Some(fault) => Some(Line::of_fault(fault)),
                None => None,
            },
            Lines::Counts { counts, others } => match counts.get(place) {
                Some(count) => Some(Line::of_count(count, others)),
                None => None,
            },
            Lines::More { counts, others } => match counts.get(place) {
                Some(count) => Some(Line::of_more(count, others)),
                None => None,
            },
        }
    }
}

/// The first items of a list, as many as this at most, and the others.
fn split_at<T>(items: &[T], most: usize) -> (&[T], &[T]) {
    items.split_at(most.min(items.len()))
}
