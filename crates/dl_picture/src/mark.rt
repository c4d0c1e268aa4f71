//! Marks: what became of a key in a call, or how a batch ended.

/// What became of a key in a call, that a batch is settled, or how a step ends.
#[derive(Clone, Copy, PartialEq, Eq)]
pub(crate) enum Mark {
    /// Its load began a cell.
    Fresh,
    /// Its load found it held.
    Hit,
    /// A prime began its cell.
    Primed,
    /// Its outcome is an error of its own.
    KeyError,
    /// Its batch failed.
    Failed,
    /// The call cleared it.
    Cleared,
    /// A prime found it held, and changed nothing.
    Kept,
    /// The call was refused.
    Refused,
    /// The batch is settled, and the key has a value.
    Settled,
    /// Its batch hasn't ended.
    Waiting,
    /// A step ends in a fault of its term's own form.
    Fault,
}

/// All marks, in the order in which the head explains them.
pub(crate) static MARKS: [Mark; 11] = [
    Mark::Fresh,
    Mark::Hit,
    Mark::Primed,
    Mark::KeyError,
    Mark::Failed,
    Mark::Cleared,
    Mark::Kept,
    Mark::Refused,
    Mark::Settled,
    Mark::Waiting,
    Mark::Fault,
];

/// The marks of a line: what its call did, and of a load whether a prime began the cell, and how the cell failed.
#[derive(Clone, Copy, PartialEq, Eq)]
pub(crate) struct Badges {
    pub(crate) mark: Mark,
    pub(crate) is_primed: bool,
    pub(crate) failure: Option<Mark>,
}

impl Badges {
    /// A mark alone.
    pub(crate) fn of(mark: Mark) -> Badges {
        Badges {
            mark,
            is_primed: false,
            failure: None,
        }
    }

    /// All of them, from left to right.
    pub(crate) fn marks(self) -> [Option<Mark>; 3] {
        let primed = if self.is_primed {
            Some(Mark::Primed)
        } else {
            None
        };
        [Some(self.mark), primed, self.failure]
    }
}

impl Mark {
    /// The letter in its badge.
    pub(crate) fn letter(self) -> &'static str {
        match self {
            Mark::Fresh => "F",
            Mark::Hit => "H",
            Mark::Primed => "P",
            Mark::KeyError => "E",
            Mark::Failed => "X",
            Mark::Cleared => "C",
            Mark::Kept => "K",
            Mark::Refused => "R",
            Mark::Settled => "S",
            Mark::Waiting => "W",
            Mark::Fault => "!",
        }
    }

    /// The class of its badge, which gives it its colour.
    pub(crate) fn class(self) -> &'static str {
        match self {
            Mark::Fresh => "fresh",
            Mark::Hit => "hit",
            Mark::Primed => "primed",
            Mark::KeyError => "error",
            Mark::Failed => "failed",
            Mark::Cleared => "cleared",
            Mark::Kept => "kept",
            Mark::Refused => "refused",
            Mark::Settled => "settled",
            Mark::Waiting => "waiting",
            Mark::Fault => "fault",
        }
    }

    /// What it means, in words.
    pub(crate) fn meaning(self) -> &'static str {
        match self {
            Mark::KeyError => "error of its key",
            Mark::Failed => "batch failed",
            Mark::Fault => "fault of a term",
            _ => self.class(),
        }
    }
}
