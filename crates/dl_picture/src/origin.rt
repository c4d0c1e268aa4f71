//! Where the fault of a term comes from.

ghost use Rattle.std.specs.Prelude.{◌≡◌, ◌∷◌, [], ℕ, Option, Some, IfOk, reverse};
ghost use Rattle.dl_values.specs.Key.{Key};
ghost use Rattle.dl_values.specs.declared.outcome.Outcome.{Outcome};
ghost use Rattle.dl_picture.specs.FaultPath.{ComesFrom, IsLeftmost, IsOf};
ghost use Rattle.dl_terms.specs.Tree.{Tree};
ghost use Rattle.dl_terms.specs.TermAnswers.{answer};
ghost use Rattle.dl_terms.specs.declared.answer.Answer.TheVariants.{Fault};

use dl_terms::{AnswerValue, EvalFault, Term};
use serde_json::Value;
use std::alloc::{AllocError, Global};

/// What the part met from which a fault comes.
#[derive(Drop)]
pub enum Met {
    /// The outcome of its key, which the fault has.
    Outcome,
    /// The value of its own part, which doesn't have the field or is no list to go over.
    Whole(AnswerValue),
    /// The value of that field.
    Field(Value),
    /// An item of the list in that field, by its place from 0.
    Item(usize, Value),
    /// Nothing: it is an item in the body of no `Over`.
    Nothing,
}

/// A step from a term into one of its parts.
#[derive(Clone, Copy)]
pub struct PathStep<'t> {
    /// The term.
    pub term: &'t Term,
    /// The number of the part, from 0. Those of an `Over` are its part and, from 1 on, the copies of its body for each item.
    pub part: usize,
}

/// Where the fault of a term comes from: the leftmost part that has the fault and whose own parts have values.
#[derive(Drop)]
pub struct Origin<'t> {
    /// The steps from the term to the part, the last one first.
    pub path: Vec<PathStep<'t>>,
    /// The part.
    pub part: &'t Term,
    /// The fault.
    pub fault: EvalFault,
    /// What the part met.
    pub met: Met,
}

/// What a term ends with: its value, or where its fault comes from.
pub(crate) type Ending<'t> = Result<AnswerValue, Origin<'t>>;

impl<'t> Origin<'t> {
    /// A fault of the term's own.
    pub(crate) fn own(alloc: Global, term: &'t Term, fault: EvalFault, met: Met) -> Origin<'t>
        ensures path { result.path.items ≡ [] }
        ensures part { result.part.now ≡ term.now }
        ensures fault { result.fault ≡ fault }
        ensures met { result.met ≡ met }
    {
        Origin {
            path: Vec::new(alloc),
            part: term,
            fault,
            met,
        }
    }

    /// The origin of a term's fault that comes from its part of this number. Fails if memory runs out.
    pub(crate) fn above(mut self, term: &'t Term, part: usize) -> Result<Origin<'t>, AllocError>
        ensures { (known : Key → Option Outcome) (t q : Tree) → IsOf t term.now → ComesFrom known q self.entry → IsLeftmost known t part q
            → answer known t ≡ Some (Fault self.entry.fault) → IfOk result (ComesFrom known t) }
    {
        self.path.push(PathStep { term, part })?;
        Ok(self)
    }
}
