//! What is left of a term while you load its keys.

ghost use Rattle.std.specs.Prelude.{◌≡◌, ◌-◌, ◌^◌, min, None, IfOk, is_some};
ghost use Rattle.dl_terms.specs.View.{term_view, terms_view};
ghost use Rattle.dl_terms.specs.Node.{framed, frames_around, node_view, nodes_view, result_of};

use crate::answer::{Answer, EvalFault};
use crate::answer_value::AnswerValue;
use crate::names::Names;
use crate::term::Term;
use dl_values::{FetchKey, Text};
use std::alloc::{AllocError, Global};
use std::mem;

/// What is left of a term, with the answers of the parts that have ended. [`unexplored`] makes one, and
/// [`explore`](crate::explore) rewrites it in place, once a round.
#[derive(Drop)]
pub enum Node {
    /// It has ended.
    Done(Answer),
    /// The load of a key, and its place among the keys that the run asked for, if it did.
    Load { key: FetchKey, place: usize },
    /// What the frames make of the part's answer, one after the other. The last frame is the innermost.
    Chain { part: Box<Node>, frames: Vec<Frame> },
    /// What the parts answer together.
    Parts { parts: Vec<Node>, by: Join },
    /// An item in no body.
    Item,
}

/// How the values of parts come together.
#[derive(Drop)]
pub enum Join {
    /// As a list.
    List,
    /// As an object, with these names.
    Object(Names),
}

/// What to make of the answer of a part.
#[derive(Drop)]
pub enum Frame {
    /// Its field.
    Pick { field: Text },
    /// The load of the id in its field.
    Follow { field: Text, table: Text },
    /// The loads of the ids that its field lists.
    Each { field: Text, table: Text },
    /// What the body gives for each of its items.
    Over { body: Box<Term> },
}

/// Fills a node's place while the node changes.
pub(crate) const HOLLOW: Node = Node::Done(Answer::Fault(EvalFault::NoField));

impl Node {
    /// Moves the answer out of a node that has ended. Returns `None` if it hasn't, and then changes nothing.
    pub fn take_answer(&mut self) -> Option<Answer>
        ensures answer { result ≡ result_of (node_view self.old) }
        ensures kept { result ≡ None → self.new ≡ self.old }
    {
        if self.has_ended() {
            mem::replace(self, HOLLOW).into_answer()
        } else {
            None
        }
    }

    /// The answer, if the node has ended.
    pub fn into_answer(self) -> Option<Answer>
        ensures { result ≡ result_of (node_view self) }
    {
        match self {
            Node::Done(answer) => Some(answer),
            Node::Chain { part, frames } => {
                if frames.is_empty() {
                    Box::into_inner(part).into_answer()
                } else {
                    None
                }
            }
            Node::Load { .. } | Node::Parts { .. } | Node::Item => None,
        }
    }

    /// Whether the node has ended, so that it is an answer.
    pub fn has_ended(&self) -> bool
        ensures { result ≡ is_some (result_of (node_view self.now)) }
    {
        match self {
            Node::Done(_) => true,
            Node::Chain { part, frames } => frames.is_empty() && part.has_ended(),
            Node::Load { .. } | Node::Parts { .. } | Node::Item => false,
        }
    }
}

/// The node of a term before its first round.
///
/// # Errors
/// `AllocError` if memory runs out.
#[cycle(making)]
pub fn unexplored(alloc: Global, term: Term) -> Result<Node, AllocError>
    ensures { IfOk result (λ n. node_view n ≡ term_view term) }
{
    let mut frames = Vec::with_capacity(alloc, count_frames(&term))?;
    let mut term = term;
    let part = loop {
        let (frame, part) = match term {
            Term::Value(value) => break Node::Done(Answer::Value(AnswerValue::row(value))),
            Term::Load(key) => break Node::Load { key, place: 0 },
            Term::All(parts) => {
                let parts = unexplored_all(alloc, parts)?;
                let by = Join::List;
                break Node::Parts { parts, by };
            }
            Term::Object { names, parts } => {
                let parts = unexplored_all(alloc, parts)?;
                let by = Join::Object(names);
                break Node::Parts { parts, by };
            }
            Term::Item => break Node::Item,
            Term::Pick { part, field } => (Frame::Pick { field }, part),
            Term::Follow { part, field, table } => (Frame::Follow { field, table }, part),
            Term::Each { part, field, table } => (Frame::Each { field, table }, part),
            Term::Over { part, body } => (Frame::Over { body }, part),
        };
        frames.push(frame)?;
        term = Box::into_inner(part);
    };
    in_frames(alloc, part, frames)
}

/// How many frames the innermost part of the term lies in.
fn count_frames(term: &Term) -> usize
    ensures { result ≡ min (frames_around (term_view term.now)) (2 ^ 64 - 1) }
{
    let mut count: usize = 0;
    let mut term = term;
    loop {
        term = match term {
            Term::Pick { part, .. }
            | Term::Follow { part, .. }
            | Term::Each { part, .. }
            | Term::Over { part, .. } => part,
            Term::Value(_) | Term::Load(_) | Term::All(_) | Term::Item | Term::Object { .. } =>
                return count,
        };
        count = count.saturating_add(1);
    }
}

/// A part, put into frames.
fn in_frames(alloc: Global, part: Node, frames: Vec<Frame>) -> Result<Node, AllocError>
    ensures { IfOk result (λ n. node_view n ≡ framed frames.items (node_view part)) }
{
    if frames.is_empty() {
        return Ok(part);
    }
    let part = Box::new(alloc, part)?;
    Ok(Node::Chain { part, frames })
}

// Inlined, so that lists inside one another take one call less for each.
#[cycle(making)]
#[inline(always)]
fn unexplored_all(alloc: Global, parts: Vec<Term>) -> Result<Vec<Node>, AllocError>
    ensures { IfOk result (λ ns. nodes_view ns.items ≡ terms_view parts.items) }
{
    let mut nodes = Vec::with_capacity(alloc, parts.len())?;
    for part in parts {
        nodes.push(unexplored(alloc, part)?)?;
    }
    Ok(nodes)
}
