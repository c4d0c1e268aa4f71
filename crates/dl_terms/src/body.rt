//! What comes of an answer in a frame, and the first round of the copies of a body.

ghost use Rattle.std.specs.Prelude.{◌≡◌, Some, IfOk, OnOk};
ghost use Rattle.serde_json.specs.View.{items_of};
ghost use Rattle.dl_values.specs.Key.{key_eq};
ghost use Rattle.indexmap.specs.IndexSet.{insert_all};
ghost use Rattle.dl_terms.specs.Tree.{ended, over};
ghost use Rattle.dl_terms.specs.TermAnswers.{copy_waits, waits, waits_at, all_wait_at};
ghost use Rattle.dl_terms.specs.Asked.{known_of, pairs_of, wanted_of};
ghost use Rattle.dl_terms.specs.Node.{in_frame, joined_tree, joint_of, node_view, nodes_view, result_of};
ghost use Rattle.dl_terms.specs.Reduction.{Reduces};
ghost use Rattle.dl_terms.specs.View.{term_view, terms_view};
ghost use Rattle.dl_terms.specs.Inside.Exploration.{AllStandAt, CopiesStand, IsSettled, StandsAt, frame_waits};
ghost use Rattle.dl_terms.specs.declared.answer.Answer.TheVariants as answer;

use crate::answer::{Answer, EvalFault};
use crate::answer_value::AnswerValue;
use crate::asked::Asked;
use crate::field::{MOST_ITEMS, each, follow, pick};
use crate::joining::put_together;
use crate::node::{Frame, Join, Node};
use crate::room::{NODE_BYTES, take, take_copy, take_items};
use crate::target::load;
use crate::term::{Term, boxed_copy};
use std::alloc::{AllocError, Global};

/// What comes of a part's answer in a frame.
#[cycle(entering)]
pub(crate) fn go_on(
    alloc: Global,
    frame: Frame,
    answer: Answer,
    asked: &mut Asked<'_>,
) -> Result<Node, AllocError>
    ensures reduces { IfOk result (λ n. Reduces (known_of asked.old) (in_frame frame (ended answer)) (node_view n)) }
    ensures wanted { OnOk result (wanted_of asked.new
        ≡ insert_all key_eq (wanted_of asked.old) (waits (known_of asked.old) (in_frame frame (ended answer)))) }
    ensures pairs { OnOk result (pairs_of asked.new ≡ pairs_of asked.old) }
{
    match answer {
        Answer::Fault(fault) => Ok(Node::Done(Answer::Fault(fault))),
        Answer::Value(value) => match frame {
            Frame::Pick { field } => Ok(Node::Done(pick(alloc, &value, &field, asked)?)),
            Frame::Follow { field, table } => follow(alloc, &value, &field, &table, asked),
            Frame::Each { field, table } => each(alloc, &value, &field, &table, asked),
            Frame::Over { body } => go_over(alloc, &body, value, asked),
        },
    }
}

/// The copies of a body for the items of a value, after their first round.
#[cycle(entering)]
fn go_over(
    alloc: Global,
    body: &Term,
    value: AnswerValue,
    asked: &mut Asked<'_>,
) -> Result<Node, AllocError>
    ensures reduces { IfOk result (λ n.
        Reduces (known_of asked.old) (over (ended (answer.Value value)) (term_view body.now)) (node_view n)) }
    ensures wanted { OnOk result (wanted_of asked.new ≡ insert_all key_eq (wanted_of asked.old)
        (waits (known_of asked.old) (over (ended (answer.Value value)) (term_view body.now)))) }
    ensures pairs { OnOk result (pairs_of asked.new ≡ pairs_of asked.old) }
{
    take_items(asked.room(), &value)?;
    match value.into_items(alloc)? {
        None => Ok(Node::Done(Answer::Fault(EvalFault::NotAList))),
        Some(items) => {
            if items.len() > MOST_ITEMS {
                return Ok(Node::Done(Answer::Fault(EvalFault::TooMany)));
            }
            let copies = enter_copies(alloc, body, items.as_slice(), asked)?;
            put_together(alloc, copies, Join::List, asked.room())
        }
    }
}

/// The first round of a copy of the body for each item.
#[cycle(entering)]
fn enter_copies(
    alloc: Global,
    body: &Term,
    items: &[AnswerValue],
    asked: &mut Asked<'_>,
) -> Result<Vec<Node>, AllocError>
    ensures stand { IfOk result (λ ns.
        CopiesStand (known_of asked.old) (term_view body.now) (items_of items.now) (nodes_view ns.items)) }
    ensures wanted { OnOk result (wanted_of asked.new ≡ insert_all key_eq (wanted_of asked.old)
        (copy_waits (λ d. waits_at (known_of asked.old) (Some d) (term_view body.now)) (items_of items.now))) }
    ensures pairs { OnOk result (pairs_of asked.new ≡ pairs_of asked.old) }
{
    let mut copies = Vec::with_capacity(alloc, items.len())?;
    for item in items {
        copies.push(enter(alloc, body, item, asked)?)?;
    }
    Ok(copies)
}

/// The first round of a term in a body, for an item.
#[cycle(entering)]
fn enter(
    alloc: Global,
    term: &Term,
    item: &AnswerValue,
    asked: &mut Asked<'_>,
) -> Result<Node, AllocError>
    ensures stands { IfOk result (λ n. StandsAt (known_of asked.old) (Some item.now) (term_view term.now) (node_view n)) }
    ensures wanted { OnOk result (wanted_of asked.new ≡ insert_all key_eq (wanted_of asked.old)
        (waits_at (known_of asked.old) (Some item.now) (term_view term.now))) }
    ensures pairs { OnOk result (pairs_of asked.new ≡ pairs_of asked.old) }
{
    take(asked.room(), NODE_BYTES)?;
    match term {
        Term::Value(value) => {
            let value = AnswerValue::row(value.try_copy()?);
            Ok(Node::Done(Answer::Value(value)))
        }
        Term::Load(key) => load(key.try_copy()?, asked),
        Term::Item => {
            take_copy(asked.room(), item)?;
            let value = AnswerValue::row(item.to_json(alloc)?);
            Ok(Node::Done(Answer::Value(value)))
        }
        Term::Pick { part, field } => {
            if part.is_item() {
                return Ok(Node::Done(pick(alloc, item, field, asked)?));
            }
            let field = field.try_copy()?;
            enter_part(alloc, part, Frame::Pick { field }, item, asked)
        }
        Term::Follow { part, field, table } => {
            if part.is_item() {
                return follow(alloc, item, field, table, asked);
            }
            let (field, table) = (field.try_copy()?, table.try_copy()?);
            enter_part(alloc, part, Frame::Follow { field, table }, item, asked)
        }
        Term::Each { part, field, table } => {
            if part.is_item() {
                return each(alloc, item, field, table, asked);
            }
            let (field, table) = (field.try_copy()?, table.try_copy()?);
            enter_part(alloc, part, Frame::Each { field, table }, item, asked)
        }
        Term::Over { part, body } => {
            let body = boxed_copy(alloc, asked.room(), body)?;
            enter_part(alloc, part, Frame::Over { body }, item, asked)
        }
        Term::All(parts) => enter_parts(alloc, parts, Join::List, item, asked),
        Term::Object { names, parts } => {
            let by = Join::Object(names.try_copy()?);
            enter_parts(alloc, parts, by, item, asked)
        }
    }
}

/// The first round of a part in a body, and of its frame once the part has ended.
#[cycle(entering)]
fn enter_part(
    alloc: Global,
    part: &Term,
    frame: Frame,
    item: &AnswerValue,
    asked: &mut Asked<'_>,
) -> Result<Node, AllocError>
    ensures stands { IfOk result (λ n.
        StandsAt (known_of asked.old) (Some item.now) (in_frame frame (term_view part.now)) (node_view n)) }
    ensures wanted { OnOk result (wanted_of asked.new ≡ insert_all key_eq (wanted_of asked.old)
        (waits_at (known_of asked.old) (Some item.now) (in_frame frame (term_view part.now)))) }
    ensures pairs { OnOk result (pairs_of asked.new ≡ pairs_of asked.old) }
{
    let part = enter(alloc, part, item, asked)?;
    go_in(alloc, part, frame, asked)
}

/// A part, after a round of it, in a frame: what comes of its answer if it has ended.
#[cycle(entering)]
fn go_in(alloc: Global, part: Node, frame: Frame, asked: &mut Asked<'_>) -> Result<Node, AllocError>
    requires { IsSettled (known_of asked.old) (node_view part) }
    ensures reduces { IfOk result (λ n. Reduces (known_of asked.old) (in_frame frame (node_view part)) (node_view n)) }
    ensures wanted { OnOk result (wanted_of asked.new ≡ insert_all key_eq (wanted_of asked.old)
        (frame_waits (known_of asked.old) frame (result_of (node_view part)))) }
    ensures pairs { OnOk result (pairs_of asked.new ≡ pairs_of asked.old) }
{
    let mut part = part;
    if let Some(answer) = part.take_answer() {
        return go_on(alloc, frame, answer, asked);
    }
    let part = Box::new(alloc, part)?;
    let mut frames = Vec::with_capacity(alloc, 1)?;
    frames.push_reserved(frame);
    Ok(Node::Chain { part, frames })
}

/// The first round of parts in a body, and what they answer together once all have ended.
#[cycle(entering)]
fn enter_parts(
    alloc: Global,
    parts: &Vec<Term>,
    by: Join,
    item: &AnswerValue,
    asked: &mut Asked<'_>,
) -> Result<Node, AllocError>
    ensures stands { IfOk result (λ n.
        StandsAt (known_of asked.old) (Some item.now) (joined_tree (joint_of by) (terms_view parts.now.items)) (node_view n)) }
    ensures wanted { OnOk result (wanted_of asked.new ≡ insert_all key_eq (wanted_of asked.old)
        (all_wait_at (known_of asked.old) (Some item.now) (terms_view parts.now.items))) }
    ensures pairs { OnOk result (pairs_of asked.new ≡ pairs_of asked.old) }
{
    let nodes = enter_all(alloc, parts, item, asked)?;
    put_together(alloc, nodes, by, asked.room())
}

#[cycle(entering)]
fn enter_all(
    alloc: Global,
    parts: &Vec<Term>,
    item: &AnswerValue,
    asked: &mut Asked<'_>,
) -> Result<Vec<Node>, AllocError>
    ensures stand { IfOk result (λ ns.
        AllStandAt (known_of asked.old) (Some item.now) (terms_view parts.now.items) (nodes_view ns.items)) }
    ensures wanted { OnOk result (wanted_of asked.new ≡ insert_all key_eq (wanted_of asked.old)
        (all_wait_at (known_of asked.old) (Some item.now) (terms_view parts.now.items))) }
    ensures pairs { OnOk result (pairs_of asked.new ≡ pairs_of asked.old) }
{
    let mut nodes = Vec::with_capacity(alloc, parts.len())?;
    for part in parts {
        nodes.push(enter(alloc, part, item, asked)?)?;
    }
    Ok(nodes)
}
