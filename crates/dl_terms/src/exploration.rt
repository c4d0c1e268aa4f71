//! Exploring what is left of a term.

ghost use Rattle.std.specs.Prelude.{◌≡◌, IfOk, OnOk};
ghost use Rattle.dl_values.specs.Key.{key_eq};
ghost use Rattle.indexmap.specs.IndexSet.{insert_all};
ghost use Rattle.dl_terms.specs.TermAnswers.{waits, all_wait};
ghost use Rattle.dl_terms.specs.Asked.{known_of, pairs_of, wanted_of};
ghost use Rattle.dl_terms.specs.Node.{framed, joined_tree, joint_of, node_view, nodes_view};
ghost use Rattle.dl_terms.specs.Reduction.{Reduces};
ghost use Rattle.dl_terms.specs.Inside.Exploration.{Becomes, ReduceAll};

use crate::answer::{Answer, EvalFault};
use crate::asked::Asked;
use crate::body::go_on;
use crate::joining::{answer_all, have_ended};
use crate::node::{Frame, HOLLOW, Join, Node};
use crate::target::load_again;
use std::alloc::{AllocError, Global};
use std::mem;

/// One round: takes the node as far as the known outcomes reach, in place, and asks for each key that it then waits
/// for, left to right. The node has ended exactly if it waits for none. Between two rounds, hand in the outcomes of all
/// the keys that it wants.
///
/// # Errors
/// `AllocError` if memory runs out. The node is then of no more use.
#[cycle(exploring)]
pub fn explore(alloc: Global, node: &mut Node, asked: &mut Asked<'_>) -> Result<(), AllocError>
    ensures reduces { OnOk result (Reduces (known_of asked.old) (node_view node.old) (node_view node.new)) }
    ensures wanted { OnOk result (wanted_of asked.new
        ≡ insert_all key_eq (wanted_of asked.old) (waits (known_of asked.old) (node_view node.old))) }
    ensures pairs { OnOk result (pairs_of asked.new ≡ pairs_of asked.old) }
{
    if let Some(next) = explore_inside(alloc, node, asked)? {
        // An assignment would spell out here how each form of the old node is let go.
        drop(mem::replace(node, next));
    }
    Ok(())
}

/// A round of the node in its place. If it becomes another node, you get that one, and what is left in the place is of
/// no use.
#[cycle(exploring)]
fn explore_inside(
    alloc: Global,
    node: &mut Node,
    asked: &mut Asked<'_>,
) -> Result<Option<Node>, AllocError>
    ensures becomes { IfOk result (Becomes (known_of asked.old) (node_view node.old) (node_view node.new)) }
    ensures wanted { OnOk result (wanted_of asked.new
        ≡ insert_all key_eq (wanted_of asked.old) (waits (known_of asked.old) (node_view node.old))) }
    ensures pairs { OnOk result (pairs_of asked.new ≡ pairs_of asked.old) }
{
    match node {
        Node::Done(_) => Ok(None),
        Node::Load { key, place } => Ok(Some(load_again(key, *place, asked)?)),
        Node::Chain { part, frames } => explore_chain(alloc, part, frames, asked),
        Node::Parts { parts, by } => explore_parts(alloc, parts, by, asked),
        Node::Item => Ok(Some(Node::Done(Answer::Fault(EvalFault::NoItem)))),
    }
}

/// A round of a part in frames. Once no frame is left, the node becomes the part.
#[cycle(exploring)]
fn explore_chain(
    alloc: Global,
    part: &mut Node,
    frames: &mut Vec<Frame>,
    asked: &mut Asked<'_>,
) -> Result<Option<Node>, AllocError>
    ensures becomes { IfOk result (Becomes (known_of asked.old)
        (framed frames.old.items (node_view part.old)) (framed frames.new.items (node_view part.new))) }
    ensures wanted { OnOk result (wanted_of asked.new
        ≡ insert_all key_eq (wanted_of asked.old) (waits (known_of asked.old) (framed frames.old.items (node_view part.old)))) }
    ensures pairs { OnOk result (pairs_of asked.new ≡ pairs_of asked.old) }
{
    climb(alloc, part, frames, asked)?;
    if frames.is_empty() {
        return Ok(Some(mem::replace(part, HOLLOW)));
    }
    Ok(None)
}

/// Explores a part, and takes its answer out through the frames, until it has to wait or no frame is left.
#[cycle(exploring)]
fn climb(
    alloc: Global,
    part: &mut Node,
    frames: &mut Vec<Frame>,
    asked: &mut Asked<'_>,
) -> Result<(), AllocError>
    ensures reduces { OnOk result (Reduces (known_of asked.old)
        (framed frames.old.items (node_view part.old)) (framed frames.new.items (node_view part.new))) }
    ensures wanted { OnOk result (wanted_of asked.new
        ≡ insert_all key_eq (wanted_of asked.old) (waits (known_of asked.old) (framed frames.old.items (node_view part.old)))) }
    ensures pairs { OnOk result (pairs_of asked.new ≡ pairs_of asked.old) }
{
    explore(alloc, part, asked)?;
    while let Some(answer) = part.take_answer() {
        let Some(frame) = frames.pop() else {
            drop(mem::replace(part, Node::Done(answer)));
            return Ok(());
        };
        let next = go_on(alloc, frame, answer, asked)?;
        drop(mem::replace(part, next));
    }
    Ok(())
}

/// A round of parts. Once all of them have ended they become what they answer together.
#[cycle(exploring)]
fn explore_parts(
    alloc: Global,
    parts: &mut Vec<Node>,
    by: &Join,
    asked: &mut Asked<'_>,
) -> Result<Option<Node>, AllocError>
    ensures becomes { IfOk result (Becomes (known_of asked.old)
        (joined_tree (joint_of by.now) (nodes_view parts.old.items)) (joined_tree (joint_of by.now) (nodes_view parts.new.items))) }
    ensures wanted { OnOk result (wanted_of asked.new
        ≡ insert_all key_eq (wanted_of asked.old) (waits (known_of asked.old) (joined_tree (joint_of by.now) (nodes_view parts.old.items)))) }
    ensures pairs { OnOk result (pairs_of asked.new ≡ pairs_of asked.old) }
{
    explore_all(alloc, parts, asked)?;
    if !have_ended(parts.as_slice()) {
        return Ok(None);
    }
    let parts = mem::replace(parts, Vec::new(alloc));
    Ok(Some(Node::Done(answer_all(alloc, parts, by, asked.room())?)))
}

#[cycle(exploring)]
fn explore_all(
    alloc: Global,
    parts: &mut Vec<Node>,
    asked: &mut Asked<'_>,
) -> Result<(), AllocError>
    ensures reduce { OnOk result (ReduceAll (known_of asked.old) (nodes_view parts.old.items) (nodes_view parts.new.items)) }
    ensures wanted { OnOk result (wanted_of asked.new
        ≡ insert_all key_eq (wanted_of asked.old) (all_wait (known_of asked.old) (nodes_view parts.old.items))) }
    ensures pairs { OnOk result (pairs_of asked.new ≡ pairs_of asked.old) }
{
    for place in 0..parts.len() {
        explore(alloc, &mut parts[place], asked)?;
    }
    Ok(())
}
