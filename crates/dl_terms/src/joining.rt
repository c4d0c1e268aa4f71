//! What parts answer together.

ghost use Rattle.std.specs.Prelude.{◌≡◌, Some, IfOk, IsSome, is_some, option_map};
ghost use Rattle.std.specs.List.{list_all};
ghost use Rattle.serde_json.specs.View.{items_of};
ghost use Rattle.dl_terms.specs.TermAnswers.{joined, joined_data};
ghost use Rattle.dl_terms.specs.Node.{joint_of, node_view, nodes_view, result_of, results_of};
ghost use Rattle.dl_terms.specs.Inside.Exploration.{JoinsOn};

use crate::answer::Answer;
use crate::answer_value::AnswerValue;
use crate::node::{Join, Node};
use crate::room::{Room, take_values};
use std::alloc::{AllocError, Global};

/// What parts answer together after a round of each, if all have ended.
pub(crate) fn put_together(
    alloc: Global,
    parts: Vec<Node>,
    by: Join,
    room: Option<&Room>,
) -> Result<Node, AllocError>
    ensures { IfOk result (λ n. JoinsOn (joint_of by) (nodes_view parts.items) (node_view n)) }
{
    if have_ended(parts.as_slice()) {
        Ok(Node::Done(answer_all(alloc, parts, &by, room)?))
    } else {
        Ok(Node::Parts { parts, by })
    }
}

/// Whether all the parts have ended.
pub(crate) fn have_ended(parts: &[Node]) -> bool
    ensures { result ≡ list_all (λ n. is_some (result_of (node_view n))) parts.now }
{
    parts.iter().all(|part| part.has_ended())
}

/// What parts answer together once all have ended.
pub(crate) fn answer_all(
    alloc: Global,
    parts: Vec<Node>,
    by: &Join,
    room: Option<&Room>,
) -> Result<Answer, AllocError>
    requires { IsSome (results_of (nodes_view parts.items)) }
    ensures { IfOk result (λ a. option_map (joined (joint_of by.now)) (results_of (nodes_view parts.items)) ≡ Some a) }
{
    let mut values = Vec::with_capacity(alloc, parts.len())?;
    for part in parts {
        match part.into_answer() {
            Some(Answer::Value(value)) => values.push(value)?,
            Some(Answer::Fault(fault)) => return Ok(Answer::Fault(fault)),
            None => unreachable!(),
        }
    }
    Ok(Answer::Value(join_values(alloc, values, by, room)?))
}

/// The values, joined to one, if there is room for what that copies.
fn join_values(
    alloc: Global,
    values: Vec<AnswerValue>,
    by: &Join,
    room: Option<&Room>,
) -> Result<AnswerValue, AllocError>
    ensures { IfOk result (λ v. v ≡ joined_data (joint_of by.now) (items_of values.items)) }
{
    match by {
        Join::List => Ok(AnswerValue::list(values)),
        Join::Object(names) => {
            take_values(room, names, values.as_slice())?;
            AnswerValue::object(alloc, names, values)
        }
    }
}
