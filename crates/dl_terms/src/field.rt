//! What comes of the field of a value.

ghost use Rattle.std.specs.Prelude.{◌≡◌, IfOk, OnOk};
ghost use Rattle.serde_json.specs.View.{view};
ghost use Rattle.dl_values.specs.Key.{key_eq};
ghost use Rattle.indexmap.specs.IndexSet.{insert_all};
ghost use Rattle.dl_terms.specs.TermAnswers.{picked, target_in, target_waits, targets_in, targets_waits};
ghost use Rattle.dl_terms.specs.Asked.{known_of, pairs_of, wanted_of};
ghost use Rattle.dl_terms.specs.Node.{node_view};
ghost use Rattle.dl_terms.specs.Inside.Exploration.{LoadsTarget, LoadsTargets};
ghost use Rattle.dl_terms.specs.declared.answer.Answer.TheVariants as answer;

use crate::answer::{Answer, EvalFault};
use crate::answer_value::AnswerValue;
use crate::asked::Asked;
use crate::joining::put_together;
use crate::node::{Join, Node};
use crate::room::{take_lent, take_member};
use crate::target::{load_id, load_ids};
use dl_values::Text;
use serde_json::Value;
use std::alloc::{AllocError, Global};

/// The most items of a list of ids, or of items to go over.
pub(crate) const MOST_ITEMS: usize = 1_024;

/// The field of a value, or why it has none.
///
/// # Errors
/// `AllocError` if memory runs out, or if a reference count would overflow.
pub fn pick_value(alloc: Global, value: &AnswerValue, field: &Text) -> Result<Answer, AllocError>
    ensures { IfOk result (λ a. a ≡ picked field.now (answer.Value value.now)) }
{
    match value.member(alloc, field.as_str())? {
        None => Ok(Answer::Fault(EvalFault::NoField)),
        Some(part) => Ok(Answer::Value(AnswerValue::row(part))),
    }
}

/// The field of a value, or why it has none, if there is room for its copy.
pub(crate) fn pick(
    alloc: Global,
    value: &AnswerValue,
    field: &Text,
    asked: &Asked<'_>,
) -> Result<Answer, AllocError>
    ensures { IfOk result (λ a. a ≡ picked field.now (answer.Value value.now)) }
{
    take_member(asked.room(), value, field)?;
    pick_value(alloc, value, field)
}

/// The load of the id in the field of a value.
pub(crate) fn follow(
    alloc: Global,
    value: &AnswerValue,
    field: &Text,
    table: &Text,
    asked: &mut Asked<'_>,
) -> Result<Node, AllocError>
    ensures stands { IfOk result (λ n. LoadsTarget (known_of asked.old)
        (target_in table.now (picked field.now (answer.Value value.now))) (node_view n)) }
    ensures wanted { OnOk result (wanted_of asked.new ≡ insert_all key_eq (wanted_of asked.old)
        (target_waits (known_of asked.old) (target_in table.now (picked field.now (answer.Value value.now))))) }
    ensures pairs { OnOk result (pairs_of asked.new ≡ pairs_of asked.old) }
{
    take_lent(asked.room(), value, field)?;
    let member = value.get(alloc, field.as_str())?;
    match member.value() {
        None => Ok(Node::Done(Answer::Fault(EvalFault::NoField))),
        Some(id) => load_id(alloc, table, id, asked),
    }
}

/// The loads of the ids that the field of a value lists.
pub(crate) fn each(
    alloc: Global,
    value: &AnswerValue,
    field: &Text,
    table: &Text,
    asked: &mut Asked<'_>,
) -> Result<Node, AllocError>
    ensures stands { IfOk result (λ n. LoadsTargets (known_of asked.old)
        (targets_in table.now (picked field.now (answer.Value value.now))) (node_view n)) }
    ensures wanted { OnOk result (wanted_of asked.new ≡ insert_all key_eq (wanted_of asked.old)
        (targets_waits (known_of asked.old) (targets_in table.now (picked field.now (answer.Value value.now))))) }
    ensures pairs { OnOk result (pairs_of asked.new ≡ pairs_of asked.old) }
{
    take_lent(asked.room(), value, field)?;
    let member = value.get(alloc, field.as_str())?;
    match member.value() {
        None => Ok(Node::Done(Answer::Fault(EvalFault::NoField))),
        Some(ids) => load_list(alloc, table, ids, asked),
    }
}

/// The loads of the ids that a value lists in a table.
fn load_list(
    alloc: Global,
    table: &Text,
    ids: &Value,
    asked: &mut Asked<'_>,
) -> Result<Node, AllocError>
    ensures stands { IfOk result (λ n. LoadsTargets (known_of asked.old)
        (targets_in table.now (answer.Value (view ids.now))) (node_view n)) }
    ensures wanted { OnOk result (wanted_of asked.new ≡ insert_all key_eq (wanted_of asked.old)
        (targets_waits (known_of asked.old) (targets_in table.now (answer.Value (view ids.now))))) }
    ensures pairs { OnOk result (pairs_of asked.new ≡ pairs_of asked.old) }
{
    match ids.as_array() {
        None => Ok(Node::Done(Answer::Fault(EvalFault::NotAList))),
        Some(ids) => {
            if ids.len() > MOST_ITEMS {
                return Ok(Node::Done(Answer::Fault(EvalFault::TooMany)));
            }
            let nodes = load_ids(alloc, table, ids.as_slice(), asked)?;
            put_together(alloc, nodes, Join::List, asked.room())
        }
    }
}
