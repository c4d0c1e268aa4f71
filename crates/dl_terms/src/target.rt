//! The loads that a term makes of values and keys.

ghost use Rattle.std.specs.Prelude.{◌≡◌, IfOk, OnOk};
ghost use Rattle.serde_json.specs.View.{view, items_view};
ghost use Rattle.dl_values.specs.Key.{key_eq};
ghost use Rattle.indexmap.specs.IndexSet.{insert_all};
ghost use Rattle.dl_terms.specs.TermAnswers.{loaded, value_target, target_waits, item_targets, each_target_waits, load_waits, Target};
ghost use Rattle.dl_terms.specs.Asked.{known_of, pairs_of, wanted_of};
ghost use Rattle.dl_terms.specs.Node.{node_view, nodes_view};
ghost use Rattle.dl_terms.specs.Inside.Exploration.{LoadsTarget, LoadsEach, target_of};

use crate::answer::{Answer, EvalFault};
use crate::answer_value::AnswerValue;
use crate::asked::Asked;
use crate::node::Node;
use crate::room::take_nodes;
use dl_values::{FetchKey, KeyFault, Outcome, Text};
use serde_json::Value;
use std::alloc::{AllocError, Global};

/// What a load of the key answers.
///
/// # Errors
/// `AllocError` if memory runs out, or if a reference count would overflow.
pub fn loaded(key: &FetchKey, outcome: &Outcome) -> Result<Answer, AllocError>
    ensures { IfOk result (λ a. a ≡ loaded key.now outcome.now) }
{
    match outcome {
        Outcome::Value(row) => Ok(Answer::Value(AnswerValue::row(row.try_copy()?))),
        Outcome::KeyError(text) => {
            let (key, text) = (key.try_copy()?, text.try_copy()?);
            Ok(Answer::Fault(EvalFault::Key { key, text }))
        }
        Outcome::BatchFailed(fault) => {
            let (key, fault) = (key.try_copy()?, fault.try_copy()?);
            Ok(Answer::Fault(EvalFault::Batch { key, fault }))
        }
    }
}

/// The load of a key: its answer, if the key has an outcome. Else the run wants the key.
pub(crate) fn load(key: FetchKey, asked: &mut Asked<'_>) -> Result<Node, AllocError>
    ensures stands { IfOk result (λ n. LoadsTarget (known_of asked.old) (Target.key key) (node_view n)) }
    ensures wanted { OnOk result (wanted_of asked.new
        ≡ insert_all key_eq (wanted_of asked.old) (load_waits (known_of asked.old) key)) }
    ensures pairs { OnOk result (pairs_of asked.new ≡ pairs_of asked.old) }
{
    let (place, outcome) = asked.ask(&key)?;
    match outcome {
        Some(outcome) => Ok(Node::Done(loaded(&key, outcome)?)),
        None => Ok(Node::Load { key, place }),
    }
}

/// The load of a key that has this place among those asked for, or that the run hasn't asked for yet.
pub(crate) fn load_again(
    key: &FetchKey,
    place: usize,
    asked: &mut Asked<'_>,
) -> Result<Node, AllocError>
    ensures stands { IfOk result (λ n. LoadsTarget (known_of asked.old) (Target.key key.now) (node_view n)) }
    ensures wanted { OnOk result (wanted_of asked.new
        ≡ insert_all key_eq (wanted_of asked.old) (load_waits (known_of asked.old) key.now)) }
    ensures pairs { OnOk result (pairs_of asked.new ≡ pairs_of asked.old) }
{
    match asked.outcome_at(place, key) {
        Some(outcome) => Ok(Node::Done(loaded(key, outcome)?)),
        None => load(key.try_copy()?, asked),
    }
}

/// The key that a value names in a table, if the value is an id.
fn key_in(alloc: Global, table: &Text, id: &Value) -> Result<Option<FetchKey>, AllocError>
    ensures { IfOk result (λ k. target_of k ≡ value_target table.now (view id.now)) }
{
    match id.as_str() {
        None => Ok(None),
        Some(id) => match FetchKey::new(alloc, table.as_str(), id) {
            Ok(key) => Ok(Some(key)),
            Err(KeyFault::OutOfMemory) => Err(AllocError),
            Err(
                KeyFault::EmptyTable
                | KeyFault::TableTooLong
                | KeyFault::EmptyId
                | KeyFault::IdTooLong,
            ) => Ok(None),
        },
    }
}

/// The load of a value as an id of a table.
pub(crate) fn load_id(
    alloc: Global,
    table: &Text,
    id: &Value,
    asked: &mut Asked<'_>,
) -> Result<Node, AllocError>
    ensures stands { IfOk result (λ n.
        LoadsTarget (known_of asked.old) (value_target table.now (view id.now)) (node_view n)) }
    ensures wanted { OnOk result (wanted_of asked.new ≡ insert_all key_eq (wanted_of asked.old)
        (target_waits (known_of asked.old) (value_target table.now (view id.now)))) }
    ensures pairs { OnOk result (pairs_of asked.new ≡ pairs_of asked.old) }
{
    match key_in(alloc, table, id)? {
        Some(key) => load(key, asked),
        None => Ok(Node::Done(Answer::Fault(EvalFault::NotAKey))),
    }
}

/// The loads of values as ids of a table.
pub(crate) fn load_ids(
    alloc: Global,
    table: &Text,
    ids: &[Value],
    asked: &mut Asked<'_>,
) -> Result<Vec<Node>, AllocError>
    ensures stand { IfOk result (λ ns.
        LoadsEach (known_of asked.old) (item_targets table.now (items_view ids.now)) (nodes_view ns.items)) }
    ensures wanted { OnOk result (wanted_of asked.new ≡ insert_all key_eq (wanted_of asked.old)
        (each_target_waits (known_of asked.old) (item_targets table.now (items_view ids.now)))) }
    ensures pairs { OnOk result (pairs_of asked.new ≡ pairs_of asked.old) }
{
    take_nodes(asked.room(), ids.len())?;
    let mut nodes = Vec::with_capacity(alloc, ids.len())?;
    for id in ids {
        nodes.push(load_id(alloc, table, id, asked)?)?;
    }
    Ok(nodes)
}
