//! Reads steps.

ghost use Rattle.std.specs.Prelude.{◌≡◌, IfOk, option_map, option_and_then};
ghost use Rattle.dl_documents.specs.Reading.{two_in};
ghost use Rattle.dl_documents.specs.Steps.{eval, step_view};
ghost use Rattle.dl_documents.specs.StepReading.{error_in, of_forms, primed_named, primed_in, primes, step_named, step_in};
ghost use Rattle.dl_documents.specs.TermReading.{term_in};
ghost use Rattle.dl_documents.specs.Inside.Trees.{tree_data};

use crate::argument::{self, into_pair, is_true, json, key};
use crate::forms::{Forms, has_forms};
use crate::member;
use crate::terms::read_term;
use crate::tree::text;
use dl_source::TEXT_BYTES;
use dl_terms::Step;
use dl_values::{Message, Outcome};
use json::Value;
use std::alloc::{AllocError, Global};

/// The step that an object with one member spells, if it spells one. Its term may have these forms and any height.
/// Fails if memory runs out.
pub(crate) fn read_step(
    alloc: Global,
    forms: Forms,
    tree: Value<'_>,
) -> Result<Option<Step>, AllocError>
    ensures { IfOk result (λ s. option_map step_view s ≡ step_in forms (tree_data tree.entry)) }
{
    match member::into_only(tree) {
        Some((name, argument)) => named(alloc, forms, name, argument),
        None => Ok(None),
    }
}

/// The step of this name, if the argument is right for it. Fails if memory runs out.
fn named(
    alloc: Global,
    forms: Forms,
    name: &str,
    argument: Value<'_>,
) -> Result<Option<Step>, AllocError>
    ensures { IfOk result (λ s. option_map step_view s ≡ step_named forms name.now (tree_data argument.entry)) }
{
    Ok(match name {
        "prime" => prime(alloc, argument)?,
        "clear" => key(alloc, &argument)?.map(Step::Clear),
        "clearAll" if is_true(&argument) => Some(Step::ClearAll),
        "eval" => eval(alloc, forms, argument)?,
        _ => None,
    })
}

/// The evaluation of a term, if it has only these forms. Fails if memory runs out.
fn eval(alloc: Global, forms: Forms, tree: Value<'_>) -> Result<Option<Step>, AllocError>
    ensures { IfOk result (λ s. option_map step_view s ≡ option_map eval (option_and_then (of_forms forms) (term_in (tree_data tree.entry)))) }
{
    match read_term(alloc, tree)? {
        Some(term) if has_forms(forms, &term) => Ok(Some(Step::Eval(term))),
        _ => Ok(None),
    }
}

/// The prime of a list of a key and an outcome. Fails if memory runs out.
fn prime(alloc: Global, argument: Value<'_>) -> Result<Option<Step>, AllocError>
    ensures { IfOk result (λ s. option_map step_view s ≡ option_and_then primes (two_in (tree_data argument.entry))) }
{
    let Some((key, outcome)) = into_pair(argument) else {
        return Ok(None);
    };
    let Some(key) = argument::key(alloc, &key)? else {
        return Ok(None);
    };
    let Some(outcome) = primed(alloc, outcome)? else {
        return Ok(None);
    };
    Ok(Some(Step::Prime(key, outcome)))
}

/// The outcome to prime that an object with one member spells, if it spells one. Fails if memory runs out.
fn primed(alloc: Global, tree: Value<'_>) -> Result<Option<Outcome>, AllocError>
    ensures { IfOk result (λ o. o ≡ primed_in (tree_data tree.entry)) }
{
    match member::into_only(tree) {
        Some((name, argument)) => primed_named(alloc, name, argument),
        None => Ok(None),
    }
}

fn primed_named(
    alloc: Global,
    name: &str,
    argument: Value<'_>,
) -> Result<Option<Outcome>, AllocError>
    ensures { IfOk result (λ o. o ≡ primed_named name.now (tree_data argument.entry)) }
{
    Ok(match name {
        "value" => json(alloc, argument)?.map(Outcome::Value),
        "error" => error(alloc, &argument)?.map(Outcome::KeyError),
        _ => None,
    })
}

/// The text of an error, if it isn't too long. Fails if memory runs out.
fn error(alloc: Global, tree: &Value<'_>) -> Result<Option<Message>, AllocError>
    ensures { IfOk result (λ t. t ≡ error_in (tree_data tree.now)) }
{
    match text(tree) {
        Some(text) if text.len() <= TEXT_BYTES => Ok(Some(Message::new(alloc, text)?)),
        _ => Ok(None),
    }
}
