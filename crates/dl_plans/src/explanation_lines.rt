//! Writes the lines of explanations.

use crate::answer_lines::batch_fault_text;
use crate::explanations::Explanation;
use crate::front::push_front;
use dl_desk::{BatchFault, FetchKey};
use dl_picture::{Met, Origin, PathStep, key_text, quoted_text};
use dl_terms::{EvalFault, Term};
use serde_json::Value;
use std::alloc::{AllocError, Global};
use std::fmt::Write;

/// Appends the line of an explanation: the place in the step to which the path leads, what the part there met, and what
/// it needs. Without an origin the place is that of the whole term, and nothing follows.
pub(crate) fn push_explanation(
    alloc: Global,
    out: &mut String,
    explained: &Explanation<'_, '_>,
) -> Result<(), AllocError> {
    write!(out, "plan {} step {}: eval", explained.plan, explained.step)?;
    if let Some(origin) = explained.origin {
        push_path(alloc, out, origin.path.as_slice())?;
        push_form(alloc, out, origin.part)?;
        push_met(alloc, out, origin)?;
        write!(out, ", and needs {}", need_of(origin))?;
    }
    out.push_str("\n")
}

/// Appends the steps of a path, the last of which comes first.
fn push_path(alloc: Global, out: &mut String, path: &[PathStep<'_>]) -> Result<(), AllocError> {
    for step in path.iter().rev() {
        write!(out, ".{}", form_of(step.term))?;
        push_part(alloc, out, *step)?;
    }
    Ok(())
}

/// Appends which part a step leads into: its number, the name of a member, or a body with the place of its item.
fn push_part(alloc: Global, out: &mut String, step: PathStep<'_>) -> Result<(), AllocError> {
    match step.term {
        Term::Over { .. } if step.part > 0 => write!(out, "[1] at [{}]", step.part - 1),
        Term::Object { names, .. } => match names.as_slice().get(step.part) {
            Some(name) => push_member(alloc, out, name.as_str()),
            None => Ok(()),
        },
        _ => write!(out, "[{}]", step.part),
    }
}

/// Appends the name of a member, in quotation marks unless it is a plain word.
fn push_member(alloc: Global, out: &mut String, name: &str) -> Result<(), AllocError> {
    if is_word(name) {
        out.push_str(".")?;
        return push_front(alloc, out, &name);
    }
    push_quoted(alloc, out, "[", name)?;
    out.push_str("]")
}

/// Whether a name has nothing but letters and digits of ASCII and underscores, and one of them at least.
fn is_word(name: &str) -> bool {
    !name.is_empty()
        && name
            .bytes()
            .all(|byte| byte == b'_' || byte.is_ascii_alphanumeric())
}

/// The name of a term's form.
fn form_of(term: &Term) -> &'static str {
    match term {
        Term::Value(_) => "value",
        Term::Load(_) => "load",
        Term::Pick { .. } => "pick",
        Term::Follow { .. } => "follow",
        Term::Each { .. } => "each",
        Term::All(_) => "all",
        Term::Over { .. } => "over",
        Term::Item => "item",
        Term::Object { .. } => "object",
    }
}

/// Appends the form of the part, with its field if it has one.
fn push_form(alloc: Global, out: &mut String, part: &Term) -> Result<(), AllocError> {
    write!(out, ": {}", form_of(part))?;
    match part {
        Term::Pick { field, .. } | Term::Follow { field, .. } | Term::Each { field, .. } => {
            push_quoted(alloc, out, " ", field.as_str())
        }
        _ => Ok(()),
    }
}

/// Appends what the part met, and of an item of a list its place.
fn push_met(alloc: Global, out: &mut String, origin: &Origin<'_>) -> Result<(), AllocError> {
    out.push_str(" met ")?;
    match &origin.fault {
        EvalFault::Key { key, text } => {
            push_quoted(alloc, out, "the error ", text.as_str())?;
            push_key(alloc, out, key)?;
        }
        EvalFault::Batch { key, fault } => {
            push_batch_fault(alloc, out, fault)?;
            push_key(alloc, out, key)?;
        }
        EvalFault::TooMany => write!(out, "{} items", items_met(alloc, &origin.met)?)?,
        _ => push_value(alloc, out, &origin.met)?,
    }
    if let Met::Item(place, _) = &origin.met {
        write!(out, " at [{place}]")?;
    }
    Ok(())
}

/// Appends the value that a part met.
fn push_value(alloc: Global, out: &mut String, met: &Met) -> Result<(), AllocError> {
    match met {
        Met::Outcome => Ok(()),
        Met::Nothing => out.push_str("nothing"),
        Met::Whole(value) => push_front(alloc, out, value),
        Met::Field(value) | Met::Item(_, value) => push_front(alloc, out, value),
    }
}

/// How many items the list has that a part met.
fn items_met(alloc: Global, met: &Met) -> Result<usize, AllocError> {
    Ok(match met {
        Met::Whole(value) => items_of(value.to_json(alloc)?.value()),
        Met::Field(value) | Met::Item(_, value) => items_of(value),
        Met::Outcome | Met::Nothing => 0,
    })
}

/// How many items a list has.
fn items_of(value: &Value) -> usize {
    match value.as_array() {
        Some(items) => items.len(),
        None => 0,
    }
}

/// Appends a stranger's text in quotation marks, behind these words.
fn push_quoted(alloc: Global, out: &mut String, words: &str, text: &str) -> Result<(), AllocError> {
    out.push_str(words)?;
    push_front(alloc, out, &quoted_text(alloc, text)?)
}

/// Appends whose outcome it is.
fn push_key(alloc: Global, out: &mut String, key: &FetchKey) -> Result<(), AllocError> {
    out.push_str(" of ")?;
    push_front(alloc, out, &key_text(alloc, key)?)
}

/// Appends why a batch failed.
fn push_batch_fault(alloc: Global, out: &mut String, fault: &BatchFault) -> Result<(), AllocError> {
    out.push_str("the failed batch (")?;
    push_front(alloc, out, &batch_fault_text(alloc, fault)?)?;
    out.push_str(")")
}

/// What the part of an origin needs, in place of what it met.
fn need_of(origin: &Origin<'_>) -> &'static str {
    match (&origin.fault, origin.part) {
        (EvalFault::Key { .. }, _) => "a row",
        (EvalFault::Batch { .. }, _) => "a batch that is answered",
        (EvalFault::NoField, _) => "an object with this field",
        (EvalFault::NotAKey, _) => "an id, a text of 1 to 256 bytes",
        (EvalFault::NotAList, Term::Over { .. }) => "a list",
        (EvalFault::NotAList, _) => "a list of ids",
        (EvalFault::TooMany, _) => "at most 1024",
        (EvalFault::NoItem, _) => "an over around it",
    }
}
