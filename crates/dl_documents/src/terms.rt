//! Reads terms.

ghost use Rattle.std.specs.Prelude.{◌≡◌, IfOk, map, option_map};
ghost use Rattle.dl_terms.specs.Tree.{follow, each};
ghost use Rattle.dl_terms.specs.View.{term_view};
ghost use Rattle.dl_documents.specs.TermReading.{field_in, link_in, picks, links, gathers, covers, item_in, assembles, together, term_named, term_in, parts_in, parts_of};
ghost use Rattle.dl_documents.specs.Inside.Trees.{tree_data, list_data};

use crate::argument::{into_pair, into_triple, is_true, json, key};
use crate::member::{self, in_order};
use crate::tree::{into_items, into_members, text};
use dl_terms::{Names, Term};
use dl_values::{TABLE_BYTES, Text};
use json::Value;
use std::alloc::{AllocError, Global};

/// The term that an object with one member spells, if it spells one. It reads a term of any height to its bottom.
#[cycle(reading)]
pub(crate) fn read_term(alloc: Global, tree: Value<'_>) -> Result<Option<Term>, AllocError>
    ensures { IfOk result (λ t. option_map term_view t ≡ term_in (tree_data tree.entry)) }
{
    match member::into_only(tree) {
        Some((name, argument)) => named(alloc, name, argument),
        None => Ok(None),
    }
}

/// The term of this name, if the argument is right for it.
#[cycle(reading)]
fn named(alloc: Global, name: &str, argument: Value<'_>) -> Result<Option<Term>, AllocError>
    ensures { IfOk result (λ t. option_map term_view t ≡ term_named name.now (tree_data argument.entry) (parts_in (tree_data argument.entry))) }
{
    match name {
        "value" => Ok(json(alloc, argument)?.map(Term::Value)),
        "load" => Ok(key(alloc, &argument)?.map(Term::Load)),
        "pick" => pick(alloc, argument),
        "follow" => follow(alloc, argument),
        "each" => each(alloc, argument),
        "all" => all(alloc, argument),
        "over" => over(alloc, argument),
        "item" => Ok(item(&argument)),
        "object" => object(alloc, argument),
        _ => Ok(None),
    }
}

#[cycle(reading)]
fn pick(alloc: Global, argument: Value<'_>) -> Result<Option<Term>, AllocError>
    ensures { IfOk result (λ t. option_map term_view t ≡ picks (parts_in (tree_data argument.entry)) (tree_data argument.entry)) }
{
    let Some((part, field)) = field(argument) else {
        return Ok(None);
    };
    let Some(part) = read_part(alloc, part)? else {
        return Ok(None);
    };
    let field = Text::new(alloc, field)?;
    Ok(Some(Term::Pick { part, field }))
}

#[cycle(reading)]
fn follow(alloc: Global, argument: Value<'_>) -> Result<Option<Term>, AllocError>
    ensures { IfOk result (λ t. option_map term_view t ≡ links follow (parts_in (tree_data argument.entry)) (tree_data argument.entry)) }
{
    let Some((part, field, table)) = link(argument) else {
        return Ok(None);
    };
    let Some(part) = read_part(alloc, part)? else {
        return Ok(None);
    };
    let field = Text::new(alloc, field)?;
    let table = Text::new(alloc, table)?;
    Ok(Some(Term::Follow { part, field, table }))
}

#[cycle(reading)]
fn each(alloc: Global, argument: Value<'_>) -> Result<Option<Term>, AllocError>
    ensures { IfOk result (λ t. option_map term_view t ≡ links each (parts_in (tree_data argument.entry)) (tree_data argument.entry)) }
{
    let Some((part, field, table)) = link(argument) else {
        return Ok(None);
    };
    let Some(part) = read_part(alloc, part)? else {
        return Ok(None);
    };
    let field = Text::new(alloc, field)?;
    let table = Text::new(alloc, table)?;
    Ok(Some(Term::Each { part, field, table }))
}

#[cycle(reading)]
fn all(alloc: Global, argument: Value<'_>) -> Result<Option<Term>, AllocError>
    ensures { IfOk result (λ t. option_map term_view t ≡ gathers (parts_in (tree_data argument.entry)) (tree_data argument.entry)) }
{
    let Some(items) = into_items(argument) else {
        return Ok(None);
    };
    match read_parts(alloc, items)? {
        Some(parts) => Ok(Some(Term::All(parts))),
        None => Ok(None),
    }
}

#[cycle(reading)]
fn over(alloc: Global, argument: Value<'_>) -> Result<Option<Term>, AllocError>
    ensures { IfOk result (λ t. option_map term_view t ≡ covers (parts_in (tree_data argument.entry)) (tree_data argument.entry)) }
{
    let Some((part, body)) = into_pair(argument) else {
        return Ok(None);
    };
    let Some(part) = read_part(alloc, part)? else {
        return Ok(None);
    };
    let Some(body) = read_part(alloc, body)? else {
        return Ok(None);
    };
    Ok(Some(Term::Over { part, body }))
}

/// The item, if the argument is `true`.
fn item(argument: &Value<'_>) -> Option<Term>
    ensures { option_map term_view result ≡ item_in (tree_data argument.now) }
{
    if is_true(argument) {
        Some(Term::Item)
    } else {
        None
    }
}

#[cycle(reading)]
fn object(alloc: Global, argument: Value<'_>) -> Result<Option<Term>, AllocError>
    ensures { IfOk result (λ t. option_map term_view t ≡ assembles (parts_in (tree_data argument.entry)) (tree_data argument.entry)) }
{
    let Some(members) = into_members(argument) else {
        return Ok(None);
    };
    let (texts, values) = in_order(alloc, members)?;
    let names = Names::new(alloc, texts)?;
    match read_parts(alloc, values)? {
        Some(parts) => Ok(Some(Term::Object { names, parts })),
        None => Ok(None),
    }
}

/// The terms that the trees spell, if each spells one.
// Inlined, so that lists inside one another take one call less for each.
#[cycle(reading)]
#[inline(always)]
fn read_parts(alloc: Global, trees: Vec<Value<'_>>) -> Result<Option<Vec<Term>>, AllocError>
    ensures { IfOk result (λ o. option_map (λ ts. map term_view ts.items) o ≡ together (parts_of (list_data trees.entry.items))) }
{
    let mut parts = Vec::with_capacity(alloc, trees.len())?;
    for tree in trees {
        let Some(part) = read_term(alloc, tree)? else {
            return Ok(None);
        };
        parts.push(part)?;
    }
    Ok(Some(parts))
}

#[cycle(reading)]
fn read_part(alloc: Global, tree: Value<'_>) -> Result<Option<Box<Term>>, AllocError>
    ensures { IfOk result (λ t. option_map (λ t. term_view t.value) t ≡ term_in (tree_data tree.entry)) }
{
    match read_term(alloc, tree)? {
        Some(term) => Ok(Some(Box::new(alloc, term)?)),
        None => Ok(None),
    }
}

/// The part and the field of a list of the two, moved out of it.
fn field(tree: Value<'_>) -> Option<(Value<'_>, &str)>
    ensures { option_map (λ p. (tree_data p.0, p.1.now)) result ≡ field_in (tree_data tree.entry) }
{
    let (part, field) = into_pair(tree)?;
    let field = text(&field)?;
    Some((part, field))
}

/// The part, the field and the table of a list of the three, moved out of it, if the table's name has the length of
/// one.
fn link(tree: Value<'_>) -> Option<(Value<'_>, &str, &str)>
    ensures { option_map (λ p. (tree_data p.0, p.1.now, p.2.now)) result ≡ link_in (tree_data tree.entry) }
{
    let (part, field, table) = into_triple(tree)?;
    let field = text(&field)?;
    let table = text(&table)?;
    if (1..=TABLE_BYTES).contains(&table.len()) {
        Some((part, field, table))
    } else {
        None
    }
}
