//! The names of a plan file's tables.

ghost use Rattle.std.specs.Prelude.{◌≡◌, ◌||◌, ℕ, List, IfOk, OnOk, codes, option_map, option_and_then};
ghost use Rattle.std.specs.HashSet.{contains_text};
ghost use Rattle.serde_json.specs.Find.{get, as_str};
ghost use Rattle.serde_json.specs.View.{view, items_view};
ghost use Rattle.dl_documents.specs.Document.{items_at};
ghost use Rattle.dl_plans.specs.JoinedTables.{any_named, is_named, lists_table};

use indexmap::IndexSet;
use serde_json::Value;
use std::alloc::{AllocError, Global};
use std::hash::RandomState;

/// Names of tables.
pub(crate) type Names = IndexSet<String, RandomState>;

/// The names of the tables that a document lists. Fails if memory runs out.
pub(crate) fn table_names(
    alloc: Global,
    hashing: RandomState,
    document: &Value,
) -> Result<Names, AllocError>
    ensures { IfOk result (λ names. (name : List ℕ) → contains_text names name ≡ lists_table name (view document.now)) }
{
    let mut names = IndexSet::with_hasher(alloc, hashing);
    if let Some(tables) = tables_of(document) {
        add_names(alloc, &mut names, tables.as_slice())?;
    }
    Ok(names)
}

/// The list of a document's tables.
fn tables_of(document: &Value) -> Option<&Vec<Value>>
    ensures { option_map (λ tables. items_view tables.now.items) result ≡ items_at (codes "tables") (view document.now) }
{
    document.get("tables")?.as_array()
}

/// Adds the names of these tables. Fails if memory runs out.
fn add_names(alloc: Global, names: &mut Names, tables: &[Value]) -> Result<(), AllocError>
    ensures { OnOk result ((name : List ℕ) → contains_text names.new name ≡ (contains_text names.old name || any_named name (items_view tables.now))) }
{
    for table in tables {
        add_name(alloc, names, table)?;
    }
    Ok(())
}

/// Adds the name of a table, if it has one. Fails if memory runs out.
fn add_name(alloc: Global, names: &mut Names, table: &Value) -> Result<(), AllocError>
    ensures { OnOk result ((name : List ℕ) → contains_text names.new name ≡ (contains_text names.old name || is_named name (view table.now))) }
{
    if let Some(name) = name_of(table) {
        let name = String::from_str(alloc, name)?;
        names.insert(name)?;
    }
    Ok(())
}

/// The name of a table.
fn name_of(table: &Value) -> Option<&str>
    ensures { option_map (λ name. name.now) result ≡ option_and_then as_str (get (codes "name") (view table.now)) }
{
    table.get("name")?.as_str()
}
