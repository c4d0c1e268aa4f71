//! Keys and texts as compact JSON.

ghost use Rattle.std.specs.Prelude.{◌≡◌, IfOk, string_bytes};
ghost use Rattle.serde_json.specs.View.{view};
ghost use Rattle.dl_documents.specs.Script.{key_tree};
ghost use Rattle.dl_picture.specs.JsonText.{key_text, keys_text, quoted_text};

use dl_desk::FetchKey;
use serde_json::Value;
use std::alloc::{AllocError, Global};

/// A key as JSON, the list of its two texts.
///
/// # Errors
/// `AllocError` if memory runs out.
pub fn key_text(alloc: Global, key: &FetchKey) -> Result<String, AllocError>
    ensures { IfOk result (λ text. string_bytes text ≡ key_text key.now) }
{
    key_value(alloc, key)?.to_string(alloc)
}

/// A list of keys as JSON.
///
/// # Errors
/// `AllocError` if memory runs out.
pub fn keys_text(alloc: Global, keys: &[FetchKey]) -> Result<String, AllocError>
    ensures { IfOk result (λ text. string_bytes text ≡ keys_text keys.now) }
{
    let mut items = Vec::with_capacity(alloc, keys.len())?;
    for key in keys {
        items.push(key_value(alloc, key)?)?;
    }
    Value::Array(items).to_string(alloc)
}

/// A text as JSON, in quotation marks.
///
/// # Errors
/// `AllocError` if memory runs out.
pub fn quoted_text(alloc: Global, text: &str) -> Result<String, AllocError>
    ensures { IfOk result (λ quoted. string_bytes quoted ≡ quoted_text text.now) }
{
    Value::String(String::from_str(alloc, text)?).to_string(alloc)
}

fn key_value(alloc: Global, key: &FetchKey) -> Result<Value, AllocError>
    ensures { IfOk result (λ value. view value ≡ key_tree key.now) }
{
    let table = Value::String(String::from_str(alloc, key.table())?);
    let id = Value::String(String::from_str(alloc, key.id())?);
    Ok(Value::Array(vec![in alloc; table, id]?))
}
