//! JSON values whose numbers are whole.

ghost use Rattle.std.specs.Prelude.{◌≡◌, false, IfOk, string_bytes};
ghost use Rattle.serde_json.specs.View.{view, items_view, members_view};
ghost use Rattle.serde_json.specs.Written.{has_float, items_have_float, members_have_float, compact_text};

use serde_json::{Map, Value};
use std::alloc::{AllocError, Global};
use std::fmt;
use std::marker::Model;
use std::sync::Arc;

/// A JSON value whose numbers are all whole, so that an `i64` or a `u64` holds each. A copy shares the value and costs
/// one atomic step. Contracts see its tree.
pub struct Json {
    value: Arc<Value>,
}

impl Drop for Json {
    fn drop(self) {
        let Json { value } = self;
        drop(value);
    }
}

impl Model for Json {
    ghost use Rattle.serde_json.specs.Data.{Data};
    ghost use Rattle.dl_values.specs.Inside.Json.{data_code};

    ghost Value = { Data };

    ghost coded = { data_code };

    ghost use Rattle.std.specs.Prelude.{◌≡◌, false};
    ghost use Rattle.std.specs.Arc.{arc_value};
    ghost use Rattle.serde_json.specs.View.{view as tree};
    ghost use Rattle.serde_json.specs.Written.{has_float};

    ghost view = { λ j. tree (arc_value j.value) };

    ghost invariant = { λ j. has_float (tree (arc_value j.value)) ≡ false };
}

impl Json {
    /// Takes a value without floats: ask [`has_float`] first.
    ///
    /// # Errors
    /// `AllocError` if memory runs out.
    pub fn new(alloc: Global, value: Value) -> Result<Json, AllocError>
        requires { has_float (view value) ≡ false }
        ensures { IfOk result (λ j. j ≡ view value) }
    {
        let value = Arc::new(alloc, value)?;
        Ok(Json { value })
    }

    /// The value itself.
    pub fn value(&self) -> &Value
        ensures tree { view result.now ≡ self.now }
        ensures whole { has_float self.now ≡ false }
    {
        &self.value
    }

    /// The value itself, moved out. If others share it, you get a copy.
    ///
    /// # Errors
    /// `AllocError` if memory runs out.
    pub fn into_value(self) -> Result<Value, AllocError>
        ensures { IfOk result (λ v. view v ≡ self) }
    {
        let Json { value } = self;
        Arc::unwrap_or_clone(value)
    }

    /// The same value, shared.
    ///
    /// # Errors
    /// `AllocError` if the reference count would overflow.
    pub fn try_copy(&self) -> Result<Json, AllocError>
        ensures { IfOk result (λ j. j ≡ self.now) }
    {
        let value = Arc::try_clone(&self.value)?;
        Ok(Json { value })
    }

    /// The value as compact JSON: no spaces, and the members of an object in the order of their names.
    ///
    /// # Errors
    /// `AllocError` if memory runs out.
    pub fn to_text(&self, alloc: Global) -> Result<String, AllocError>
        ensures { IfOk result (λ s. string_bytes s ≡ compact_text self.now) }
    {
        self.value().to_string(alloc)
    }
}

impl fmt::Debug for Json {
    fn fmt<W: fmt::Write>(&self, f: &mut fmt::Formatter<W>) -> fmt::Result {
        write!(f, "{}", self.value())
    }
}

/// Whether a number anywhere in the value isn't whole, so that `serde_json` holds it as a float.
#[cycle(whole)]
#[inline(always)]
pub fn has_float(value: &Value) -> bool
    ensures { result ≡ has_float (view value.now) }
{
    match value {
        Value::Null | Value::Bool(_) | Value::String(_) => false,
        Value::Number(number) => number.is_f64(),
        Value::Array(items) => items_have_float(items),
        Value::Object(members) => members_have_float(members),
    }
}

#[cycle(whole)]
#[inline(never)]
fn items_have_float(items: &Vec<Value>) -> bool
    ensures { result ≡ items_have_float (items_view items.now.items) }
{
    for item in items {
        if has_float(item) {
            return true;
        }
    }
    false
}

#[cycle(whole)]
#[inline(never)]
fn members_have_float(members: &Map<String, Value>) -> bool
    ensures { result ≡ members_have_float (members_view members.now.entries) }
{
    for (_key, member) in members.iter() {
        if has_float(member) {
            return true;
        }
    }
    false
}
