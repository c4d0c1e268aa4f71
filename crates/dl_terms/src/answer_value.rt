//! The values that answers give.

ghost use Rattle.std.specs.Prelude.{◌≡◌, ◌++◌, false, IfOk, IfSome, OnOk, length, map, option_map, slice_get, string_bytes};
ghost use Rattle.serde_json.specs.Data.{array, object};
ghost use Rattle.serde_json.specs.Find.{as_array, get, get_member};
ghost use Rattle.serde_json.specs.View.{view, items_of, items_view, members_view};
ghost use Rattle.serde_json.specs.Written.{has_float, items_have_float, members_have_float, compact_text};
ghost use Rattle.dl_terms.specs.Inside.Member.{member_data, IsWhole};
ghost use Rattle.dl_terms.specs.Joined.{members_with, put_named};
ghost use Rattle.dl_terms.specs.Named.{zipped};

use crate::member::Member;
use crate::names::Names;
use dl_values::{Json, Text};
use serde_json::{Map, Value};
use std::alloc::{AllocError, Global};
use std::fmt;
use std::fmt::Write;
use std::marker::Model;

/// A value that an answer gives: a row, a part of one, or the list of what several parts gave. It shares its rows, and
/// its numbers are whole. Contracts see its tree.
#[cycle(answer_value)]
pub struct AnswerValue {
    shape: Shape,
}

/// What a value consists of.
#[cycle(answer_value)]
enum Shape {
    /// A row, or a part of one.
    Row(Json),
    /// The list of these values.
    List(Vec<AnswerValue>),
    /// The object of these values under these names, which ascend and are as many.
    Object {
        names: Names,
        values: Vec<AnswerValue>,
    },
}

impl Drop for AnswerValue {
    #[cycle(dropping)]
    fn drop(self) {
        let AnswerValue { shape } = self;
        drop(shape);
    }
}

impl Drop for Shape {
    #[cycle(dropping)]
    fn drop(self) {
        match self {
            Shape::Row(row) => drop(row),
            Shape::List(values) => drop(values),
            Shape::Object { names, values } => {
                drop(names);
                drop(values);
            }
        }
    }
}

impl Shape {
    ghost use Rattle.dl_terms.specs.AnswerValue.{tree_of};

    /// The items, if it is a list.
    ///
    /// # Errors
    /// `AllocError` if memory runs out.
    fn into_items(self, alloc: Global) -> Result<Option<Vec<AnswerValue>>, AllocError>
        ensures { IfOk result (λ o. option_map (λ vs. items_of vs.items) o ≡ as_array (tree_of self)) }
    {
        match self {
            Shape::Row(row) => row_items(alloc, &row),
            Shape::List(values) => Ok(Some(values)),
            Shape::Object { .. } => Ok(None),
        }
    }
}

impl Model for AnswerValue {
    ghost use Rattle.serde_json.specs.Data.{Data, depth};
    ghost use Rattle.dl_values.specs.Inside.Json.{data_code};

    ghost Value = { Data };

    ghost coded = { data_code };

    ghost use Rattle.dl_terms.specs.AnswerValue.{tree_of};

    ghost view = { λ v. tree_of v.shape };

    ghost use Rattle.std.specs.Prelude.{◌≡◌, true};
    ghost use Rattle.dl_terms.specs.AnswerValue.{is_in_form};

    ghost invariant = { λ v. is_in_form v.shape ≡ true };

    ghost size = { depth };

    ghost use Rattle.dl_terms.specs.AnswerDepth.{parts_below};

    ghost size_decreases = { λ v h. parts_below v.shape h };
}

impl AnswerValue {
    /// The value of a row, which it shares.
    pub fn row(row: Json) -> AnswerValue
        ensures { result ≡ row }
    {
        AnswerValue {
            shape: Shape::Row(row),
        }
    }

    /// The list of these values.
    pub fn list(values: Vec<AnswerValue>) -> AnswerValue
        ensures { result ≡ array (items_of values.items) }
    {
        AnswerValue {
            shape: Shape::List(values),
        }
    }

    /// The object of these values under these names, in order. Of values with the same name the first counts, and a
    /// value without a name isn't there. It shares the names if they ascend.
    ///
    /// # Errors
    /// `AllocError` if memory runs out, or if a reference count would overflow.
    pub fn object(
        alloc: Global,
        names: &Names,
        values: Vec<AnswerValue>,
    ) -> Result<AnswerValue, AllocError>
        ensures { IfOk result (λ v. v ≡ object (members_with names.now (items_of values.items))) }
    {
        if names.are_ascending() && names.as_slice().len() == values.len() {
            let names = names.try_copy()?;
            let shape = Shape::Object { names, values };
            return Ok(AnswerValue { shape });
        }
        let row = object_of(alloc, names, copies(alloc, &values)?)?;
        Ok(AnswerValue::row(Json::new(alloc, row)?))
    }

    /// The items, if the value is a list.
    ///
    /// # Errors
    /// `AllocError` if memory runs out.
    pub fn into_items(self, alloc: Global) -> Result<Option<Vec<AnswerValue>>, AllocError>
        ensures { IfOk result (λ o. option_map (λ vs. items_of vs.items) o ≡ as_array self) }
    {
        let AnswerValue { shape } = self;
        shape.into_items(alloc)
    }

    /// The member of this name, if the value is an object that has one. A list has none. It is a copy, unless it is one
    /// of the values that the object was made of: such a row it shares.
    ///
    /// # Errors
    /// `AllocError` if memory runs out, or if a reference count would overflow.
    pub fn member(&self, alloc: Global, name: &str) -> Result<Option<Json>, AllocError>
        ensures { IfOk result (λ o. o ≡ get name.now self.now) }
    {
        self.get(alloc, name)?.into_json(alloc)
    }

    /// The member of this name, lent by a row. Fails if memory runs out, or if a reference count would overflow.
    pub(crate) fn get(&self, alloc: Global, name: &str) -> Result<Member<'_>, AllocError>
        ensures member { IfOk result (λ m. member_data m ≡ get name.now self.now) }
        ensures whole { IfOk result (λ m. IsWhole m) }
    {
        match &self.shape {
            Shape::Row(row) => Ok(row_member(row, name)),
            Shape::List(_) => Ok(Member::Missing),
            Shape::Object { names, values } => object_member(alloc, names, values, name),
        }
    }

    /// The tree, if the value is a row or a part of one.
    pub(crate) fn as_row(&self) -> Option<&Value>
        ensures { IfSome result (λ row. view row.now ≡ self.now) }
    {
        match &self.shape {
            Shape::Row(row) => Some(row.value()),
            Shape::List(_) | Shape::Object { .. } => None,
        }
    }

    /// The value of this name, if this is an object that was made of values.
    pub(crate) fn part(&self, name: &str) -> Option<&AnswerValue> {
        match &self.shape {
            Shape::Row(_) | Shape::List(_) => None,
            Shape::Object { names, values } => {
                let names = names.as_slice();
                let place = names.iter().position(|held| held.as_str() == name)?;
                values.get(place)
            }
        }
    }

    /// Whether it is a primitive of JSON: a number, a text, a truth value or null.
    fn is_primitive(&self) -> bool {
        match &self.shape {
            Shape::Row(row) => !matches!(row.value(), Value::Array(_) | Value::Object(_)),
            Shape::List(_) | Shape::Object { .. } => false,
        }
    }

    /// The same value as one JSON value. It shares a row, and copies what is in a list.
    ///
    /// # Errors
    /// `AllocError` if memory runs out, or if a reference count would overflow.
    pub fn to_json(&self, alloc: Global) -> Result<Json, AllocError>
        ensures { IfOk result (λ j. j ≡ self.now) }
    {
        match &self.shape {
            Shape::Row(row) => row.try_copy(),
            Shape::List(values) => Json::new(alloc, Value::Array(copies(alloc, values)?)),
            Shape::Object { names, values } => {
                Json::new(alloc, object_of(alloc, names, copies(alloc, values)?)?)
            }
        }
    }

    /// The value as compact JSON: no spaces, and the members of an object in the order of their names.
    ///
    /// # Errors
    /// `AllocError` if memory runs out.
    pub fn to_text(&self, alloc: Global) -> Result<String, AllocError>
        ensures { IfOk result (λ s. string_bytes s ≡ compact_text self.now) }
    {
        match &self.shape {
            Shape::Row(row) => row.to_text(alloc),
            Shape::List(_) | Shape::Object { .. } => {
                let mut text = String::new(alloc);
                push_value(alloc, self, &mut text)?;
                Ok(text)
            }
        }
    }
}

/// The member of a row that has this name.
fn row_member<'v>(row: &'v Json, name: &str) -> Member<'v>
    ensures member { member_data result ≡ get name.now row.now }
    ensures whole { IsWhole result }
{
    match row.value().get(name) {
        None => Member::Missing,
        Some(value) => Member::Lent(value),
    }
}

/// The value of an object that has this name.
fn object_member<'v>(
    alloc: Global,
    names: &Names,
    values: &'v Vec<AnswerValue>,
    name: &str,
) -> Result<Member<'v>, AllocError>
    requires { length names.now ≡ length values.now.items }
    ensures member { IfOk result (λ m. member_data m ≡ get_member name.now (zipped names.now values.now.items)) }
    ensures whole { IfOk result (λ m. IsWhole m) }
{
    let names = names.as_slice();
    for (place, value) in values.iter().enumerate() {
        if name == names[place].as_str() {
            return Ok(Member::Own(value.to_json(alloc)?));
        }
    }
    Ok(Member::Missing)
}

/// The items of a row, each as a row of its own, if the row is a list.
fn row_items(alloc: Global, row: &Json) -> Result<Option<Vec<AnswerValue>>, AllocError>
    ensures { IfOk result (λ o. option_map (λ vs. items_of vs.items) o ≡ as_array row.now) }
{
    match row.value().as_array() {
        None => Ok(None),
        Some(items) => Ok(Some(rows_of(alloc, items)?)),
    }
}

fn rows_of(alloc: Global, items: &Vec<Value>) -> Result<Vec<AnswerValue>, AllocError>
    requires { items_have_float (items_view items.now.items) ≡ false }
    ensures { IfOk result (λ rows. rows.items ≡ map view items.now.items) }
{
    let mut rows = Vec::with_capacity(alloc, items.len())?;
    for item in items {
        let row = Json::new(alloc, item.clone()?)?;
        rows.push(AnswerValue::row(row))?;
    }
    Ok(rows)
}

/// The object of these values under these names.
fn object_of(alloc: Global, names: &Names, values: Vec<Value>) -> Result<Value, AllocError>
    requires { items_have_float (items_view values.items) ≡ false }
    ensures tree { IfOk result (λ v. view v ≡ object (members_with names.now (items_view values.items))) }
    ensures whole { IfOk result (λ v. has_float (view v) ≡ false) }
{
    let members = members_of(alloc, names.as_slice(), values)?;
    Ok(Value::Object(members))
}

/// The members with these names and values.
fn members_of(
    alloc: Global,
    names: &[Text],
    values: Vec<Value>,
) -> Result<Map<String, Value>, AllocError>
    requires { items_have_float (items_view values.items) ≡ false }
    ensures members { IfOk result (λ m. members_view m.entries ≡ members_with names.now (items_view values.items)) }
    ensures whole { IfOk result (λ m. members_have_float (members_view m.entries) ≡ false) }
{
    let mut values = values;
    let mut members = Map::new(alloc);
    while let Some(value) = values.pop() {
        put_at(alloc, names, values.len(), value, &mut members)?;
    }
    Ok(members)
}

/// Puts a value at the name in this place, if there is one.
fn put_at(
    alloc: Global,
    names: &[Text],
    place: usize,
    value: Value,
    members: &mut Map<String, Value>,
) -> Result<(), AllocError>
    requires { has_float (view value) ≡ false }
    ensures put { OnOk result (members_view members.new.entries
        ≡ put_named (slice_get names.now place) (view value) (members_view members.old.entries)) }
    ensures whole { OnOk result
        (members_have_float (members_view members.old.entries) ≡ false → members_have_float (members_view members.new.entries) ≡ false) }
{
    let Some(name) = names.get(place) else {
        return Ok(());
    };
    let name = String::from_str(alloc, name.as_str())?;
    drop(members.insert(name, value)?);
    Ok(())
}

/// Appends the text of a value.
#[cycle(writing)]
fn push_value(alloc: Global, value: &AnswerValue, text: &mut String) -> Result<(), AllocError>
    ensures { OnOk result (string_bytes text.new ≡ string_bytes text.old ++ compact_text value.now) }
{
    match &value.shape {
        Shape::Row(row) => {
            let row = row.to_text(alloc)?;
            text.push_str(row.as_str())
        }
        Shape::List(values) => push_list(alloc, values, text),
        Shape::Object { names, values } => push_object(alloc, names, values, text),
    }
}

#[cycle(writing)]
fn push_object(
    alloc: Global,
    names: &Names,
    values: &Vec<AnswerValue>,
    text: &mut String,
) -> Result<(), AllocError>
    requires { length names.now ≡ length values.now.items }
    ensures { OnOk result (string_bytes text.new
        ≡ string_bytes text.old ++ compact_text (object (zipped names.now values.now.items))) }
{
    let labels = names.labels();
    text.push_str("{")?;
    let mut before = "";
    for (place, value) in values.iter().enumerate() {
        text.push_str(before)?;
        text.push_str(labels[place].as_str())?;
        push_value(alloc, value, text)?;
        before = ",";
    }
    text.push_str("}")?;
    Ok(())
}

#[cycle(writing)]
fn push_list(alloc: Global, values: &Vec<AnswerValue>, text: &mut String) -> Result<(), AllocError>
    ensures { OnOk result (string_bytes text.new ≡ string_bytes text.old ++ compact_text (array (items_of values.now.items))) }
{
    if values.iter().all(|value| value.is_primitive()) {
        return push_primitives(alloc, values, text);
    }
    text.push_str("[")?;
    let mut before = "";
    for value in values {
        text.push_str(before)?;
        push_value(alloc, value, text)?;
        before = ",";
    }
    text.push_str("]")?;
    Ok(())
}

/// Appends the text of a list of primitives. It copies them into one value, since a text for each takes longer.
fn push_primitives(
    alloc: Global,
    values: &Vec<AnswerValue>,
    text: &mut String,
) -> Result<(), AllocError>
    ensures { OnOk result (string_bytes text.new ≡ string_bytes text.old ++ compact_text (array (items_of values.now.items))) }
{
    let list = Value::Array(copies(alloc, values)?);
    let list = list.to_string(alloc)?;
    text.push_str(list.as_str())
}

/// A copy of a value's tree.
#[cycle(copying)]
fn copy(alloc: Global, value: &AnswerValue) -> Result<Value, AllocError>
    ensures tree { IfOk result (λ v. view v ≡ value.now) }
    ensures whole { IfOk result (λ v. has_float (view v) ≡ false) }
{
    match &value.shape {
        Shape::Row(row) => row.value().clone(),
        Shape::List(values) => Ok(Value::Array(copies(alloc, values)?)),
        Shape::Object { names, values } => object_of(alloc, names, copies(alloc, values)?),
    }
}

/// Copies of the trees of values.
#[cycle(copying)]
fn copies(alloc: Global, values: &Vec<AnswerValue>) -> Result<Vec<Value>, AllocError>
    ensures trees { IfOk result (λ vs. items_view vs.items ≡ items_of values.now.items) }
    ensures whole { IfOk result (λ vs. items_have_float (items_view vs.items) ≡ false) }
{
    let mut copies = Vec::with_capacity(alloc, values.len())?;
    for value in values {
        copies.push(copy(alloc, value)?)?;
    }
    Ok(copies)
}

impl fmt::Display for AnswerValue {
    fn fmt<W: Write>(&self, f: &mut fmt::Formatter<W>) -> fmt::Result {
        show(self, f)
    }
}

impl fmt::Debug for AnswerValue {
    fn fmt<W: Write>(&self, f: &mut fmt::Formatter<W>) -> fmt::Result {
        show(self, f)
    }
}

/// Writes the text of a value.
#[cycle(showing)]
fn show<W: Write>(value: &AnswerValue, f: &mut fmt::Formatter<W>) -> fmt::Result {
    match &value.shape {
        Shape::Row(row) => write!(f, "{}", row.value()),
        Shape::List(values) => show_list(values, f),
        Shape::Object { names, values } => show_object(names, values, f),
    }
}

#[cycle(showing)]
fn show_list<W: Write>(values: &Vec<AnswerValue>, f: &mut fmt::Formatter<W>) -> fmt::Result {
    f.write_str("[")?;
    let mut before = "";
    for value in values {
        f.write_str(before)?;
        show(value, f)?;
        before = ",";
    }
    f.write_str("]")
}

#[cycle(showing)]
fn show_object<W: Write>(
    names: &Names,
    values: &Vec<AnswerValue>,
    f: &mut fmt::Formatter<W>,
) -> fmt::Result
    requires { length names.now ≡ length values.now.items }
{
    let labels = names.labels();
    f.write_str("{")?;
    let mut before = "";
    for (place, value) in values.iter().enumerate() {
        f.write_str(before)?;
        f.write_str(labels[place].as_str())?;
        show(value, f)?;
        before = ",";
    }
    f.write_str("}")
}
