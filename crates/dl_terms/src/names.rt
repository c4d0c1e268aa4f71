//! The names of an object's members.

ghost use Rattle.std.specs.Prelude.{◌≡◌, IfOk, map};
ghost use Rattle.dl_terms.specs.Named.{are_ascending, label};

use dl_values::Text;
use serde_json::Value;
use std::alloc::{AllocError, Global};
use std::fmt;
use std::marker::Model;
use std::sync::Arc;

/// The names of an object's members, in order. A copy shares them and costs one atomic step. Contracts see the list.
pub struct Names {
    list: Arc<NameList>,
}

/// The names, and what is known of them.
#[derive(Drop)]
struct NameList {
    names: Vec<Text>,
    /// Each name as compact JSON writes it, with its colon.
    labels: Vec<Text>,
    /// Whether each name is greater than the one before.
    ascending: bool,
}

impl Drop for Names {
    fn drop(self) {
        let Names { list } = self;
        drop(list);
    }
}

impl Model for Names {
    ghost use Rattle.std.specs.Prelude.{List, ℕ};
    ghost use Rattle.std.specs.Arc.{arc_value};
    ghost use Rattle.dl_terms.specs.Inside.NameList.{AreKnown};

    ghost Value = { List (List ℕ) };

    ghost view = { λ n. (arc_value n.list).names.items };

    ghost invariant = { λ n. AreKnown (arc_value n.list) };
}

impl fmt::Debug for Names {
    fn fmt<W: fmt::Write>(&self, f: &mut fmt::Formatter<W>) -> fmt::Result {
        write!(f, "{:?}", self.as_slice())
    }
}

impl Names {
    /// Moves the names into a list that you can share.
    ///
    /// # Errors
    /// `AllocError` if memory runs out.
    pub fn new(alloc: Global, names: Vec<Text>) -> Result<Names, AllocError>
        ensures { IfOk result (λ n. n ≡ names.items) }
    {
        let labels = labels_of(alloc, names.as_slice())?;
        let ascending = are_ascending(names.as_slice());
        let list = NameList {
            names,
            labels,
            ascending,
        };
        let list = Arc::new(alloc, list)?;
        Ok(Names { list })
    }

    /// The names, in order.
    pub fn as_slice(&self) -> &[Text]
        ensures { result.now ≡ self.now }
    {
        self.list.names.as_slice()
    }

    /// The same names, shared.
    ///
    /// # Errors
    /// `AllocError` if the reference count would overflow.
    pub fn try_copy(&self) -> Result<Names, AllocError>
        ensures { IfOk result (λ n. n ≡ self.now) }
    {
        let list = Arc::try_clone(&self.list)?;
        Ok(Names { list })
    }

    /// Each name as compact JSON writes it, with its colon.
    pub(crate) fn labels(&self) -> &[Text]
        ensures { result.now ≡ map label self.now }
    {
        self.list.labels.as_slice()
    }

    /// Whether each name is greater than the one before.
    pub(crate) fn are_ascending(&self) -> bool
        ensures { result ≡ are_ascending self.now }
    {
        self.list.ascending
    }
}

/// The label of each name.
fn labels_of(alloc: Global, names: &[Text]) -> Result<Vec<Text>, AllocError>
    ensures { IfOk result (λ ls. ls.items ≡ map label names.now) }
{
    let mut labels = Vec::with_capacity(alloc, names.len())?;
    for name in names {
        labels.push(label_of(alloc, name)?)?;
    }
    Ok(labels)
}

/// A name as compact JSON writes it, with its colon.
fn label_of(alloc: Global, name: &Text) -> Result<Text, AllocError>
    ensures { IfOk result (λ t. t ≡ label name.now) }
{
    let name = Value::String(String::from_str(alloc, name.as_str())?);
    let mut label = name.to_string(alloc)?;
    label.push_str(":")?;
    Text::new(alloc, label.as_str())
}

/// Whether each name is greater than the one before.
fn are_ascending(names: &[Text]) -> bool
    ensures { result ≡ are_ascending names.now }
{
    for place in 1..names.len() {
        if names[place - 1] >= names[place] {
            return false;
        }
    }
    true
}
