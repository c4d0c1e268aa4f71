//! Fetch terms.

ghost use Rattle.std.specs.Prelude.{◌≡◌, ◌-◌, ◌^◌, ◌↔◌, min, IsTrue, IfOk};
ghost use Rattle.dl_terms.specs.Tree.{depth_of, depth_of_all, height_of, height_of_all, the_item};
ghost use Rattle.dl_terms.specs.View.{term_view, terms_view};

use crate::names::Names;
use crate::room::{NODE_BYTES, Room, take};
use dl_values::{FetchKey, Json, Text};
use std::alloc::{AllocError, Global};

/// What to load, and how to go on from what you get (Haxl: a computation of `Done` and `Blocked`). Give each `table` 1
/// to 64 bytes: with any other length its loads give `NotAKey`.
///
/// # Examples
/// The domain in which another one lies, from `crates/example_own_source`: it loads the domain, and then the one that
/// its field `parent` names.
///
/// ```rust
/// let domain = Term::Load(FetchKey::new(alloc, "domain", id)?);
/// let parent = Term::Follow {
///     part: Box::new(alloc, domain)?,
///     field: Text::new(alloc, "parent")?,
///     table: Text::new(alloc, "domain")?,
/// };
/// ```
///
/// # Stack
/// `depth`, `height`, a copy and dropping a term recurse as deep as the term is high. [`unexplored`](crate::unexplored)
/// and [`explore`](crate::explore) recurse as deep as its lists and objects lie inside one another, and in a body as
/// deep as the body is high. Nothing bounds a term: if strangers send you terms, bound their height. With 8 MiB of
/// stack and an unoptimised build, `depth` and `height` had room for a chain of picks of height 7,000.
#[derive(Debug, Drop)]
pub enum Term {
    /// A value.
    Value(Json),
    /// What the load of the key gives.
    Load(FetchKey),
    /// The field of the part's value.
    Pick {
        part: Box<Term>,
        field: Text,
    },
    /// What you get if you load, from the table, the id in the field of the part's value.
    Follow {
        part: Box<Term>,
        field: Text,
        table: Text,
    },
    /// What you get if you load, from the table, each of the ids, at most 1,024, in the field of the part's value.
    Each {
        part: Box<Term>,
        field: Text,
        table: Text,
    },
    /// The list of the parts' values.
    All(Vec<Term>),
    /// The list of what the body gives for each item of the part's value, a list of at most 1,024 items.
    Over {
        part: Box<Term>,
        body: Box<Term>,
    },
    /// The item of the nearest `Over` in whose body it lies.
    Item,
    /// The object of the parts' values. Give it a name for each part, in order: of parts with the same name the first
    /// counts. If several parts fail, the fault is that of the first in the list, whatever its name.
    Object {
        names: Names,
        parts: Vec<Term>,
    },
}

impl Term {
    /// The most rounds of loads that the term takes, or `u32::MAX` if they are more.
    #[cycle(deep)]
    pub fn depth(&self) -> u32
        ensures { result ≡ min (depth_of (term_view self.now)) (2 ^ 32 - 1) }
    {
        match self {
            Term::Value(_) | Term::Item => 0,
            Term::Load(_) => 1,
            Term::Pick { part, .. } => part.depth(),
            Term::Follow { part, .. } | Term::Each { part, .. } => part.depth().saturating_add(1),
            Term::All(parts) => deepest(parts),
            Term::Over { part, body } => part.depth().saturating_add(body.depth()),
            Term::Object { parts, .. } => deepest(parts),
        }
    }

    /// How high the term is as a tree, or `u32::MAX` if it is higher. A value, a load and an item have height 1.
    #[cycle(high)]
    pub fn height(&self) -> u32
        ensures { result ≡ min (height_of (term_view self.now)) (2 ^ 32 - 1) }
    {
        match self {
            Term::Value(_) | Term::Load(_) | Term::Item => 1,
            Term::Pick { part, .. } | Term::Follow { part, .. } | Term::Each { part, .. } => {
                part.height().saturating_add(1)
            }
            Term::All(parts) => highest(parts).saturating_add(1),
            Term::Over { part, body } => {
                u32::max(part.height(), body.height()).saturating_add(1)
            }
            Term::Object { parts, .. } => highest(parts).saturating_add(1),
        }
    }

    /// Whether it is the item of a body.
    pub(crate) fn is_item(&self) -> bool
        ensures { IsTrue result ↔ (term_view self.now ≡ the_item) }
    {
        matches!(self, Term::Item)
    }

    /// The same term, with memory of its own.
    ///
    /// # Errors
    /// `AllocError` if memory runs out, or if a reference count would overflow.
    pub fn try_copy(&self, alloc: Global) -> Result<Term, AllocError>
        ensures { IfOk result (λ t. term_view t ≡ term_view self.now) }
    {
        copy_of(alloc, None, self)
    }
}

/// The depth of the deepest term.
#[cycle(deep)]
fn deepest(parts: &Vec<Term>) -> u32
    ensures { result ≡ min (depth_of_all (terms_view parts.now.items)) (2 ^ 32 - 1) }
{
    let mut most = 0;
    for part in parts {
        most = u32::max(most, part.depth());
    }
    most
}

/// The height of the highest term.
#[cycle(high)]
fn highest(parts: &Vec<Term>) -> u32
    ensures { result ≡ min (height_of_all (terms_view parts.now.items)) (2 ^ 32 - 1) }
{
    let mut most = 0;
    for part in parts {
        most = u32::max(most, part.height());
    }
    most
}

#[cycle(term_copies)]
fn copy_of(alloc: Global, room: Option<&Room>, term: &Term) -> Result<Term, AllocError>
    ensures { IfOk result (λ t. term_view t ≡ term_view term.now) }
{
    take(room, NODE_BYTES)?;
    match term {
        Term::Value(value) => Ok(Term::Value(value.try_copy()?)),
        Term::Load(key) => Ok(Term::Load(key.try_copy()?)),
        Term::Item => Ok(Term::Item),
        Term::Pick { part, field } => {
            let part = boxed_copy(alloc, room, part)?;
            let field = field.try_copy()?;
            Ok(Term::Pick { part, field })
        }
        Term::Follow { part, field, table } => {
            let part = boxed_copy(alloc, room, part)?;
            let (field, table) = (field.try_copy()?, table.try_copy()?);
            Ok(Term::Follow { part, field, table })
        }
        Term::Each { part, field, table } => {
            let part = boxed_copy(alloc, room, part)?;
            let (field, table) = (field.try_copy()?, table.try_copy()?);
            Ok(Term::Each { part, field, table })
        }
        Term::All(parts) => Ok(Term::All(copies_of(alloc, room, parts)?)),
        Term::Over { part, body } => {
            let part = boxed_copy(alloc, room, part)?;
            let body = boxed_copy(alloc, room, body)?;
            Ok(Term::Over { part, body })
        }
        Term::Object { names, parts } => {
            let names = names.try_copy()?;
            let parts = copies_of(alloc, room, parts)?;
            Ok(Term::Object { names, parts })
        }
    }
}

/// The same term, with memory of its own, if there is room for it.
///
/// # Errors
/// `AllocError` if memory runs out.
#[cycle(term_copies)]
pub(crate) fn boxed_copy(
    alloc: Global,
    room: Option<&Room>,
    term: &Term,
) -> Result<Box<Term>, AllocError>
    ensures { IfOk result (λ t. term_view t.value ≡ term_view term.now) }
{
    Ok(Box::new(alloc, copy_of(alloc, room, term)?)?)
}

#[cycle(term_copies)]
fn copies_of(alloc: Global, room: Option<&Room>, terms: &Vec<Term>) -> Result<Vec<Term>, AllocError>
    ensures { IfOk result (λ ts. terms_view ts.items ≡ terms_view terms.now.items) }
{
    let mut copies = Vec::with_capacity(alloc, terms.len())?;
    for term in terms {
        copies.push(copy_of(alloc, room, term)?)?;
    }
    Ok(copies)
}
