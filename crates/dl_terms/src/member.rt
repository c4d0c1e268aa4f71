//! A member of a value.

ghost use Rattle.std.specs.Prelude.{◌≡◌, false, IfOk, IfSome, option_map};
ghost use Rattle.serde_json.specs.View.{view};
ghost use Rattle.serde_json.specs.Written.{has_float};
ghost use Rattle.dl_terms.specs.Inside.Member.{member_data, IsWhole};

use dl_values::Json;
use serde_json::Value;
use std::alloc::{AllocError, Global};

/// The member of a value that has a name.
#[derive(Drop)]
pub(crate) enum Member<'v> {
    /// There is none.
    Missing,
    /// It lies in a row.
    Lent(&'v Value),
    /// It is one of the values of an object, or a copy of it.
    Own(Json),
}

impl<'v> Member<'v> {
    /// The member itself, if there is one.
    pub(crate) fn value(&self) -> Option<&Value>
        ensures { option_map (λ v. view v.now) result ≡ member_data self.now }
    {
        match self {
            Member::Missing => None,
            Member::Lent(value) => Some(value),
            Member::Own(value) => Some(value.value()),
        }
    }

    /// The member, with memory of its own, if there is one.
    ///
    /// # Errors
    /// `AllocError` if memory runs out.
    pub(crate) fn into_json(self, alloc: Global) -> Result<Option<Json>, AllocError>
        requires { IsWhole self }
        ensures { IfOk result (λ j. j ≡ member_data self.entry) }
    {
        match self {
            Member::Missing => Ok(None),
            Member::Lent(value) => Ok(Some(Json::new(alloc, value.clone()?)?)),
            Member::Own(value) => Ok(Some(value)),
        }
    }
}
