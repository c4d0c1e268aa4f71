//! Reads the limits of a document.

ghost use Rattle.std.specs.Prelude.{◌≡◌, pos, false, bytes_eq, codes, IfOk, IfErr, MatchOption};
ghost use Rattle.dl_values.specs.Limits.{IsLimit, IsNoLimit};
ghost use Rattle.dl_documents.specs.Document.{number_at};
ghost use Rattle.dl_documents.specs.Faults.{IsOutside};
ghost use Rattle.dl_documents.specs.Numbers.{AreGiven, LacksNumber, AreLimitsOf, IsFirstOutside};
ghost use Rattle.dl_documents.specs.Inside.Top.{top_data};

use crate::member::member;
use crate::top::Top;
use crate::tree::whole;
use dl_values::{LARGEST_LIMIT, LimitFault, Limits};

/// The numbers that a document gives for its limits.
#[derive(Clone, Copy)]
pub(crate) struct Numbers {
    pub(crate) max_batch: i128,
    pub(crate) max_cells: i128,
    pub(crate) max_calls: i128,
}

/// The numbers of a document, if each is a whole number.
pub(crate) fn given(top: &Top<'_>) -> Option<Numbers>
    ensures { MatchOption result (LacksNumber (top_data top.now)) (AreGiven (top_data top.now)) }
{
    let max_batch = number(top, "maxBatchSize")?;
    let max_cells = number(top, "maxCells")?;
    let max_calls = number(top, "maxCalls")?;
    Some(Numbers {
        max_batch,
        max_cells,
        max_calls,
    })
}

/// The limits of these numbers.
///
/// # Errors
/// The first of the three that isn't a limit.
pub(crate) fn limits(numbers: Numbers) -> Result<Limits, LimitFault>
    ensures ok { IfOk result (AreLimitsOf numbers) }
    ensures err { IfErr result (IsFirstOutside numbers) }
{
    Limits::new(
        limit(numbers.max_batch),
        limit(numbers.max_cells),
        limit(numbers.max_calls),
    )
}

/// The whole number of a member, or the largest limit if there is no such member.
fn number(top: &Top<'_>, name: &str) -> Option<i128>
    requires { bytes_eq name.now (codes "tables") ≡ false }
    ensures { result ≡ number_at name.now (top_data top.now) }
{
    match member(top, name) {
        Some(value) => whole(value),
        None => Some(i128::from(LARGEST_LIMIT)),
    }
}

/// The number as a `u32`, or 0, which no limit is, if it doesn't fit.
pub(crate) fn limit(number: i128) -> u32
    ensures inside { IsLimit result → number ≡ pos result }
    ensures outside { IsNoLimit result → IsOutside number }
{
    u32::try_from(number).unwrap_or(0)
}
