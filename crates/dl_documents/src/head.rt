//! Reads the head of a document: its kind, its version, its members and the numbers of its limits.

ghost use Rattle.std.specs.Prelude.{◌≡◌, MatchOption, IfOk, IfErr, IsTrue, ◌↔◌, Some, pos};
ghost use Rattle.std.specs.List.{list_all};
ghost use Rattle.dl_documents.specs.Document.{IsOfVersion, IsOfNoVersion, forms_of, version_number, has_only_known, is_known, is_script_member, is_script};
ghost use Rattle.dl_documents.specs.Faults.{Causes, IsLeast};
ghost use Rattle.dl_documents.specs.Inside.Results.{HasHead};
ghost use Rattle.dl_documents.specs.OverDatabase.{is_later, lacks_tables};
ghost use Rattle.dl_documents.specs.Inside.Top.{top_data, IsApart};

use crate::fault::PlanFault;
use crate::forms::Forms;
use crate::limits::{self, Numbers};
use crate::member::member;
use crate::top::Top;
use crate::tree::whole;
use json::Value;

/// The version of a document. In the first, a batch may mix tables. In the second, each batch has keys of one table,
/// and a table may have a limit of its own. Version 3 of plan files is the second with more forms of terms.
#[derive(Clone, Copy)]
pub(crate) enum Version {
    First,
    Second,
}

/// The version of a document, the forms of its terms, and the numbers of its limits.
#[derive(Clone, Copy)]
pub(crate) struct Head {
    pub(crate) version: Version,
    pub(crate) forms: Forms,
    pub(crate) numbers: Numbers,
}

/// The head of a document.
///
/// # Errors
/// `Version` if it has neither version, and `Top` if a member is not of its kind and version, or a limit isn't a whole
/// number.
pub(crate) fn read_head(top: &Top<'_>) -> Result<Head, PlanFault>
    ensures ok { IfOk result (HasHead (top_data top.now)) }
    ensures err { IfErr result (IsLeast (Causes (top_data top.now))) }
{
    let Some(version) = version_of(top) else {
        return Err(PlanFault::Version);
    };
    if !has_only_known(version, top) {
        return Err(PlanFault::Top);
    }
    match limits::given(top) {
        Some(numbers) => {
            let forms = forms_of(top);
            Ok(Head {
                version,
                forms,
                numbers,
            })
        }
        None => Err(PlanFault::Top),
    }
}

/// Whether the document is a call script. Else it is a plan file.
pub(crate) fn is_script(top: &Top<'_>) -> bool
    ensures { result ≡ is_script (top_data top.now) }
{
    member(top, "script").is_some()
}

/// Whether the document is a plan file of version 2 or 3 without the member `tables`.
pub(crate) fn lacks_tables(top: &Top<'_>) -> bool
    requires { IsApart top.now }
    ensures { result ≡ lacks_tables (top_data top.now) }
{
    top.tables.is_none() && !is_script(top) && is_later(top)
}

/// The version of a document, if it has one.
fn version_of(top: &Top<'_>) -> Option<Version>
    ensures { MatchOption result (IsOfNoVersion (top_data top.now)) (IsOfVersion (top_data top.now)) }
{
    if has_number(top, 1) {
        return Some(Version::First);
    }
    if has_number(top, 2) || (!is_script(top) && has_number(top, 3)) {
        return Some(Version::Second);
    }
    None
}

/// The forms that a term of the document may have.
fn forms_of(top: &Top<'_>) -> Forms
    ensures { result ≡ forms_of (top_data top.now) }
{
    if !is_script(top) && has_number(top, 3) {
        Forms::Nine { bodies: 0 }
    } else {
        Forms::Six
    }
}

/// Whether the document's version has the number 2 or 3.
fn is_later(top: &Top<'_>) -> bool
    ensures { result ≡ is_later (top_data top.now) }
{
    has_number(top, 2) || has_number(top, 3)
}

/// Whether the document's version has this number.
fn has_number(top: &Top<'_>, number: i128) -> bool
    ensures { IsTrue result ↔ (version_number (top_data top.now) ≡ Some number) }
{
    let name = if is_script(top) { "script" } else { "version" };
    let given = member(top, name).and_then(|value| whole(value));
    given == Some(number)
}

/// Whether each member of the document is one of its kind and version.
fn has_only_known(version: Version, top: &Top<'_>) -> bool
    ensures { result ≡ has_only_known version (top_data top.now) }
{
    let is_script = is_script(top);
    let knows_tables = top.tables.is_none() || is_known(is_script, version, "tables");
    knows_tables && all_known(is_script, version, &top.members)
}

/// Whether each of these is a member of a script, or of a plan file.
fn all_known(is_script: bool, version: Version, members: &[(&str, Value<'_>)]) -> bool
    ensures { result ≡ list_all (λ m. is_known is_script version m.0.now) members.now }
{
    members
        .iter()
        .all(|member| is_known(is_script, version, member.0))
}

/// Whether a member of a script, or of a plan file, has this name.
fn is_known(is_script: bool, version: Version, name: &str) -> bool
    ensures { result ≡ is_known is_script version name.now }
{
    if is_script {
        is_script_member(version, name)
    } else {
        matches!(
            name,
            "version" | "tables" | "plans" | "maxBatchSize" | "maxCells" | "maxCalls"
        )
    }
}

/// Whether a member of a script of this version has this name.
fn is_script_member(version: Version, name: &str) -> bool
    ensures { result ≡ is_script_member version name.now }
{
    match version {
        Version::First => matches!(
            name,
            "script" | "calls" | "maxBatchSize" | "maxCells" | "maxCalls"
        ),
        Version::Second => matches!(
            name,
            "script" | "calls" | "tableLimits" | "maxBatchSize" | "maxCells" | "maxCalls"
        ),
    }
}
