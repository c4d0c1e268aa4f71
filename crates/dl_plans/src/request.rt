//! Answers a plan file that a server was sent.

ghost use Rattle.std.specs.Prelude.{◌≡◌, ℕ, List, IfErr, IfOk, IfSome, OnOk};
ghost use Rattle.dl_plans.specs.JoinedTables.{AreNames};
ghost use Rattle.dl_plans.specs.Request.{HasReport, IsNoReport, IsPlanFile, IsReport};
ghost use Rattle.dl_plans.specs.declared.request.RequestFault.TheVariants.{OutOfMemory};

use crate::document;
use crate::picture::report_picture;
use crate::settings::Options;
use crate::table_names::Names;
use dl_documents::{Input, PlanFault, PlanFile};
use dl_picture::terms_of;
use dl_scope::{Report, ScopeFault};
use std::alloc::{AllocError, Global};
use std::hash::RandomState;
use std::sync::Wait;
use std::thread::Threads;
use thiserror::Error;

/// Why there is no report of a plan file that a server was sent.
#[derive(Clone, Copy, Debug, PartialEq, Eq, Error)]
pub enum RequestFault {
    /// The bytes are no document.
    #[error("{0}")]
    Refused(PlanFault),
    /// They are a call script.
    #[error("a call script has no plans: send a plan file")]
    Script,
    /// `serve` refuses the plans.
    #[error("{0}")]
    Run(ScopeFault),
    /// Memory ran out.
    #[error("out of memory")]
    OutOfMemory,
}

impl From<AllocError> for RequestFault {
    ghost from_gives = { λ _ fault. fault ≡ OutOfMemory };

    fn from(_: AllocError) -> RequestFault {
        RequestFault::OutOfMemory
    }
}

/// Serves the plans of a plan file in these bytes, as [`run`](crate::run) does: over its tables and those of the options'
/// database, with as many workers as the options say, and within their `max_answer`. Of the options nothing else counts.
/// `hashing` hashes keys, and nothing that you see depends on it.
///
/// # Errors
/// `Refused` if the bytes are no document, `Script` if they are a call script, `Run` if [`serve`](dl_scope::serve) refuses
/// the plans, and `OutOfMemory`.
pub fn serve_request<T: Threads + Wait + Sync>(
    rt: &T,
    alloc: Global,
    hashing: RandomState,
    bytes: &[u8],
    options: &Options,
) -> Result<Report, RequestFault>
    ensures ok { IfOk result (IsReport options.now bytes.now) }
    ensures err { IfErr result (IsNoReport options.now bytes.now) }
{
    let (file, names) = plan_file(alloc, hashing, bytes, options)?;
    served(rt, alloc, hashing, file, &names, options)
}

/// Serves the plans of a plan file in these bytes, as [`serve_request`] does, and draws what happened, as SVG.
///
/// # Errors
/// Those of [`serve_request`].
pub fn draw_request<T: Threads + Wait + Sync>(
    rt: &T,
    alloc: Global,
    hashing: RandomState,
    bytes: &[u8],
    options: &Options,
) -> Result<String, RequestFault>
    ensures ok { OnOk result (HasReport options.now bytes.now) }
    ensures err { IfErr result (IsNoReport options.now bytes.now) }
{
    let (file, names) = plan_file(alloc, hashing, bytes, options)?;
    let terms = terms_of(alloc, file.plans.as_slice())?;
    let report = served(rt, alloc, hashing, file, &names, options)?;
    let picture = report_picture(alloc, hashing, &report, terms.as_slice())?;
    Ok(picture)
}

/// The plan file in these bytes, and with a database the names of its tables.
///
/// # Errors
/// `Refused`, `Script` or `OutOfMemory`.
fn plan_file(
    alloc: Global,
    hashing: RandomState,
    bytes: &[u8],
    options: &Options,
) -> Result<(PlanFile, Names), RequestFault>
    ensures ok { IfOk result (λ p. IsPlanFile options.now bytes.now p.0) }
    ensures names { IfOk result (λ p. IfSome options.now.database (λ _. AreNames p.1 p.0.tables)) }
    ensures err { IfErr result (IsNoReport options.now bytes.now) }
{
    match document::read(alloc, hashing, bytes, &options.database) {
        Ok((input, names)) => match input {
            Input::Plans(file) => Ok((file, names)),
            Input::Script(_) => Err(RequestFault::Script),
        },
        Err(PlanFault::OutOfMemory) => Err(RequestFault::OutOfMemory),
        Err(fault) => Err(RequestFault::Refused(fault)),
    }
}

/// Serves the plans of a file, and drops its tables: a server may get many.
///
/// # Errors
/// `Run`, as [`serve`](dl_scope::serve) refuses the plans.
fn served<T: Threads + Wait + Sync>(
    rt: &T,
    alloc: Global,
    hashing: RandomState,
    file: PlanFile,
    names: &Names,
    options: &Options,
) -> Result<Report, RequestFault>
    requires { IfSome options.now.database (λ _. AreNames names.now file.tables) }
    ensures ok { (bytes : List ℕ) → IsPlanFile options.now bytes file → IfOk result (IsReport options.now bytes) }
    ensures err { (bytes : List ℕ) → IsPlanFile options.now bytes file → IfErr result (IsNoReport options.now bytes) }
{
    let (left, tables) = document::served(rt, alloc, hashing, file, names, options);
    drop(tables);
    match left {
        Ok(report) => Ok(report),
        Err(fault) => Err(RequestFault::Run(fault)),
    }
}
