//! Writes refusals as JSON.
#![tactic(auto, unfolding(json::specs::Print::escape_byte))]

ghost use Rattle.std.specs.Prelude.{◌≡◌, IfOk, string_bytes};
ghost use Rattle.dl_server.specs.Answers.{run_status};
ghost use Rattle.dl_server.specs.RefusalJson.{refusal_json, scope_fault_json, script_json};

use dl_documents::PlanFault;
use dl_haxl::RunFault;
use dl_scope::ScopeFault;
use dl_source::TableFault;
use dl_values::LimitFault;
use http::StatusCode;
use std::alloc::{AllocError, Global};

/// Why a document is refused, as JSON: an object with the member `refused`, the cause in the words of the program `plans`,
/// and the place, if the cause has one: the numbers of the `plan` and the `step`, or of the `call`.
///
/// # Errors
/// `AllocError` if memory runs out.
pub fn refusal_json(alloc: Global, fault: PlanFault) -> Result<String, AllocError>
    ensures { IfOk result (λ text. string_bytes text ≡ refusal_json fault) }
{
    match fault {
        PlanFault::TooLarge => String::from_str(alloc, "{\"refused\":\"too large\"}"),
        PlanFault::NotJson => String::from_str(alloc, "{\"refused\":\"not json\"}"),
        PlanFault::Version => String::from_str(alloc, "{\"refused\":\"version\"}"),
        PlanFault::Top => String::from_str(alloc, "{\"refused\":\"top\"}"),
        PlanFault::BadCall { call } => format!(in alloc;
            "{{\"call\":{call},\"refused\":\"call\"}}"
        ),
        PlanFault::Shape { plan, step } => {
            format!(in alloc; "{{\"plan\":{plan},\"refused\":\"step\",\"step\":{step}}}")
        }
        PlanFault::TooDeep { plan, step } => {
            format!(in alloc; "{{\"plan\":{plan},\"refused\":\"too deep\",\"step\":{step}}}")
        }
        PlanFault::TooManySteps { plan } => {
            format!(in alloc; "{{\"plan\":{plan},\"refused\":\"too many steps\"}}")
        }
        PlanFault::Table(fault) => String::from_str(alloc, table_refusal(fault)),
        PlanFault::Limit(fault) => String::from_str(alloc, limit_refusal(fault)),
        PlanFault::OutOfMemory => String::from_str(alloc, "{\"refused\":\"memory\"}"),
    }
}

/// Why tables are refused.
fn table_refusal(fault: TableFault) -> &'static str
    ensures { result.now ≡ refusal_json (PlanFault.Table fault) }
{
    match fault {
        TableFault::Shape => "{\"refused\":\"table Shape\"}",
        TableFault::BadKey => "{\"refused\":\"table BadKey\"}",
        TableFault::TextTooLong => "{\"refused\":\"table TextTooLong\"}",
        TableFault::NotWhole => "{\"refused\":\"table NotWhole\"}",
        TableFault::DuplicateTable => "{\"refused\":\"table DuplicateTable\"}",
        TableFault::DuplicateKey => "{\"refused\":\"table DuplicateKey\"}",
        TableFault::OutOfMemory => "{\"refused\":\"table OutOfMemory\"}",
    }
}

/// Why limits are refused.
fn limit_refusal(fault: LimitFault) -> &'static str
    ensures { result.now ≡ refusal_json (PlanFault.Limit fault) }
{
    match fault {
        LimitFault::BatchLimit => "{\"refused\":\"limit BatchLimit\"}",
        LimitFault::CellLimit => "{\"refused\":\"limit CellLimit\"}",
        LimitFault::CallLimit => "{\"refused\":\"limit CallLimit\"}",
    }
}

/// What is answered to a call script, as JSON.
///
/// # Errors
/// `AllocError` if memory runs out.
pub(crate) fn script_json(alloc: Global) -> Result<String, AllocError>
    ensures { IfOk result (λ text. string_bytes text ≡ script_json) }
{
    String::from_str(alloc, "{\"refused\":\"script\"}")
}

/// Why plans aren't served, as JSON: an object with the member `failed`, the name of the fault.
///
/// # Errors
/// `AllocError` if memory runs out.
pub fn scope_fault_json(alloc: Global, fault: ScopeFault) -> Result<String, AllocError>
    ensures { IfOk result (λ text. string_bytes text ≡ scope_fault_json fault) }
{
    String::from_str(alloc, scope_failure(fault))
}

/// The status of the response that says so: 413 if memory, or what `--max-answer` allows, ran out for a plan.
pub(crate) fn run_status(fault: ScopeFault) -> StatusCode
    ensures { result ≡ run_status fault }
{
    match fault {
        ScopeFault::Run {
            fault: RunFault::OutOfMemory,
            ..
        } => StatusCode::PAYLOAD_TOO_LARGE,
        _ => StatusCode::INTERNAL_SERVER_ERROR,
    }
}

/// Why plans aren't served.
fn scope_failure(fault: ScopeFault) -> &'static str
    ensures { result.now ≡ scope_fault_json fault }
{
    match fault {
        ScopeFault::NoPlans => "{\"failed\":\"NoPlans\"}",
        ScopeFault::TooManyPlans => "{\"failed\":\"TooManyPlans\"}",
        ScopeFault::BadWorkers => "{\"failed\":\"BadWorkers\"}",
        ScopeFault::Start(_) => "{\"failed\":\"Start\"}",
        ScopeFault::Queue(_) => "{\"failed\":\"Queue\"}",
        ScopeFault::Run { .. } => "{\"failed\":\"Run\"}",
        ScopeFault::Stopped => "{\"failed\":\"Stopped\"}",
        ScopeFault::Close(_) => "{\"failed\":\"Close\"}",
        ScopeFault::Unfetched { .. } => "{\"failed\":\"Unfetched\"}",
        ScopeFault::OutOfMemory => "{\"failed\":\"OutOfMemory\"}",
    }
}
