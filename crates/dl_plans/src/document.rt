//! Answers a document over a reader and a writer.

ghost use Rattle.std.specs.Prelude.{◌≡◌, ◌≢◌, ◌⊎◌, ◌+◌, ℕ, List, None, IfOk, IfErr, IfSome, OnOk, is_some, option_map, string_bytes};
ghost use Rattle.std.specs.Io.KnownBytes.{Keeps};
ghost use Rattle.serde_json.specs.Data.{Data};
ghost use Rattle.dl_documents.specs.Document.{IsTextOf, Spells};
ghost use Rattle.dl_documents.specs.Faults.{AppliesTo, IsLeast, most_bytes};
ghost use Rattle.dl_documents.specs.OverDatabase.{read_as};
ghost use Rattle.dl_plans.specs.JoinedTables.{AreNames, HasNames};
ghost use Rattle.dl_plans.specs.ReportText.{report_text};
ghost use Rattle.dl_plans.specs.Run.{IsDocument, IsOutput, IsRefused, Outputs, ReadsAtMost, Writes, WritesFront, file_service, setup_of};
ghost use Rattle.dl_scope.specs.Faults.{RefusedAs};
ghost use Rattle.dl_scope.specs.Headline.{Headline};
ghost use Rattle.dl_plans.specs.ScriptText.{script_text};
ghost use Rattle.dl_plans.specs.Statistics.{statistics_text};
ghost use Rattle.dl_plans.specs.declared.settings.Options.{Options};

use crate::QUEUE_PLACES;
use crate::explanations::explanation_lines;
use crate::fault::RunError;
use crate::joined_tables::JoinedTables;
use crate::picture::{kept_terms, report_picture, report_trace};
use crate::report::report_text;
use crate::script_text::run_script;
use crate::settings::Options;
use crate::statistics::statistics_line;
use crate::streams::{read_all, write_all};
use crate::table_names::{Names, table_names};
use crate::whole_file::write_whole;
use dl_documents::{Input, PlanFault, PlanFile, Script, read_input, read_over_database};
use dl_picture::{script_picture, script_trace};
use dl_scope::{Policy, Report, ScopeFault, Setup, serve};
use dl_source::Tables;
use dl_terms::Term;
use dl_workers::NoGate;
use indexmap::IndexSet;
use std::alloc::{AllocError, Global};
use std::hash::RandomState;
use std::io::{Read, Write};
use std::mem::forget;
use std::random::RandomSource;
use std::rt::Files;
use std::sync::Wait;
use std::thread::Threads;

/// Reads a document, makes all of the text that it gives, and then writes it. It reads at most one byte more than a
/// document may have. It serves the plans of a plan file at once, each on a thread of its own, with as many workers as
/// the options say. The file's tables answer, and behind them those of a database, if the options have one: then a plan
/// file of version 2 may lack the member `tables`. If the options name files for them, the picture and the trace of what
/// happened go there first, each as a whole or not at all. If they want explanations or statistics, lines on standard error go last.
/// `hashing` hashes keys, and nothing that you see depends on it.
///
/// Call it at the end of a process: it leaves what it read and served to the system, and doesn't drop it.
///
/// # Errors
/// `Read` if the reader fails, `Refused` if what it has is not a document, `Run` if `serve` refuses the plans of a plan
/// file, `OutOfMemory`, and `Write` if a file or the writer fails. Only with `Write` may the writer have got something:
/// the beginning of the text, or nothing if it was a file.
///
/// # Examples
/// The program `plans` calls it, in `crates/plans`:
///
/// ```rust
/// run(rt, alloc, hashing, &mut reader, &mut writer, options)
/// ```
pub fn run<R: Read, W: Write, T: Threads + Wait + Sync + Files + RandomSource + Eprint>(
    rt: &T,
    alloc: Global,
    hashing: RandomState,
    reader: &mut R,
    writer: &mut W,
    options: Options,
) -> Result<(), RunError>
    ensures ok { OnOk result (IfSome (R.remaining reader.old) (Writes (IsOutput options) (W.contents writer.old) (W.contents writer.new))) }
    ensures refused { IfErr result (λ e. IfSome (R.remaining reader.old) (λ bytes. IsRefused options bytes e)) }
    ensures write { result ≡ Err RunError.Write → IfSome (R.remaining reader.old)
        (WritesFront (IsOutput options) (W.contents writer.old) (W.contents writer.new)) }
    ensures reads { ReadsAtMost (most_bytes + 1) (R.remaining reader.old) (R.remaining reader.new) }
    ensures untouched { IfErr result (λ e. e ≢ RunError.Write → Keeps (W.contents writer.old) (W.contents writer.new)) }
{
    let bytes = read_all(alloc, reader)?;
    let given = output(rt, alloc, hashing, bytes, &options)?;
    keep_files(rt, alloc, &options, &given)?;
    forget(options);
    let written = write_all(writer, given.text.as_bytes());
    tell(rt, &written, &given);
    written
}

/// What a document gives: its text, and if the options ask for them its picture, its trace, the lines of its explanations
/// and the line of its statistics.
#[derive(Drop)]
pub(crate) struct Given {
    pub(crate) text: String,
    pub(crate) picture: Option<String>,
    pub(crate) trace: Option<String>,
    pub(crate) explanations: Option<String>,
    pub(crate) statistics: Option<String>,
}

/// Says the explanations and then the statistics on standard error, if there are any and the text was written.
fn tell<T: Eprint>(rt: &T, written: &Result<(), RunError>, given: &Given) {
    if written.is_err() {
        return;
    }
    if let Some(lines) = &given.explanations {
        let _ = eprint!(rt; "{lines}");
    }
    if let Some(line) = &given.statistics {
        let _ = eprintln!(rt; "{line}");
    }
}

/// Writes the picture and then the trace to their files, if there are any.
pub(crate) fn keep_files<T: Files + RandomSource + Eprint>(
    rt: &T,
    alloc: Global,
    options: &Options,
    given: &Given,
) -> Result<(), RunError>
    ensures { IfErr result (λ e. (e ≡ RunError.Write) ⊎ (e ≡ RunError.OutOfMemory)) }
{
    keep(rt, alloc, &options.picture, &given.picture)?;
    keep(rt, alloc, &options.trace, &given.trace)
}

/// Writes a text to its file, if there is one. If that fails, a line on standard error names the file.
fn keep<T: Files + RandomSource + Eprint>(
    rt: &T,
    alloc: Global,
    file: &Option<String>,
    text: &Option<String>,
) -> Result<(), RunError>
    ensures { IfErr result (λ e. (e ≡ RunError.Write) ⊎ (e ≡ RunError.OutOfMemory)) }
{
    match (file, text) {
        (Some(file), Some(text)) => {
            let kept = write_whole(rt, alloc, file.as_str(), text.as_str());
            if let Err(RunError::Write) = kept {
                let _ = eprintln!(rt; "{file:?} can't be written");
            }
            kept
        }
        _ => Ok(()),
    }
}

/// What a document gives. This drops the bytes once it has read them. It doesn't drop what they say: the process ends,
/// and its memory goes with it.
fn output<T: Threads + Wait + Sync>(
    rt: &T,
    alloc: Global,
    hashing: RandomState,
    bytes: Vec<u8>,
    options: &Options,
) -> Result<Given, RunError>
    ensures ok { IfOk result (λ given. IsOutput options.now bytes.items (string_bytes given.text)) }
    ensures err { IfErr result (IsRefused options.now bytes.items) }
    ensures kept { IfErr result (λ e. e ≢ RunError.Write) }
{
    let read = read(alloc, hashing, &bytes, &options.database);
    drop(bytes);
    match read {
        Ok((input, names)) => answered(rt, alloc, hashing, input, &names, options),
        Err(PlanFault::OutOfMemory) => Err(RunError::OutOfMemory),
        Err(fault) => Err(RunError::Refused(fault)),
    }
}

/// What the bytes of a document say, and with a database the names of a plan file's tables.
///
/// # Errors
/// Those of [`read_input`], or with a database those of [`read_over_database`].
pub(crate) fn read(
    alloc: Global,
    hashing: RandomState,
    bytes: &[u8],
    database: &Option<Tables>,
) -> Result<(Input, Names), PlanFault>
    ensures ok { IfOk result (λ p. (d : Data) × IsTextOf bytes.now d × Spells (read_as (is_some database.now) d) p.0) }
    ensures names { IfOk result (λ p. IfSome database.now (λ _. HasNames p.0 p.1)) }
    ensures passes { OnOk result ((f : PlanFault) → AppliesTo (read_as (is_some database.now)) bytes.now f → ⊥) }
    ensures err { IfErr result (λ f. (f ≡ PlanFault.OutOfMemory) ⊎ IsLeast (AppliesTo (read_as (is_some database.now)) bytes.now) f) }
{
    match database {
        None => {
            let input = read_input(alloc, hashing, bytes)?;
            Ok((input, IndexSet::with_hasher(alloc, hashing)))
        }
        Some(_) => {
            let (document, input) = read_over_database(alloc, hashing, bytes)?;
            let names = table_names(alloc, hashing, &document)?;
            Ok((input, names))
        }
    }
}

/// What a document gives, by what it says and by the names of a plan file's tables.
fn answered<T: Threads + Wait + Sync>(
    rt: &T,
    alloc: Global,
    hashing: RandomState,
    input: Input,
    names: &Names,
    options: &Options,
) -> Result<Given, RunError>
    requires { IfSome options.now.database (λ _. HasNames input names.now) }
    ensures ok { IfOk result (λ given. Outputs options.now input (string_bytes given.text)) }
    ensures err { (bytes : List ℕ) → IsDocument options.now bytes input → IfErr result (IsRefused options.now bytes) }
    ensures kept { IfErr result (λ e. e ≢ RunError.Write) }
{
    match input {
        Input::Script(script) => {
            let given = output_of_script(alloc, hashing, &script, options);
            forget(script);
            made(given)
        }
        Input::Plans(file) => {
            let terms = kept_terms(alloc, file.plans.as_slice(), options);
            let (left, tables) = served(rt, alloc, hashing, file, names, options);
            forget(tables);
            match left {
                Ok(report) => {
                    let given = output_of_report(alloc, hashing, &report, &terms, names, options);
                    forget(report);
                    forget(terms);
                    made(given)
                }
                Err(fault) => Err(RunError::Run(fault)),
            }
        }
    }
}

/// What a document gives, unless memory ran out.
fn made(given: Result<Given, AllocError>) -> Result<Given, RunError>
    ensures ok { IfOk result (λ made. given ≡ Ok made) }
    ensures err { (options : Options) (bytes : List ℕ) → IfErr result (IsRefused options bytes) }
    ensures kept { IfErr result (λ e. e ≢ RunError.Write) }
{
    match given {
        Ok(given) => Ok(given),
        Err(_) => Err(RunError::OutOfMemory),
    }
}

/// What a script gives. Fails if memory runs out.
fn output_of_script(
    alloc: Global,
    hashing: RandomState,
    script: &Script,
    options: &Options,
) -> Result<Given, AllocError>
    ensures text { IfOk result (λ given. string_bytes given.text ≡ script_text script.now) }
    ensures statistics { IfOk result (λ given. given.statistics ≡ None) }
{
    let picture = match &options.picture {
        Some(_) => Some(script_picture(alloc, hashing, script)?),
        None => None,
    };
    let trace = match &options.trace {
        Some(_) => Some(script_trace(alloc, hashing, script)?),
        None => None,
    };
    let text = run_script(alloc, hashing, script)?;
    Ok(Given {
        text,
        picture,
        trace,
        explanations: None,
        statistics: None,
    })
}

/// What a report gives. The picture and the explanations are of what serving the plans with these terms left. The
/// statistics go by the names of the plan file's tables. Fails if memory runs out, or did for the terms.
fn output_of_report(
    alloc: Global,
    hashing: RandomState,
    report: &Report,
    terms: &Result<Option<Vec<Vec<Term>>>, AllocError>,
    names: &Names,
    options: &Options,
) -> Result<Given, AllocError>
    ensures text { IfOk result (λ given. string_bytes given.text ≡ report_text report.now options.now.batches) }
    ensures statistics { IfOk result (λ given. option_map string_bytes given.statistics ≡ statistics_text options.now names.now report.now.history.events) }
{
    let terms = match terms {
        Ok(Some(terms)) => terms.as_slice(),
        Ok(None) => &[],
        Err(_) => return Err(AllocError),
    };
    let picture = match &options.picture {
        Some(_) => Some(report_picture(alloc, hashing, report, terms)?),
        None => None,
    };
    let explanations = if options.explain {
        Some(explanation_lines(alloc, hashing, report, terms)?)
    } else {
        None
    };
    let trace = match &options.trace {
        Some(_) => Some(report_trace(alloc, report, options.workers)?),
        None => None,
    };
    let statistics = statistics_line(alloc, report.history(), names, options)?;
    let text = report_text(alloc, report, options.batches)?;
    Ok(Given {
        text,
        picture,
        trace,
        explanations,
        statistics,
    })
}

/// Serves the plans of a file over its tables and those of the options' database, within the limits of the file, with as
/// many workers as the options say and a queue of [`QUEUE_PLACES`]. The tables of the file come back.
///
/// # Errors
/// Those of [`serve`].
pub(crate) fn served<T: Threads + Wait + Sync>(
    rt: &T,
    alloc: Global,
    hashing: RandomState,
    file: PlanFile,
    names: &Names,
    options: &Options,
) -> (Result<Report, ScopeFault>, Tables)
    requires { IfSome options.now.database (λ _. AreNames names.now file.tables) }
    ensures headline { IfOk result.0 (Headline (file_service options.now file) file.plans.items) }
    ensures refused { IfErr result.0 (RefusedAs (file_service options.now file) (setup_of options.now file) file.plans.items) }
{
    let PlanFile {
        tables,
        plans,
        limits,
        table_limits,
    } = file;
    let setup = Setup {
        limits,
        tables: table_limits,
        workers: options.workers,
        policy: Policy::Eager,
        queue: QUEUE_PLACES,
        max_answer: options.max_answer,
    };
    let source = JoinedTables::new(&tables, names, &options.database);
    let left = serve(rt, alloc, hashing, &source, setup, plans, &NoGate);
    (left, tables)
}
