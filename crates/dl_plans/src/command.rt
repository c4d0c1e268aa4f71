//! The command line.

ghost use Rattle.std.specs.Prelude.{◌≡◌, ◌&&◌, IfOk, IfSome, map, is_some, option_map, false, string_bytes};
ghost use Rattle.clap.specs.Words.{App, Rule, app_of, rule_of, found_of, matches_of, rows_of, subcommand_of, subcommand_rows_of, with_rule};
ghost use Rattle.dl_plans.specs.Options.{plans_app, plans_words_app, document_app, file_words_app, program_app, serve_app, server_app, have_one_name, AreApart, AreGiven, GivesMost};
ghost use Rattle.dl_plans.specs.Options.{IsServing, Migrates, bounded_answer_rule, tables_rule, to_rule, workers_rule, max_answer_rule, batches_rule, explain_rule, statistics_rule, picture_rule, trace_rule, database_rule, history_rule};

use crate::settings::Options;
use clap::error::ErrorKind;
use clap::{Arg, ArgAction, ArgMatches, Command, Error, value_parser};
use dl_migration::Target;
use std::alloc::{AllocError, Global};
use std::convert::AsStr;

/// The options in the words behind the program's name, `[--workers N] [--max-answer N] [--batches] [--explain]
/// [--statistics] [--picture FILE] [--trace FILE] [--database FILE] [--history FILE] [migrate [--to N]]`, and the file of
/// the database. The number of workers is 1 to 16, and 3 if you don't give it; that behind `migrate` is 2 or 3, and else 2.
/// The most bytes are 1 to 4,294,967,295, or have no bound. Or the words are `serve [--workers N] [--max-answer N]
/// [--database FILE | --tables FILE]`, of which no option comes in front; then the most bytes are 16 MiB if you don't give
/// them. The options have no tables of a database yet.
///
/// # Errors
/// The help, if the words ask for it; why the words are wrong, with the usage; or that memory ran out.
pub fn options<'a, S: AsStr>(
    alloc: Global,
    words: &'a [S],
) -> Result<(Options, Option<String>), Error>
    ensures given { let texts = map S.text words.entry.now in
        IfOk result (λ g. AreGiven (matches_of plans_app texts) (subcommand_of plans_app texts) g.0 g.1) }
    ensures apart { IfOk result (λ g. AreApart g.0.picture g.0.trace g.1) }
    ensures history { IfOk result (λ g. AreApart g.0.picture g.0.trace g.0.history) }
    ensures source { IfOk result (λ g. (is_some g.1 && is_some g.0.tables) ≡ false) }
{
    let mut command = command(alloc)?;
    read(alloc, &mut command, words)
}

/// Whether two of the files have one name: of those that are written, and one that is read.
fn has_file_twice(picture: &Option<String>, trace: &Option<String>, read: &Option<String>) -> bool
    ensures { result ≡ false → AreApart picture.now trace.now read.now }
{
    have_one_name(picture, trace) || have_one_name(picture, read) || have_one_name(trace, read)
}

/// Whether there are two files, with one name.
fn have_one_name(file: &Option<String>, other: &Option<String>) -> bool
    ensures { result ≡ have_one_name file.now other.now }
{
    match (file, other) {
        (Some(file), Some(other)) => file == other,
        _ => false,
    }
}

/// What the words give by the command line.
fn read<'a, S: AsStr>(
    alloc: Global,
    command: &mut Command<'a>,
    words: &'a [S],
) -> Result<(Options, Option<String>), Error>
    requires { app_of command.old ≡ plans_app }
    ensures given { let texts = map S.text words.entry.now in
        IfOk result (λ g. AreGiven (matches_of plans_app texts) (subcommand_of plans_app texts) g.0 g.1) }
    ensures apart { IfOk result (λ g. AreApart g.0.picture g.0.trace g.1) }
    ensures history { IfOk result (λ g. AreApart g.0.picture g.0.trace g.0.history) }
    ensures source { IfOk result (λ g. (is_some g.1 && is_some g.0.tables) ≡ false) }
{
    match command.try_get_matches_from_mut(words) {
        Ok(matches) => given(alloc, command, &matches),
        Err(error) => Err(refusal(command, error)),
    }
}

/// What the matches give.
fn given(
    alloc: Global,
    command: &mut Command<'_>,
    matches: &ArgMatches,
) -> Result<(Options, Option<String>), Error>
    ensures given { IfOk result (λ g. AreGiven (rows_of (found_of matches.now)) (subcommand_rows_of matches.now) g.0 g.1) }
    ensures apart { IfOk result (λ g. AreApart g.0.picture g.0.trace g.1) }
    ensures history { IfOk result (λ g. AreApart g.0.picture g.0.trace g.0.history) }
    ensures source { IfOk result (λ g. (is_some g.1 && is_some g.0.tables) ≡ false) }
{
    let (own, serve) = serving(matches);
    if serve && matches.args_present() {
        return Err(out_of_place(command));
    }
    let workers = match own.get_one::<u32>("workers") {
        Some(workers) if (1..=16).contains(&workers) => workers,
        _ => return Err(out_of_range(command)),
    };
    let Some(max_answer) = most_bytes(own) else {
        return Err(out_of_range(command));
    };
    let Some(migrate) = migration(matches) else {
        return Err(out_of_range(command));
    };
    let database = copied(alloc, own.get_str("database"))?;
    let options = Options {
        workers,
        max_answer,
        batches: matches.get_flag("batches"),
        explain: matches.get_flag("explain"),
        statistics: matches.get_flag("statistics"),
        picture: copied(alloc, matches.get_str("picture"))?,
        trace: copied(alloc, matches.get_str("trace"))?,
        database: None,
        migrate,
        history: copied(alloc, matches.get_str("history"))?,
        serve,
        tables: copied(alloc, own.get_str("tables"))?,
    };
    apart(command, options, database)
}

/// The matches of the options that say how plans are served, and whether `serve` is in use, whose they then are.
fn serving<'m, 'a>(matches: &'m ArgMatches<'a>) -> (&'m ArgMatches<'a>, bool)
    ensures { IsServing result.1 (rows_of (found_of matches.now)) (subcommand_rows_of matches.now) (rows_of (found_of result.0.now)) }
{
    match matches.subcommand_matches("serve") {
        Some(own) => (own, true),
        None => (matches, false),
    }
}

/// What was given, if no two options name the same file, and one source of tables at most.
fn apart(
    command: &mut Command<'_>,
    options: Options,
    database: Option<String>,
) -> Result<(Options, Option<String>), Error>
    ensures given { IfOk result (λ g. g ≡ (options, database)) }
    ensures apart { IfOk result (λ g. AreApart g.0.picture g.0.trace g.1) }
    ensures history { IfOk result (λ g. AreApart g.0.picture g.0.trace g.0.history) }
    ensures source { IfOk result (λ g. (is_some g.1 && is_some g.0.tables) ≡ false) }
{
    if has_file_twice(&options.picture, &options.trace, &database)
        || has_file_twice(&options.picture, &options.trace, &options.history)
    {
        return Err(out_of_files(command));
    }
    if are_two(&database, &options.tables) {
        return Err(out_of_sources(command));
    }
    Ok((options, database))
}

/// Whether both files are named.
fn are_two(file: &Option<String>, other: &Option<String>) -> bool
    ensures { result ≡ (is_some file.now && is_some other.now) }
{
    file.is_some() && other.is_some()
}

/// The most bytes of a plan's answers, if the matches give a number, or `None` if it is out of range.
fn most_bytes(matches: &ArgMatches) -> Option<Option<u64>>
    ensures { IfSome result (GivesMost (rows_of (found_of matches.now))) }
{
    match matches.get_str("max-answer") {
        None => Some(None),
        Some(_) => match matches.get_one::<u32>("max-answer") {
            Some(most) if most >= 1 => Some(Some(u64::from(most))),
            _ => None,
        },
    }
}

/// The version in which to write a document, if the matches ask for that, or `None` if its number is out of range.
fn migration(matches: &ArgMatches) -> Option<Option<Target>>
    ensures { IfSome result (Migrates (subcommand_rows_of matches.now)) }
{
    match matches.subcommand_matches("migrate") {
        None => Some(None),
        Some(own) => match own.get_one::<u32>("to") {
            Some(2) => Some(Some(Target::Second)),
            Some(3) => Some(Some(Target::Third)),
            _ => None,
        },
    }
}

/// A copy of a text, if there is one.
fn copied(alloc: Global, text: Option<&str>) -> Result<Option<String>, AllocError>
    ensures { IfOk result (λ copy. option_map string_bytes copy ≡ option_map (λ t. t.now) text.entry) }
{
    match text {
        Some(text) => Ok(Some(String::from_str(alloc, text)?)),
        None => Ok(None),
    }
}

/// The error for words of which one isn't UTF-8, with the usage in its text.
pub(crate) fn unreadable(alloc: Global) -> Error {
    let message = "invalid UTF-8 was detected in one or more arguments";
    match command(alloc) {
        Ok(mut command) => refused(&mut command, ErrorKind::InvalidValue, message),
        Err(error) => Error::from(error),
    }
}

/// The error for words that clap refuses: of a number that is out of range it says the range.
fn refusal(command: &mut Command<'_>, error: Error) -> Error {
    match error.kind() {
        ErrorKind::ValueValidation => out_of_range(command),
        _ => error,
    }
}

/// The error for a number that is out of range, with the usage in its text.
fn out_of_range(command: &mut Command<'_>) -> Error {
    let message =
        "--workers takes a number from 1 to 16, --max-answer one from 1 to 4294967295, and --to 2 or 3";
    refused(command, ErrorKind::ValueValidation, message)
}

/// The error for a file that two options name, with the usage in its text.
fn out_of_files(command: &mut Command<'_>) -> Error {
    let message = "two options name the same file";
    refused(command, ErrorKind::ArgumentConflict, message)
}

/// The error for two sources of tables, with the usage in its text.
fn out_of_sources(command: &mut Command<'_>) -> Error {
    let message = "--database and --tables: give one of them";
    refused(command, ErrorKind::ArgumentConflict, message)
}

/// The error for an option in front of `serve`, with the usage in its text.
fn out_of_place(command: &mut Command<'_>) -> Error {
    let message = "the options of serve come behind it";
    refused(command, ErrorKind::ArgumentConflict, message)
}

/// An error of the command line that says this, with the usage in its text, or that memory ran out.
fn refused(command: &mut Command<'_>, kind: ErrorKind, message: &str) -> Error {
    match command.error(kind, message) {
        Ok(error) => error,
        Err(error) => Error::from(error),
    }
}

/// The command line, with the version of the program.
fn command<'a>(alloc: Global) -> Result<Command<'a>, AllocError>
    ensures { IfOk result (λ c. app_of c ≡ plans_app) }
{
    let words = plans_words(alloc)?;
    Ok(words.version("0.6.0"))
}

/// The command line without its version.
fn plans_words<'a>(alloc: Global) -> Result<Command<'a>, AllocError>
    ensures { IfOk result (λ c. app_of c ≡ plans_words_app) }
{
    let serve = serve_words(alloc)?;
    document_words(alloc)?.subcommand(serve)
}

/// `serve`, with its options.
fn serve_words<'a>(alloc: Global) -> Result<Command<'a>, AllocError>
    ensures { IfOk result (λ c. app_of c ≡ serve_app) }
{
    let words = with(Ok(server(alloc)), workers(alloc));
    let words = with(words, bounded_answer(alloc));
    let words = with(words, database(alloc));
    with(words, tables(alloc))
}

/// `serve` without options.
fn server<'a>(alloc: Global) -> Command<'a>
    ensures { app_of result ≡ server_app }
{
    let about = "Answers the requests of one HTTP connection, on standard input and output";
    Command::new(alloc, "serve")
        .about(about)
        .override_usage("plans serve [OPTIONS]")
}

/// `--max-answer N`, of `serve`.
fn bounded_answer<'a>(alloc: Global) -> Arg<'a>
    ensures rule { rule_of result ≡ bounded_answer_rule }
    ensures local { result.global ≡ false }
{
    max_answer(alloc).default_value("16777216")
}

/// `--tables FILE`.
fn tables<'a>(alloc: Global) -> Arg<'a>
    ensures rule { rule_of result ≡ tables_rule }
    ensures local { result.global ≡ false }
{
    Arg::new(alloc, "tables")
        .long("tables")
        .value_name("FILE")
        .help("Answers from these tables too, a list in JSON as a plan file has it")
}

/// The options for a document, and `migrate`.
fn document_words<'a>(alloc: Global) -> Result<Command<'a>, AllocError>
    ensures { IfOk result (λ c. app_of c ≡ document_app) }
{
    let about =
        "Writes a plan file of version 1 as one of version 2, or of either as one of version 3";
    let migrate = Command::new(alloc, "migrate")
        .about(about)
        .override_usage("plans migrate [--to <N>]")
        .arg(to(alloc))?;
    file_words(alloc)?.subcommand(migrate)
}

/// `--to N`.
fn to<'a>(alloc: Global) -> Arg<'a>
    ensures rule { rule_of result ≡ to_rule }
    ensures local { result.global ≡ false }
{
    Arg::new(alloc, "to")
        .long("to")
        .value_name("N")
        .value_parser(value_parser!(u32).range(2..=3))
        .default_value("2")
        .help("The version to write, 2 or 3")
}

/// The options for answering a document.
fn file_words<'a>(alloc: Global) -> Result<Command<'a>, AllocError>
    ensures { IfOk result (λ c. app_of c ≡ file_words_app) }
{
    let words = with(Ok(program(alloc)), workers(alloc));
    let words = with(words, max_answer(alloc));
    let words = with(words, batches(alloc));
    let words = with(words, explain(alloc));
    let words = with(words, statistics(alloc));
    let words = with(words, picture(alloc));
    let words = with(words, trace(alloc));
    let words = with(words, database(alloc));
    with(words, history(alloc))
}

/// The command line without options.
fn program<'a>(alloc: Global) -> Command<'a>
    ensures { app_of result ≡ program_app }
{
    Command::new(alloc, "plans")
        .about("Answers a document on standard input")
        .no_binary_name(true)
}

/// These words with one option more, unless memory ran out.
fn with<'a>(words: Result<Command<'a>, AllocError>, arg: Arg<'a>) -> Result<Command<'a>, AllocError>
    requires { arg.global ≡ false }
    ensures { (app : App) (rule : Rule) → rule_of arg.entry ≡ rule → IfOk words.entry (λ c. app_of c ≡ app)
        → IfOk result (λ c. app_of c ≡ with_rule app rule) }
{
    words?.arg(arg)
}

/// `--workers N`.
fn workers<'a>(alloc: Global) -> Arg<'a>
    ensures rule { rule_of result ≡ workers_rule }
    ensures local { result.global ≡ false }
{
    Arg::new(alloc, "workers")
        .long("workers")
        .value_name("N")
        .value_parser(value_parser!(u32).range(1..=16))
        .default_value("3")
        .help("How many workers fetch for a plan file, 1 to 16")
}

/// `--max-answer N`.
fn max_answer<'a>(alloc: Global) -> Arg<'a>
    ensures rule { rule_of result ≡ max_answer_rule }
    ensures local { result.global ≡ false }
{
    Arg::new(alloc, "max-answer")
        .long("max-answer")
        .value_name("N")
        .value_parser(value_parser!(u32).range(1..=4_294_967_295))
        .help("The most bytes that a plan's answers may take, with what its terms copy on the way")
}

/// `--batches`.
fn batches<'a>(alloc: Global) -> Arg<'a>
    ensures rule { rule_of result ≡ batches_rule }
    ensures local { result.global ≡ false }
{
    Arg::new(alloc, "batches")
        .long("batches")
        .action(ArgAction::SetTrue)
        .help("Prints the rounds and batches too, of a plan file with exactly one plan")
}

/// `--explain`.
fn explain<'a>(alloc: Global) -> Arg<'a>
    ensures rule { rule_of result ≡ explain_rule }
    ensures local { result.global ≡ false }
{
    Arg::new(alloc, "explain")
        .long("explain")
        .action(ArgAction::SetTrue)
        .help("Says on standard error where the faults of a plan file's answers come from")
}

/// `--statistics`.
fn statistics<'a>(alloc: Global) -> Arg<'a>
    ensures rule { rule_of result ≡ statistics_rule }
    ensures local { result.global ≡ false }
{
    Arg::new(alloc, "statistics")
        .long("statistics")
        .action(ArgAction::SetTrue)
        .help("Says on standard error how often a plan file asked the database")
}

/// `--picture FILE`.
fn picture<'a>(alloc: Global) -> Arg<'a>
    ensures rule { rule_of result ≡ picture_rule }
    ensures local { result.global ≡ false }
{
    Arg::new(alloc, "picture")
        .long("picture")
        .value_name("FILE")
        .help("Draws what happened into a file too, as SVG")
}

/// `--trace FILE`.
fn trace<'a>(alloc: Global) -> Arg<'a>
    ensures rule { rule_of result ≡ trace_rule }
    ensures local { result.global ≡ false }
{
    Arg::new(alloc, "trace")
        .long("trace")
        .value_name("FILE")
        .help("Writes what happened into a file too, as a trace in JSON")
}

/// `--database FILE`.
fn database<'a>(alloc: Global) -> Arg<'a>
    ensures rule { rule_of result ≡ database_rule }
    ensures local { result.global ≡ false }
{
    Arg::new(alloc, "database")
        .long("database")
        .value_name("FILE")
        .help("Answers from the tables of a SQLite database too")
}

/// `--history FILE`.
fn history<'a>(alloc: Global) -> Arg<'a>
    ensures rule { rule_of result ≡ history_rule }
    ensures local { result.global ≡ false }
{
    Arg::new(alloc, "history")
        .long("history")
        .value_name("FILE")
        .help("Prints the events of a history that a host wrote to a file, and answers no document")
}
