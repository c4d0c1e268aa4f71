//! What the words of the command line ask for.

use dl_desk::LARGEST_LIMIT;
use dl_scope::Policy;
use thiserror::Error;

/// What the program runs.
#[derive(Clone, Copy)]
pub(crate) enum Workload {
    /// Loads the keys one by one on a desk, then dispatches.
    OneByOne(Ids),
    /// The same, with keys of tables in turn.
    OfTables(TableTurns),
    /// Makes the keys, and then calls of a desk.
    Listed(Calls),
    /// Loads, clears and loads again each key in turn.
    Clears,
    /// Reads tables with a row for each key, and fetches the keys, a batch at a time.
    Tables(Ids),
    /// Calls of a shared loader.
    Shared(Callers),
    /// Evaluates terms over a shared loader.
    Terms(Evaluated),
    /// Serves plans that make loads one after another, all at once, over a source that takes time.
    Gathered(Gathered),
}

/// Plans over a source that takes time.
#[derive(Clone, Copy)]
pub(crate) struct Gathered {
    pub(crate) plans: u32,
    pub(crate) workers: u32,
    /// How many microseconds a fetch takes.
    pub(crate) micros: u32,
    /// Whether every fourth load is from a table of which a fetch takes longer.
    pub(crate) has_slow: bool,
    /// When plans that have made their loads send them.
    pub(crate) policy: Policy,
}

/// The number of tables of the keys, and the rule for tables in a batch.
#[derive(Clone, Copy)]
pub(crate) struct TableTurns {
    pub(crate) count: u32,
    pub(crate) rule: Rule,
}

/// Which tables the keys of a batch may have.
#[derive(Clone, Copy)]
pub(crate) enum Rule {
    /// Any tables.
    Mixed,
    /// One table, with a limit of its own.
    ByTable,
}

/// How the program evaluates terms.
#[derive(Clone, Copy)]
pub(crate) enum Evaluated {
    /// One term of many parts, by one caller.
    One,
    /// `count` terms, one after another, by one caller.
    InTurn { count: u32 },
    /// A plan for each of `count` terms, all at once, by fetch workers.
    Served { count: u32, workers: u32 },
}

/// The ids of keys.
#[derive(Clone, Copy)]
pub(crate) enum Ids {
    /// The keys' numbers.
    Short,
    /// They share one hash under a known seed.
    Hostile,
    /// They have the same length, and share no hash.
    Harmless,
}

/// The calls of a desk, after the program has made its keys.
#[derive(Clone, Copy)]
pub(crate) enum Calls {
    /// Loads the keys in one call.
    Many,
    /// Loads the keys one by one, twice.
    Hits,
    /// For each batch of keys: loads them in one call, dispatches, settles.
    Rounds,
}

/// The callers of a shared loader.
#[derive(Clone, Copy)]
pub(crate) enum Callers {
    /// One caller: for each batch of keys it loads them in one call, dispatches, settles, and reads each outcome.
    One,
    /// Callers, each on a thread of its own. Each loads the keys one by one. Then the first dispatches, and settles.
    Threads,
    /// The same, but each caller loads keys of its own, and after each of these the hot keys, which all callers load.
    Hot,
}

/// The most keys of a batch, if neither the words nor the workload need another limit.
const BATCH: u32 = 64;

/// The word for each workload of N or of two numbers, and the most keys of its batches, if the words don't say it.
static WORKLOADS: [(&str, Option<u32>, Workload); 14] = [
    ("loads", None, Workload::OneByOne(Ids::Short)),
    ("hostile", Some(BATCH), Workload::OneByOne(Ids::Hostile)),
    ("harmless", Some(BATCH), Workload::OneByOne(Ids::Harmless)),
    ("many", None, Workload::Listed(Calls::Many)),
    ("hits", Some(LARGEST_LIMIT), Workload::Listed(Calls::Hits)),
    ("rounds", None, Workload::Listed(Calls::Rounds)),
    ("clears", Some(LARGEST_LIMIT), Workload::Clears),
    ("tables", None, Workload::Tables(Ids::Short)),
    (
        "hostile-tables",
        Some(BATCH),
        Workload::Tables(Ids::Hostile),
    ),
    (
        "harmless-tables",
        Some(BATCH),
        Workload::Tables(Ids::Harmless),
    ),
    ("loader", None, Workload::Shared(Callers::One)),
    ("threads", None, Workload::Shared(Callers::Threads)),
    ("hot", None, Workload::Shared(Callers::Hot)),
    ("terms", Some(BATCH), Workload::Terms(Evaluated::One)),
];

/// A workload and its size.
#[derive(Clone, Copy)]
pub(crate) struct Command {
    pub(crate) workload: Workload,
    /// The number of keys, for `hot` of each caller; for `terms` of parts, for `inline` and `serve` of rounds, and for
    /// `gather` of the loads of a plan.
    pub(crate) keys: u32,
    /// The most keys of a batch; for `threads` and `hot` the number of callers.
    pub(crate) most: u32,
}

/// Why words aren't a command.
#[derive(Debug, Drop, Error)]
pub(crate) enum CommandFault {
    #[error("usage: dl_bench loads|many|rounds|tables|loader N B, hostile|harmless[-tables] N, hits|clears|terms N, threads|hot N C, tables-of|mixed-of T N, inline P N, serve P W N, or gather[-tables|-rounds] P D W L")]
    Usage,
    #[error("N, B, C, P, T, D, W and L are numbers from 1 to 65536, the largest limit of a loader")]
    Size,
}

impl Command {
    /// The command of these words. The first is the program's name.
    pub(crate) fn from_words(words: &[String]) -> Result<Command, CommandFault> {
        match words {
            [_, name, keys] => Command::named(name.as_str(), size(keys.as_str())?, None),
            [_, name, first, second] => {
                Command::of_two(name.as_str(), first.as_str(), second.as_str())
            }
            [_, name, count, workers, rounds] if name.as_str() == "serve" => {
                let (count, workers) = (size(count.as_str())?, size(workers.as_str())?);
                let evaluated = Evaluated::Served { count, workers };
                Ok(Command::of_terms(evaluated, size(rounds.as_str())?))
            }
            [_, name, plans, loads, workers, micros] => {
                let (has_slow, policy) = match name.as_str() {
                    "gather" => (false, Policy::Eager),
                    "gather-tables" => (true, Policy::Eager),
                    "gather-rounds" => (true, Policy::Rounds),
                    _ => return Err(CommandFault::Usage),
                };
                let gathered = Gathered {
                    plans: size(plans.as_str())?,
                    workers: size(workers.as_str())?,
                    micros: size(micros.as_str())?,
                    has_slow,
                    policy,
                };
                Ok(Command::of_gathered(gathered, size(loads.as_str())?))
            }
            _ => Err(CommandFault::Usage),
        }
    }

    /// The command of plans that make this many loads each.
    fn of_gathered(gathered: Gathered, loads: u32) -> Command {
        Command {
            workload: Workload::Gathered(gathered),
            keys: loads,
            most: BATCH,
        }
    }

    /// The command of a name and two words.
    fn of_two(name: &str, first: &str, second: &str) -> Result<Command, CommandFault> {
        match name {
            "tables-of" => {
                let (count, keys) = (size(first)?, size(second)?);
                Ok(Command::of_tables(Rule::ByTable, count, keys))
            }
            "mixed-of" => {
                let (count, keys) = (size(first)?, size(second)?);
                Ok(Command::of_tables(Rule::Mixed, count, keys))
            }
            "inline" => {
                let count = size(first)?;
                Ok(Command::of_terms(Evaluated::InTurn { count }, size(second)?))
            }
            name => Command::named(name, size(first)?, Some(size(second)?)),
        }
    }

    /// The command of this many keys, with this many tables in turn.
    fn of_tables(rule: Rule, count: u32, keys: u32) -> Command {
        Command {
            workload: Workload::OfTables(TableTurns { count, rule }),
            keys,
            most: BATCH,
        }
    }

    /// The command of terms of this many rounds.
    fn of_terms(evaluated: Evaluated, rounds: u32) -> Command {
        Command {
            workload: Workload::Terms(evaluated),
            keys: rounds,
            most: BATCH,
        }
    }

    /// The command of a workload's name. The workload or a word limits its batches, and not both.
    fn named(word: &str, keys: u32, most: Option<u32>) -> Result<Command, CommandFault> {
        for (name, own, workload) in &WORKLOADS {
            if *name == word {
                let most = own.xor(most).ok_or(CommandFault::Usage)?;
                return Ok(Command {
                    workload: *workload,
                    keys,
                    most,
                });
            }
        }
        Err(CommandFault::Usage)
    }
}

/// The number of a word in decimal.
fn size(word: &str) -> Result<u32, CommandFault> {
    match word.parse::<u32>() {
        Ok(number) if (1..=LARGEST_LIMIT).contains(&number) => Ok(number),
        _ => Err(CommandFault::Size),
    }
}
