//! The settings of a run.

ghost use Rattle.std.specs.Prelude.{◌≡◌};

use dl_migration::Target;
use dl_source::Tables;

/// What the command line sets.
#[derive(Drop)]
pub struct Options {
    /// How many workers a plan file gets: 1 to 16.
    pub workers: u32,
    /// The most bytes that the texts of a plan's answers may have, with what its terms copy on the way, if the command line
    /// gives a number: 1 to 4,294,967,295.
    pub max_answer: Option<u64>,
    /// Whether to print the rounds and batches of a plan file that has exactly one plan.
    pub batches: bool,
    /// Whether to say where the faults of a plan file's answers come from.
    pub explain: bool,
    /// Whether to say how often a plan file asked the database, if there is one.
    pub statistics: bool,
    /// The file of the picture, if the command line asks for one.
    pub picture: Option<String>,
    /// The file of the trace, if the command line asks for one.
    pub trace: Option<String>,
    /// The tables of the database, if the command line names one. They answer a plan file too: a key whose table it
    /// doesn't have.
    pub database: Option<Tables>,
    /// The version in which to write a plan file of an earlier one, and not to answer it, if the command line asks for that.
    pub migrate: Option<Target>,
    /// The file of a history, if the command line names one: to be drawn, and no document answered.
    pub history: Option<String>,
    /// Whether to answer the requests of an HTTP connection, and no document.
    pub serve: bool,
    /// The file of the tables that answer each request, if the command line names one.
    pub tables: Option<String>,
}

impl Options {
    /// The same, with the tables of this database, or of none.
    pub fn with_database(self, database: Option<Tables>) -> Options
        ensures { result ≡ record self { database = database } }
    {
        let Options {
            workers,
            max_answer,
            batches,
            explain,
            statistics,
            picture,
            trace,
            migrate,
            history,
            serve,
            tables,
            ..
        } = self;
        Options {
            workers,
            max_answer,
            batches,
            explain,
            statistics,
            picture,
            trace,
            database,
            migrate,
            history,
            serve,
            tables,
        }
    }
}
