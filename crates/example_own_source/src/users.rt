//! A source that queries a SQLite file, and two requests over it.

use dl_desk::{FetchKey, Json, Message, Outcome, Outcomes};
use dl_scope::{Plan, Step};
use dl_source::{BatchAnswer, Fetch};
use dl_terms::Term;
use serde_json::Value;
use sqlite::{Connection, Error, ErrorCode, File, FileStore, params};
use std::alloc::{AllocError, Global};

/// The users of a database, by their ids. Each batch opens the file anew. A file has one user at a time, so let one worker fetch.
#[derive(Drop)]
pub(crate) struct Users<'a> {
    rt: &'a HostRuntime,
    path: &'a str,
}

impl<'a> Users<'a> {
    /// The users of the database at this path.
    pub(crate) fn at(rt: &'a HostRuntime, path: &'a str) -> Users<'a> {
        Users { rt, path }
    }
}

impl Fetch for Users<'_> {
    /// The name of each user. If the database fails, the batch fails, with the text of the failure.
    fn fetch(&self, alloc: Global, keys: &[FetchKey]) -> Result<BatchAnswer, AllocError> {
        match names(self.rt, alloc, self.path, keys) {
            Ok(outcomes) => Ok(BatchAnswer::Each(outcomes)),
            Err(Error::SqliteFailure(ErrorCode::OutOfMemory)) => Err(AllocError),
            Err(fault) => {
                let text = fault.to_string(alloc)?;
                Ok(BatchAnswer::Break(Message::new(alloc, text.as_str())?))
            }
        }
    }
}

/// The outcome of each key, in order.
fn names(
    rt: &HostRuntime,
    alloc: Global,
    path: &str,
    keys: &[FetchKey],
) -> Result<Outcomes, Error> {
    let mut conn = Connection::open(rt, path)?;
    let outcomes = each_name(alloc, &mut conn, keys);
    conn.close().and(outcomes)
}

fn each_name(
    alloc: Global,
    conn: &mut Connection<FileStore<File>>,
    keys: &[FetchKey],
) -> Result<Outcomes, Error> {
    let mut outcomes = Vec::with_capacity(alloc, keys.len())?;
    for key in keys {
        outcomes.push(name(alloc, conn, key.id())?)?;
    }
    Ok(Outcomes::new(alloc, outcomes)?)
}

/// The name of the user with this id, or that there is no such row.
fn name(alloc: Global, conn: &mut Connection<FileStore<File>>, id: &str) -> Result<Outcome, Error> {
    match conn.query_row("SELECT name FROM user WHERE id = ?1", params![id]) {
        Ok(row) => {
            let name = row.get::<String>(0)?;
            Ok(Outcome::Value(Json::new(alloc, Value::String(name))?))
        }
        Err(Error::QueryReturnedNoRows) => {
            let text = Message::new(alloc, "no row")?;
            Ok(Outcome::KeyError(text))
        }
        Err(fault) => Err(fault),
    }
}

/// Makes a database of two users.
pub(crate) fn fill(rt: &HostRuntime, path: &str) -> Result<(), Error> {
    let mut conn = Connection::open(rt, path)?;
    let filled = conn.execute_batch(
        "CREATE TABLE IF NOT EXISTS user (id TEXT PRIMARY KEY, name TEXT NOT NULL) STRICT;
         INSERT OR REPLACE INTO user VALUES ('u1', 'Ada'), ('u2', 'Bob')",
    );
    conn.close().and(filled)
}

/// The plans of two requests.
pub(crate) fn requests(alloc: Global) -> anyhow::Result<Vec<Plan>> {
    Ok(vec![in alloc; request(alloc, "u1")?, request(alloc, "u2")?]?)
}

/// The plan of a request: the load of a user.
fn request(alloc: Global, id: &str) -> anyhow::Result<Plan> {
    let user = Term::Load(FetchKey::new(alloc, "user", id)?);
    let steps = vec![in alloc; Step::Eval(user)]?;
    Ok(Plan { steps })
}
