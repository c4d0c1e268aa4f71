//! Answers the requests of one connection.

ghost use Rattle.std.specs.Prelude.{◌≡◌, ◌≢◌, ℕ, List, OnOk};
ghost use Rattle.std.specs.Io.KnownBytes.{Appends, Consumes};
ghost use Rattle.http_server.specs.Connection.{history};
ghost use Rattle.http_server.specs.History.{History, IsDone};
ghost use Rattle.dl_server.specs.Answers.{AnswersIt, IsAnswered};

use crate::leave::Leave;
use crate::requests::Requests;
use bytes::Bytes;
use dl_plans::{MOST_BYTES, Options};
use http::Request;
use http_server::{Config, Connection, Response, Service, State, serve};
use http1::Limits;
use std::alloc::{AllocError, Global};
use std::hash::RandomState;
use std::io;
use std::io::{ErrorKind, Read, Write};
use std::sync::Wait;
use std::thread::Threads;

/// The limits of a connection. A body has at most as many bytes as a document.
const CONFIG: Config = Config {
    limits: Limits {
        max_head_len: 16_384,
        max_extensions_len: 16_384,
        max_trailers_len: 16_384,
    },
    max_body_len: MOST_BYTES,
    max_pending: 65_536,
    read_size: 8_192,
};

/// The service of a connection.
#[derive(Drop)]
struct Answering<'r, T> {
    rt: Leave<T>,
    alloc: Global,
    hashing: RandomState,
    options: &'r Options,
}

impl<'r, T: Threads + Wait> Service for Answering<'r, T> {
    ghost answers = { λ old request response new. (new ≡ old) × AnswersIt old.options.now request response };

    fn call(
        &mut self,
        request: &Request<Bytes>,
        response: &mut Response,
    ) -> Result<(), AllocError> {
        let requests = Requests {
            rt: &self.rt,
            alloc: self.alloc,
            hashing: self.hashing,
            options: self.options,
        };
        requests.reply_to(request, response)
    }
}

/// Answers the requests of one connection, in their order, until its client closes it or asks for that, or a request can't
/// be read. The tables of a plan file answer it, and behind them those of the options' database. Of the options these count,
/// the number of workers and what a plan's answers may take. `hashing` hashes keys and names of headers, and nothing that
/// you see depends on it.
///
/// # Errors
/// That of the reader or of the writer, or `OutOfMemory`: then what was read may have a request without a response, and the
/// writer a part of one.
pub(crate) fn serve_connection<R: Read, W: Write, T: Threads + Wait>(
    rt: &T,
    alloc: Global,
    hashing: RandomState,
    reader: &mut R,
    writer: &mut W,
    options: &Options,
) -> io::Result<()>
    ensures { (read : List ℕ) × (sent : List ℕ) × (h : History)
        × Consumes (R.remaining reader.old) (R.remaining reader.new) read
        × Appends (W.contents writer.old) (W.contents writer.new) sent
        × IsAnswered options.now read sent h × OnOk result (IsDone h × (h.state ≢ State.Aborted)) }
{
    let mut connection = Connection::new(alloc, hashing, CONFIG);
    let mut answering = Answering {
        rt: Leave::of(rt),
        alloc,
        hashing,
        options,
    };
    serve(&mut connection, &mut answering, reader, writer)?;
    ended(&connection)
}

/// How a connection ended.
///
/// # Errors
/// `OutOfMemory`, if it gave up since memory ran out.
fn ended(connection: &Connection) -> io::Result<()>
    ensures { OnOk result ((history connection.now).state ≢ State.Aborted) }
{
    match connection.state() {
        State::Aborted => Err(ErrorKind::OutOfMemory.into()),
        State::Open | State::Closing(_) | State::Upgraded => Ok(()),
    }
}
