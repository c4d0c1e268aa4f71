//! The program `plans`: it answers the document on standard input, or the requests of a connection. Its parts are in `dl_plans`
//! and `dl_server`.
#![tactic(auto)]

use dl_plans::{Options, RunError, asked, run, run_history, run_migrate, told};
use dl_server::serve_standard;
use std::fs::File;
use std::hash::RandomState;
use std::io;
use std::process::ExitCode;
use std::random::RandomSource;
use std::rt::Files;
use std::sync::Wait;
use std::thread::Threads;

fn main(rt: HostRuntime) -> ExitCode {
    let status = match asked(&rt) {
        Ok((options, hashing)) if options.serve => serve_standard(&rt, hashing, options),
        Ok((options, hashing)) => {
            let (explain, max_answer) = (options.explain, options.max_answer);
            told(&rt, &written(&rt, hashing, options), explain, max_answer)
        }
        Err(status) => status,
    };
    ExitCode::from(status)
}

/// Writes what the options ask for to standard output: the document on standard input in a later version, or what it gives;
/// or the events of a history.
fn written<R: Input + Print + Eprint + AllocGlobal + Threads + Wait + Sync + Files + RandomSource>(
    rt: &R,
    hashing: RandomState,
    options: Options,
) -> Result<(), RunError> {
    let (alloc, mut reader, mut writer) = (rt.alloc(), rt.reader(), io::writer(rt));
    if let Some(target) = options.migrate {
        run_migrate(alloc, hashing, &mut reader, &mut writer, target)
    } else if let Some(file) = &options.history {
        match File::open(rt, file.as_str()) {
            Ok(mut file) => run_history(rt, alloc, hashing, &mut file, &mut writer, &options),
            Err(_) => Err(RunError::Read),
        }
    } else {
        run(rt, alloc, hashing, &mut reader, &mut writer, options)
    }
}
