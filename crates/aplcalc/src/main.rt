//! Answers a session from standard input on standard output.
//!
//! Below it: `apl_options` for the words of the command line, `apl_pool` for the workers, `apl_print` for the sink,
//! and `apl_session`, whose `run` answers the session. Its theorem is in `apl_session/src/answering.rt`.
//! Begin with `main`.
#![tactic(auto)]

use apl_options::{Settings, refusal, settings};
use apl_pool::{Open, Pool, Thrifty};
use apl_print::Out;
use apl_session::{In, RunFault, ending, run};
use clap::error::ErrorKind;
use clap::{Command, Error};
use std::alloc::{AllocError, Global};
use std::env::Env;
use std::process::ExitCode;
use std::{env, io};

fn main(rt: HostRuntime) -> ExitCode {
    let status = match given_settings(&rt) {
        Ok(settings) => {
            let cut = Thrifty(settings.piece as usize);
            let pool = Pool::with(settings.workers, settings.schedule, cut, Open);
            let mut source = In::new(rt.stdin());
            let mut sink = Out::new(rt.stdout());
            end(&rt, &run(&rt, rt.alloc(), &pool, &mut source, &mut sink))
        }
        Err(error) => refuse(&rt, &error),
    };
    ExitCode::from(status)
}

/// What the words of the command line ask for. Where the system gives no word, it is the program's name.
fn given_settings<R: Env + AllocGlobal>(rt: &R) -> Result<Settings, Error> {
    let alloc = rt.alloc();
    let words: Vec<String> = match env::args(rt) {
        Ok(words) => words.collect(alloc)?,
        Err(error) => return Err(words_refused(alloc, &error)?),
    };
    let mut texts: Vec<&str> = words.iter().map(|word| word.as_str()).collect(alloc)?;
    if texts.is_empty() {
        texts.push("aplcalc")?;
    }
    settings(alloc, texts.as_slice())
}

/// Why the system gives no words: it is out of memory, or a word is no text.
fn words_refused(alloc: Global, error: &io::Error) -> Result<Error, AllocError> {
    match error.kind() {
        io::ErrorKind::OutOfMemory => Err(AllocError),
        _ => Command::new(alloc, "aplcalc").error(ErrorKind::InvalidValue, "a word is not UTF-8"),
    }
}

/// Tells why there are no settings, and answers the exit status.
fn refuse<R: Print + Eprint>(rt: &R, error: &Error) -> u8 {
    match refusal(error) {
        1 => end(rt, &Err(RunFault::Memory)),
        status => match error.print(rt) {
            Err(_) if status == 0 => end(rt, &Err(RunFault::Write)),
            _ => status,
        },
    }
}

/// Tells how a run ended, and answers the exit status.
fn end<R: Eprint>(rt: &R, outcome: &Result<(), RunFault>) -> u8 {
    let (status, message) = ending(outcome);
    if status != 0 {
        let _ = eprintln!(rt; "{message}");
    }
    status
}
