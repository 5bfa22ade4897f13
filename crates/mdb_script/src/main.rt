//! Runs scripts of steps over connection pools: the real source and sinks of `run_program`.
#![tactic(auto)]

use mdb_base::{Reading, Writing};
use mdb_lines::{RunError, Status, command_words, status_of, tell_error};
use mdb_shared_runs::run_program;
use std::alloc::AllocError;
use std::process::ExitCode;
use std::rt::Env;
use std::sync::Wait;
use std::thread::Threads;

fn status<R: AllocGlobal + Threads + Wait + Sync>(
    rt: &R,
    words: &[String],
    host: &HostRuntime,
) -> Result<Status, AllocError> {
    let mut texts = Vec::new(rt.alloc());
    for word in words {
        texts.push(word.as_str())?;
    }
    let mut source = Reading::new(host.stdin());
    let mut sink = Writing::new(host.stdout());
    let mut errors = Writing::new(host.stderr());
    Ok(run_program(
        rt,
        rt.alloc(),
        texts.as_slice(),
        &mut source,
        &mut sink,
        &mut errors,
    ))
}

fn answer<R: Env + AllocGlobal + Threads + Wait + Sync>(
    rt: &R,
    host: &HostRuntime,
) -> Result<Status, AllocError> {
    let words = command_words(rt)?;
    status(rt, words.as_slice(), host)
}

fn main(rt: HostRuntime) -> ExitCode {
    match answer(&rt, &rt) {
        Ok(status) => ExitCode::from(status),
        Err(_) => {
            let mut errors = Writing::new(rt.stderr());
            tell_error(&mut errors, RunError::OutOfMemory);
            ExitCode::from(status_of(RunError::OutOfMemory))
        }
    }
}
