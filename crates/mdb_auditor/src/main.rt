//! Audits printed logs: the real source and sinks of `run_audit`.
#![tactic(auto)]

use mdb_audit::run_audit;
use mdb_base::{Reading, Writing};
use mdb_lines::{RunError, Status, command_words, status_of, tell_error};
use std::alloc::AllocError;
use std::process::ExitCode;

fn status<R: AllocGlobal>(
    rt: &R,
    words: &[String],
    host: &HostRuntime,
) -> Result<Status, AllocError> {
    let mut texts = Vec::new(rt.alloc());
    for word in words {
        texts.push(word.as_str())?;
    }
    let mut source = Reading::new(host.stdin());
    let mut sink = Writing::new(host.stdout());
    let mut errors = Writing::new(host.stderr());
    Ok(run_audit(
        rt.alloc(),
        texts.as_slice(),
        &mut source,
        &mut sink,
        &mut errors,
    ))
}

fn answer(rt: &HostRuntime) -> Result<Status, AllocError> {
    let words = command_words(rt)?;
    status(rt, words.as_slice(), rt)
}

fn main(rt: HostRuntime) -> ExitCode {
    match answer(&rt) {
        Ok(status) => ExitCode::from(status),
        Err(_) => {
            let mut errors = Writing::new(rt.stderr());
            tell_error(&mut errors, RunError::OutOfMemory);
            ExitCode::from(status_of(RunError::OutOfMemory))
        }
    }
}
