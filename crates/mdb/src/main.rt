//! The tool for people, over the libraries of the programs that read standard input: its words, and where they read and write.
#![tactic(auto)]

mod ending;
mod files;
mod kept;
mod malformed;
mod output;
mod performing;
mod refusals;
mod script;

use mdb_base::Writing;
use mdb_commands::read_command;
use mdb_lines::{RunError, Status, command_words, status_of};
use performing::perform;
use refusals::refuse;
use std::alloc::AllocError;
use std::process::ExitCode;
use std::rt::Env;
use std::sync::Wait;
use std::thread::Threads;

fn status<R: AllocGlobal + Threads + Wait + Sync>(
    rt: &R,
    words: &[String],
    host: &HostRuntime,
) -> Result<Status, AllocError> {
    let mut texts = Vec::new(rt.alloc());
    for word in words {
        texts.push(word.as_str())?;
    }
    match read_command(texts.as_slice()) {
        Ok(command) => Ok(perform(rt, host, command)),
        Err(e) => Ok(refuse(host, e)),
    }
}

fn answer<R: Env + AllocGlobal + Threads + Wait + Sync>(
    rt: &R,
    host: &HostRuntime,
) -> Result<Status, AllocError> {
    let words = command_words(rt)?;
    status(rt, words.as_slice(), host)
}

fn main(rt: HostRuntime) -> ExitCode {
    match answer(&rt, &rt) {
        Ok(status) => ExitCode::from(status),
        Err(_) => {
            let mut errors = Writing::new(rt.stderr());
            ending::tell(&mut errors, "memory", RunError::OutOfMemory);
            ExitCode::from(status_of(RunError::OutOfMemory))
        }
    }
}
