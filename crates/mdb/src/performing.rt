//! Each command, over where it reads and writes.

ghost use Rattle.mdb_commands.specs.Commands.{Fits};

use crate::ending::{end, error_of, tell_of};
use crate::files::open_file;
use crate::kept::Kept;
use crate::malformed::tell_malformed;
use crate::output::Output;
use crate::script::run;
use mdb_audit::run_audit;
use mdb_base::{NullSink, PlainSource, Reading, Sink, Source, Writing};
use mdb_commands::{Command, Input, Subcommand, help_of, tool_help, version};
use mdb_fleet_runs::run_fleet;
use mdb_lines::{RunError, Status, status_of, tell_usage, write_all};
use mdb_proxy_runs::run_proxy;
use mdb_recording_runs::run_recorded;
use mdb_runs::run_made;
use mdb_shared_runs::run_shared;
use std::alloc::Global;
use std::sync::Wait;
use std::thread::Threads;

// The status of a run that made something, which is dropped.
fn done<T: Drop>(made: Result<T, RunError>) -> Result<Status, RunError> {
    match made {
        Ok(_) => Ok(0),
        Err(e) => Err(e),
    }
}

// What a status of the other programs says.
fn judged(status: Status) -> Result<Status, RunError> {
    match error_of(status) {
        Some(e) => Err(e),
        None => Ok(status),
    }
}

// Writes a text.
fn say<K: Sink>(sink: &mut K, text: &str) -> Result<Status, RunError> {
    match write_all(sink, text.as_bytes()) {
        Ok(()) => Ok(0),
        Err(_) => Err(RunError::WriteFault),
    }
}

fn judge<S: Source, K: Sink>(
    alloc: Global,
    year: Option<&str>,
    source: &mut S,
    sink: &mut K,
) -> Result<Status, RunError> {
    let mut nowhere = NullSink::new();
    let status = match year {
        Some(year) => run_recorded(alloc, &["--cmap", year], source, sink, &mut nowhere),
        None => run_recorded(alloc, &[], source, sink, &mut nowhere),
    };
    judged(status)
}

// Does what the command asks for.
fn perform_on<R: AllocGlobal + Threads + Wait + Sync, S: Source, K: Sink>(
    rt: &R,
    command: Command<'_>,
    source: &mut S,
    sink: &mut K,
) -> Result<Status, RunError>
    requires { Fits command }
{
    let alloc = rt.alloc();
    match command {
        Command::Run(_) => run(alloc, source, sink),
        Command::Share(k, _) => done(run_shared(rt, alloc, k, source, sink)),
        Command::Make(n) => done(run_made(alloc, n, sink)),
        Command::Fleet(_) => done(run_fleet(alloc, source, sink)),
        Command::Proxy(_) => done(run_proxy(alloc, source, sink)),
        Command::Audit(_) => judged(run_audit(alloc, &[], source, sink, &mut NullSink::new())),
        Command::Judge(year, _) => judge(alloc, year, source, sink),
        Command::Help(None) => say(sink, tool_help()),
        Command::Help(Some(of)) => say(sink, help_of(of)),
        Command::Version => say(sink, version()),
    }
}

// Does what the command asks for, tells what ended it early, and answers the status.
fn perform_from<R: AllocGlobal + Threads + Wait + Sync, S: Source + Drop>(
    rt: &R,
    host: &HostRuntime,
    command: Command<'_>,
    name: &str,
    source: S,
) -> Status
    requires { Fits command }
{
    let mut source = Kept::new(rt.alloc(), source);
    let mut output = Output::new(host.stdout());
    let mut errors = Writing::new(host.stderr());
    let answer = perform_on(rt, command, &mut source, &mut output);
    match (command, answer) {
        (Command::Run(_) | Command::Share(_, _), Err(RunError::Malformed(number))) => {
            tell_malformed(rt.alloc(), &mut errors, name, source.read_bytes(), number);
            status_of(RunError::Malformed(number))
        }
        (Command::Judge(_, _), Ok(2)) => {
            tell_usage(&mut errors, help_of(Subcommand::Judge));
            2
        }
        (_, answer) => end(&mut errors, name, &output, answer),
    }
}

// What the command reads, if it reads anything.
fn input_of(command: Command<'_>) -> Option<Input<'_>> {
    match command {
        Command::Run(input) => Some(input),
        Command::Share(_, input) => Some(input),
        Command::Audit(input) => Some(input),
        Command::Judge(_, input) => Some(input),
        Command::Fleet(input) => Some(input),
        Command::Proxy(input) => Some(input),
        Command::Make(_) | Command::Help(_) | Command::Version => None,
    }
}

/// Does what the command asks for, and answers the status. Of an output that nobody reads any more nothing is said.
pub(crate) fn perform<R: AllocGlobal + Threads + Wait + Sync>(
    rt: &R,
    host: &HostRuntime,
    command: Command<'_>,
) -> Status
    requires { Fits command }
{
    match input_of(command) {
        None => {
            let nothing = PlainSource::new(Vec::new(rt.alloc()));
            perform_from(rt, host, command, "nothing", nothing)
        }
        Some(Input::Standard) => {
            let source = Reading::new(host.stdin());
            perform_from(rt, host, command, "standard input", source)
        }
        Some(Input::File(path)) => match open_file(host, path) {
            Ok(file) => {
                let source = Reading::new(file);
                perform_from(rt, host, command, path, source)
            }
            Err(reason) => {
                tell_of(&mut Writing::new(host.stderr()), path, reason);
                3
            }
        },
    }
}
