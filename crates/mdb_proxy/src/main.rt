//! Runs a script of a proxy: the real source and sinks of `run_proxy`.
#![tactic(auto)]

use mdb_base::{Reading, Writing};
use mdb_lines::end_run;
use mdb_proxy_runs::run_proxy;
use std::process::ExitCode;

fn main(rt: HostRuntime) -> ExitCode {
    let mut source = Reading::new(rt.stdin());
    let mut sink = Writing::new(rt.stdout());
    let mut errors = Writing::new(rt.stderr());
    let answer = run_proxy(rt.alloc(), &mut source, &mut sink);
    ExitCode::from(end_run(answer, &mut errors))
}
