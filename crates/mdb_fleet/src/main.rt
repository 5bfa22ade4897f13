//! A replica set that fails over before a driver: the real source and sinks of `run_fleet`.
#![tactic(auto)]

use mdb_base::{Reading, Writing};
use mdb_fleet_runs::run_fleet;
use mdb_lines::end_run;
use std::process::ExitCode;

fn main(rt: HostRuntime) -> ExitCode {
    let mut source = Reading::new(rt.stdin());
    let mut sink = Writing::new(rt.stdout());
    let mut errors = Writing::new(rt.stderr());
    let answer = run_fleet(rt.alloc(), &mut source, &mut sink);
    ExitCode::from(end_run(answer, &mut errors))
}
