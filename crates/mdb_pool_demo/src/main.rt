//! A driver that threads share: two clients check connections out and in while a worker establishes them, a clock lets time enter and a watcher follows the
//! topology. The last client stops it. It prints counts that are the same whatever the schedule.
#![tactic(auto)]

mod errors;
mod opening;
mod roles;
mod running;

use crate::errors::DemoError;
use crate::running::run;
use std::alloc::AllocError;
use std::io;
use std::process::ExitCode;

fn main(rt: HostRuntime) -> io::Result<ExitCode> {
    match run(&rt, rt.alloc()) {
        Ok(published) => {
            println!(rt; "published={published}")?;
            Ok(ExitCode::SUCCESS)
        }
        Err(DemoError::OutOfMemory) => Err(AllocError.into()),
        Err(why) => {
            eprintln!(rt; "{why}")?;
            Ok(ExitCode::from(1))
        }
    }
}
