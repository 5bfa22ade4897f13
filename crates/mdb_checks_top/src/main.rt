//! Runs the cases of its input of runs: scripts line by line, runs of the tools, and scripts that several parts share.
#![tactic(auto)]

mod again;
mod cases;
mod meeting;
mod recording;
mod runs;
mod scripts;
mod shares;

use cases::answer;
use mdb_cases::{Names, Page, case_of, tell};
use std::io;
use std::sync::Wait;
use std::thread::Threads;

fn judge<R: Threads + Wait + Sync>(
    rt: &HostRuntime,
    threads: &R,
    script: &mut String,
    names: &mut Names,
    line: &str,
) -> io::Result<()> {
    let mut page = Page::new(rt.alloc());
    let spelled = names.read(&mut page, line);
    if let Some((kind, given)) = case_of(spelled.as_str()) {
        answer(threads, &mut page, script, kind, given);
    }
    let told = tell(rt, &page, line, spelled.as_str());
    drop(spelled);
    drop(page);
    told
}

fn judge_all<R: Threads + Wait + Sync>(
    rt: &HostRuntime,
    threads: &R,
    script: &mut String,
    names: &mut Names,
) -> io::Result<()> {
    for line in rt.lines(rt.alloc()) {
        judge(rt, threads, script, names, line?.as_str())?;
    }
    Ok(())
}

fn main(rt: HostRuntime) -> io::Result<()> {
    let mut script = String::new(rt.alloc());
    let mut names = Names::new(rt.alloc());
    let judged = judge_all(&rt, &rt, &mut script, &mut names);
    drop(names);
    judged
}
