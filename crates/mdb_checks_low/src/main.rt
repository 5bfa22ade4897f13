//! Runs the cases of its input of what stands below a pool: values, replies, seed lists, descriptions, events, and the monitor of a server.
#![tactic(auto)]

mod base;
mod bson;
mod cases;
mod deliveries;
mod events;
mod hello;
mod monitor;
mod server_events;
mod servers;
mod srv;
mod topologies;

use cases::Cases;
use mdb_cases::{Names, Page, case_of, tell};
use std::io;

fn judge(rt: &HostRuntime, cases: &mut Cases, names: &mut Names, line: &str) -> io::Result<()> {
    let mut page = Page::new(rt.alloc());
    let spelled = names.read(&mut page, line);
    if let Some((kind, given)) = case_of(spelled.as_str()) {
        cases.answer(&mut page, kind, given);
    }
    let told = tell(rt, &page, line, spelled.as_str());
    drop(spelled);
    drop(page);
    told
}

fn judge_all(rt: &HostRuntime, cases: &mut Cases, names: &mut Names) -> io::Result<()> {
    for line in rt.lines(rt.alloc()) {
        judge(rt, cases, names, line?.as_str())?;
    }
    Ok(())
}

fn main(rt: HostRuntime) -> io::Result<()> {
    let mut cases = Cases::new();
    let mut names = Names::new(rt.alloc());
    let judged = judge_all(&rt, &mut cases, &mut names);
    drop(cases);
    drop(names);
    judged
}
