//! The text of the lines of the topology and of its monitors.

use crate::outcome_text::{Checked, PoolAndHello};
use mdb_base::{Moment, Nanos};
use mdb_log::Act;
use mdb_parts::part_text::Addresses;
use std::fmt;

// A pool, and a time that was measured.
#[derive(Drop)]
struct Sample(u32, Nanos);

impl fmt::Display for Sample {
    ghost use Rattle.std.specs.Prelude.{Some, decimal, codes, ◌++◌};

    ghost output = { λ x. Some (decimal x.0 ++ (codes " " ++ decimal x.1)) };

    fn fmt<W: fmt::Write>(&self, f: &mut fmt::Formatter<W>) -> fmt::Result {
        let pool = self.0;
        let time = self.1;
        write!(f, "{pool} {time}")
    }
}

/// The line of a step of the topology or of a monitor. It is empty for every other act.
#[derive(Drop)]
pub struct TopologyText<'a>(pub Moment, pub &'a Act);

impl fmt::Display for TopologyText<'_> {
    ghost use Rattle.std.specs.Prelude.{Some};
    ghost use Rattle.mdb_lines.specs.Spelling.{topology_text};

    ghost output = { λ x. Some (topology_text x.0 x.1.now) };

    fn fmt<W: fmt::Write>(&self, f: &mut fmt::Formatter<W>) -> fmt::Result {
        let m = self.0;
        match self.1 {
            Act::Hello(address, pool, came) => {
                let told = PoolAndHello(*pool, came);
                write!(f, "hello {m} {address} {told}")
            }
            Act::Beaten(address, pool, time, came) => {
                let checked = Checked(*pool, *time, came);
                write!(f, "beaten {m} {address} {checked}")
            }
            Act::Beat(address, pool) => write!(f, "beat {m} {address} {pool}"),
            Act::Rtt(address, pool, time) => {
                let sample = Sample(*pool, *time);
                write!(f, "rtt {m} {address} {sample}")
            }
            Act::Hosts(hosts) => {
                let hosts = Addresses(hosts.as_slice());
                write!(f, "hosts {m} {hosts}")
            }
            Act::ClusterTime(time) => {
                let time = time.0;
                write!(f, "ctime {m} {time}")
            }
            Act::Want(watcher) => write!(f, "want {m} {watcher}"),
            Act::Unwant(watcher) => write!(f, "unwant {m} {watcher}"),
            Act::Stop => write!(f, "stop {m}"),
            _ => Ok(()),
        }
    }
}
