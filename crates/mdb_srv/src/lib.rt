//! Seed lists from DNS: SRV and TXT records, when to poll them again, and the kinds of topology.
#![tactic(auto)]

mod accepting;
mod config;
mod cut;
mod domain;
mod error;
mod hosts;
mod memory_resolver;
mod pair;
mod polling;
mod records;
mod refusals;
mod resolver;
mod srv_resolver;
mod topology_type;
mod txt;
mod txt_option;

pub use config::{OriginalSrvInfo, ResolvedConfig};
pub use error::SrvError;
pub use hosts::{DomainMismatch, LookupHosts};
pub use memory_resolver::{MemRecords, MemResolver};
pub use polling::{on_lookup, rescan_interval, select_hosts};
pub use resolver::{LookupError, Resolver, SrvRecord, TxtRecord};
pub use srv_resolver::SrvResolver;
pub use topology_type::{TopologyType, should_poll};
