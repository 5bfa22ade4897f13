//! Runs of scripts of a proxy: the shares of its tenants, the driver that it opens, and its steps line by line.
#![tactic(auto)]

mod run;

pub use run::run_proxy;
