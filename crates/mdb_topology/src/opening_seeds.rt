//! The opening of a driver, with the first entry of its log.

ghost use Rattle.std.specs.Prelude.{◌≡◌, ◌++◌, ◌∷◌, [], ℕ, IfOk, OnOk, OnErr, All, List, None, length, map, nat_lt, true};
ghost use Rattle.mdb_base.specs.OptionRules.{broken_rule};
ghost use Rattle.mdb_monitor.specs.Standing.{StandsFor as MonitorStands};
ghost use Rattle.mdb_events.specs.declared.fact.Fact.{Fact as FactRecord};
ghost use Rattle.mdb_log.specs.declared.reply.Reply.TheVariants.{Done};
ghost use Rattle.mdb_log.specs.Connections.{has};
ghost use Rattle.mdb_driver_pools.specs.Living.{lives_at};
ghost use Rattle.mdb_topology.specs.Logging.{opening_step};
ghost use Rattle.mdb_driver_pools.specs.Opening.{IsOpened};
ghost use Rattle.mdb_driver_rules.specs.Monitors.{setting};

use crate::known::telling_changes::monitor_of;
use crate::monitors::monitor_list::Monitors;
use crate::topology::TopologyCore;
use mdb_base::{Items, Options, OutOfMemory};
use mdb_describe::TopologyDescription;
use mdb_driver_pools::{Cores, Opening, Pools, open};
use mdb_events::{Boxed, Fact};
use mdb_log::{Act, Entry, Log, Reply, Step};
use mdb_monitor::CheckCount;
use std::alloc::{AllocError, Global};

// A monitor for each of the pools, in all of which something lives.
fn pool_monitors(alloc: Global, options: &Options, cores: &Cores) -> Result<Monitors, OutOfMemory>
    requires { (p : ℕ) → nat_lt p (length cores.now.items) ≡ lives_at cores.now.items p }
    ensures settings { IfOk result (λ made. map (λ m. m.setting) made.items ≡ map (λ s. setting options.now s.address) cores.now.items) }
    ensures stand { IfOk result (λ made. All (λ m. MonitorStands m []) made.items) }
    ensures kept { IfOk result (λ made. (p : ℕ) → lives_at cores.now.items p ≡ true → has p made.kept ≡ true) }
{
    let mut made = Monitors::new(alloc);
    made.reserve(cores.len())?;
    for place in 0..cores.len() {
        let address = cores.at(place).address().clone()?;
        made.push_reserved(monitor_of(address, options));
    }
    Ok(made)
}

// The log gets its first entry, of an opening with these facts.
fn enter_opening(
    alloc: Global,
    log: &mut Log,
    seat: u32,
    options: &Options,
    facts: Vec<Fact>,
) -> Result<(), AllocError>
    ensures ok { OnOk result (log.new ≡ log.old ++ record { seat = seat; step = opening_step options.now; reply = Done; facts = facts.items } ∷ []) }
    ensures err { OnErr result (log.new ≡ log.old) }
{
    match Boxed::copy_of(alloc, options) {
        Ok(options) => log.push(Entry {
            seat,
            step: Step {
                moment: 0,
                act: Act::Open(options),
            },
            reply: Reply::Done,
            facts: Items::new(facts),
        }),
        Err(e) => {
            drop(facts);
            Err(e)
        }
    }
}

/// What a driver that was opened keeps.
#[derive(Drop)]
pub struct Begun {
    pub pools: Pools,
    pub description: TopologyDescription,
    pub monitors: Monitors,
}

// The parts of a driver that is opened, once its log is begun.
fn begin(alloc: Global, log: &mut Log, seat: u32, options: &Options) -> Result<Begun, OutOfMemory>
    requires { broken_rule options.now ≡ None }
    ensures begins { IfOk result (λ made. (facts : List FactRecord) × IsOpened options.now 0 made.pools.cores.items made.description facts × (log.new ≡ log.old ++ record { seat = seat; step = opening_step options.now; reply = Done; facts = facts } ∷ [])) }
    ensures last { IfOk result (λ made. made.pools.last ≡ 0) }
    ensures known { IfOk result (λ made. made.pools.known.spans ≡ []) }
    ensures kept { IfOk result (λ made. (p : ℕ) → lives_at made.pools.cores.items p ≡ true → has p made.monitors.kept ≡ true) }
    ensures settings { IfOk result (λ made. map (λ m. m.setting) made.monitors.items ≡ map (λ s. setting options.now s.address) made.pools.cores.items) }
    ensures stand { IfOk result (λ made. All (λ m. MonitorStands m []) made.monitors.items) }
    ensures err { OnErr result (log.new ≡ log.old) }
{
    let Opening {
        pools,
        description,
        facts,
    } = open(alloc, options, 0)?;
    match pool_monitors(alloc, options, &pools.cores) {
        Ok(monitors) => match enter_opening(alloc, log, seat, options, facts) {
            Ok(()) => Ok(Begun {
                pools,
                description,
                monitors,
            }),
            Err(_) => {
                drop(pools);
                drop(description);
                drop(monitors);
                Err(OutOfMemory)
            }
        },
        Err(_) => {
            drop(pools);
            drop(description);
            drop(facts);
            Err(OutOfMemory)
        }
    }
}

impl TopologyCore {
    ghost use Rattle.mdb_driver_rules.specs.Lines.{entry_after};
    ghost use Rattle.mdb_topology.specs.Logging.{IsDriverOf};

    /// Opens a driver, and begins its log with the entry of that, by the seat. `OutOfMemory` comes where there is no memory for it; the log then has no entry.
    pub fn open_seeds(
        alloc: Global,
        log: &mut Log,
        seat: u32,
        options: Options,
    ) -> Result<TopologyCore, OutOfMemory>
        requires empty { log.old ≡ [] }
        requires fits { broken_rule options ≡ None }
        ensures options { IfOk result (λ core. core.options ≡ options) }
        ensures entry { IfOk result (λ core. log.new ≡ entry_after seat [] (opening_step options) ∷ []) }
        ensures opened { IfOk result (λ core. IsDriverOf core log.new) }
        ensures err { OnErr result (log.new ≡ log.old) }
    {
        match begin(alloc, log, seat, &options) {
            Ok(begun) => Ok(TopologyCore {
                options,
                description: begun.description,
                published: 1,
                stopped: false,
                pools: begun.pools,
                monitors: begun.monitors,
                fresh: 0,
                watchers: CheckCount::new(alloc),
            }),
            Err(e) => {
                drop(options);
                Err(e)
            }
        }
    }
}
