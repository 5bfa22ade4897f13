//! A pool that stands alone and keeps the last entry of its log.

ghost use Rattle.std.specs.Prelude.{◌≡◌, OnOk, OnErr};
ghost use Rattle.mdb_pool_session.specs.PoolLogs.{logged, opened, step_of};

use crate::pool_act::{PoolAct, act_of};
use mdb_base::{Moment, OutOfMemory, ServerAddress};
use mdb_log::{Entry, Log, PoolOptions, Step};
use mdb_past::{Past, Tells};
use mdb_pool::PoolCore;
use std::alloc::Global;
use std::marker::Model;

/// A pool that stands alone, with the last entry of its log. Contracts see the whole log, from its making on; no entry but the last takes memory.
#[derive(Drop)]
pub struct PoolSession {
    pub(crate) core: PoolCore,
    pub(crate) past: Past<Entry>,
    pub(crate) last: Log,
}

impl Model for PoolSession {
    ghost use Rattle.std.specs.Prelude.{◌++◌};
    ghost use Rattle.std.specs.Coded.{codes};
    ghost use Rattle.mdb_base.specs.DocumentCode.{fields_coded};
    ghost use Rattle.mdb_pool_session.specs.PoolLogs.{PoolLog};
    ghost use Rattle.mdb_pool_session.specs.Sessions.{Keeps, log_of};

    ghost Value = { PoolLog };

    ghost coded = { Prim.hlevel (codes, fields_coded) };

    ghost view = { λ s. log_of s.core (s.past.value ++ s.last) };

    ghost invariant = { λ s. Keeps s.core s.past.value s.last };
}

// The entries of the whole log.
struct Whole;

impl Tells<PoolSession, Entry> for Whole {
    ghost told = { λ s. s.entries };
}

impl PoolSession {
    ghost use Rattle.mdb_pool_session.specs.Lawful.{IsLawfulLog};

    /// A pool that was just made: a load-balanced one is ready, a normal one new (CMAP, "Creating a Connection Pool").
    pub fn open(
        alloc: Global,
        number: u32,
        address: ServerAddress,
        options: PoolOptions,
    ) -> PoolSession
        ensures { result ≡ opened number address options }
    {
        let core = PoolCore::new(alloc, number, address, options);
        PoolSession {
            core,
            past: Past::none(),
            last: Log::new(alloc),
        }
    }

    /// Does the act at the moment. The log gets its entry, of the seat, with the reply and the facts. Where there is no memory nothing was done.
    pub fn step(
        &mut self,
        alloc: Global,
        seat: u32,
        moment: Moment,
        act: PoolAct,
    ) -> Result<(), OutOfMemory>
        ensures ok { OnOk result (self.new ≡ logged seat self.old (step_of self.old moment act)) }
        ensures err { OnErr result (self.new ≡ self.old) }
    {
        let act = act_of(self.core.number(), self.core.address(), act)?;
        let step = Step { moment, act };
        let past = Past::of::<PoolSession, Whole>(self);
        let mut log = Log::new(alloc);
        let done = self.core.step(alloc, &mut log, seat, &step);
        drop(step);
        done?;
        self.past = past;
        self.last = log;
        Ok(())
    }

    /// Whatever was stepped, the log is lawful.
    pub fn logs_are_lawful(&self)
        ensures { IsLawfulLog self.now }
    {
        let _core = &self.core;
    }
}
