//! The monitor of one server, and its steps.

ghost use Rattle.std.specs.Prelude.{ℕ, ◌≡◌, true, false, IfOk, OnOk, OnErr, List, [], ◌∷◌, Some, is_some};
ghost use Rattle.mdb_monitor.specs.Average.{mean};
ghost use Rattle.mdb_monitor.specs.Items.{MonitorItem, began, ended, measured, since, is_running, connection_of, samples};
ghost use Rattle.mdb_monitor.specs.Beginnings.{begin_row};
ghost use Rattle.mdb_monitor.specs.Endings.{finish_row};
ghost use Rattle.mdb_monitor.specs.Standing.{runs, setting_of, StandsFor};

use crate::check::{Begin, CheckResult, Finish, Next};
use crate::knowledge::Knowledge;
use mdb_base::{Moment, Nanos, OutOfMemory, ServerAddress};
use std::alloc::{AllocError, Global};

/// How a server is monitored. Times are in milliseconds.
#[derive(Debug, Drop)]
pub struct Setting {
    pub address: ServerAddress,
    pub allow_streaming: bool,
    // Between two checks.
    pub heartbeat: Moment,
    // For a connection.
    pub connect: Moment,
}

impl Clone for Setting {
    ghost is_clone = { λ s t. t ≡ s };

    fn clone(&self) -> Result<Setting, AllocError> {
        Ok(Setting {
            address: self.address.clone()?,
            allow_streaming: self.allow_streaming,
            heartbeat: self.heartbeat,
            connect: self.connect,
        })
    }
}

/// The monitor of one server (SDAM, "Server Monitoring"): what it knows since its last failure or cancellation. The
/// one who holds it makes connections, sends and reads; the monitor says what is to be done.
#[derive(Debug, Drop)]
pub struct MonitorCore {
    pub(crate) setting: Setting,
    pub(crate) knowledge: Knowledge,
    // The fresh number of the check that runs.
    pub(crate) running: Option<u32>,
}

// A step of the topology works on a copy, so that lack of memory leaves the monitor as it was.
impl Clone for MonitorCore {
    ghost is_clone = { λ s t. t ≡ s };

    fn clone(&self) -> Result<MonitorCore, AllocError> {
        Ok(MonitorCore {
            setting: self.setting.clone()?,
            knowledge: self.knowledge,
            running: self.running,
        })
    }
}

impl MonitorCore {
    /// A monitor that knows nothing. The time between two checks and the time for a connection are in milliseconds.
    pub fn new(
        address: ServerAddress,
        allow_streaming: bool,
        heartbeat: Moment,
        connect: Moment,
    ) -> MonitorCore
        ensures setting { setting_of result ≡ record { address = address; allow_streaming = allow_streaming; heartbeat = heartbeat; connect = connect } }
        ensures stands { StandsFor result [] }
        ensures idle { runs result ≡ false }
    {
        MonitorCore {
            setting: Setting {
                address,
                allow_streaming,
                heartbeat,
                connect,
            },
            knowledge: Knowledge::nothing(),
            running: None,
        }
    }

    /// A check begins. Where there is no connection the check makes one, and its number is `fresh`.
    pub fn begin(&mut self, alloc: Global, fresh: u32) -> Result<Begin, OutOfMemory>
        requires idle { runs self.old ≡ false }
        ensures begins { IfOk result (λ b. (h : List MonitorItem) → StandsFor self.old h → b ≡ begin_row (setting_of self.old) (since h) fresh) }
        ensures stands { OnOk result ((h : List MonitorItem) → StandsFor self.old h → StandsFor self.new (began fresh ∷ h)) }
        ensures setting { setting_of self.new ≡ setting_of self.old }
        ensures running { OnOk result (runs self.new ≡ true) }
        ensures unchanged { OnErr result (self.new ≡ self.old) }
    {
        let begin = self.beginning(alloc, fresh)?;
        self.running = Some(fresh);
        Ok(begin)
    }

    /// The check that runs ended after `duration` nanoseconds; `available` says that the type of the server was known.
    /// A check that was cancelled is followed by none at once, whatever its cause.
    pub fn finish(
        &mut self,
        alloc: Global,
        duration: Nanos,
        ended: CheckResult,
        available: bool,
    ) -> Result<Finish, OutOfMemory>
        requires running { runs self.old ≡ true }
        ensures finishes { IfOk result (λ f. (h : List MonitorItem) → StandsFor self.old h → f ≡ finish_row (setting_of self.old) (since h) duration ended available) }
        ensures stands { OnOk result ((h : List MonitorItem) → StandsFor self.old h → StandsFor self.new (MonitorItem.ended duration ended ∷ h)) }
        ensures setting { setting_of self.new ≡ setting_of self.old }
        ensures idle { OnOk result (runs self.new ≡ false) }
        ensures unchanged { OnErr result (self.new ≡ self.old) }
    {
        let fresh = self.running.unwrap();
        let event = self.ending(alloc, fresh, duration, &ended)?;
        let next = ended.next(available, self.setting.allow_streaming);
        let report = self.conclude(fresh, duration, ended);
        Ok(Finish {
            event,
            report,
            next,
        })
    }

    /// A round trip was measured beside the checks. The answer is the average afterwards, in nanoseconds. No memory is
    /// taken.
    pub fn rtt_sample(&mut self, sample: Nanos) -> Nanos
        ensures stands { (h : List MonitorItem) → StandsFor self.old h → StandsFor self.new (measured sample ∷ h) }
        ensures setting { setting_of self.new ≡ setting_of self.old }
        ensures running { runs self.new ≡ runs self.old }
        ensures average { (h : List MonitorItem) → StandsFor self.old h → result ≡ mean (samples (setting_of self.old).allow_streaming (measured sample ∷ since h)) }
    {
        self.knowledge.add_sample(sample)
    }

    /// What the next check does, were it to begin now with the fresh number; nothing changes. A check that runs does what was answered before it began, which is also the answer to the number that
    /// it was given.
    pub fn next_check(&self, alloc: Global, fresh: u32) -> Result<Begin, OutOfMemory>
        ensures { IfOk result (λ b. (h : List MonitorItem) → StandsFor self.now h → b ≡ begin_row (setting_of self.now) (since h) fresh) }
    {
        self.beginning(alloc, fresh)
    }

    /// What follows a check that ended so; nothing changes. `available` says that the type of the server was known before the end. No memory is taken.
    pub fn next_after(&self, ended: &CheckResult, available: bool) -> Next
        ensures { (xs : List MonitorItem) (duration : ℕ) → result ≡ (finish_row (setting_of self.now) xs duration ended.now available).next }
    {
        let streaming = self.setting.allow_streaming;
        ended.next(available, streaming)
    }

    /// A check succeeded since the last failure or cancellation, so that there is a connection. No memory is taken.
    pub fn connected(&self) -> bool
        ensures { (h : List MonitorItem) → StandsFor self.now h → result ≡ is_some (connection_of (since h)) }
    {
        self.knowledge.connection().is_some()
    }

    /// A check runs. No memory is taken.
    pub fn running(&self) -> bool
        ensures machine { result ≡ runs self.now }
        ensures items { (h : List MonitorItem) → StandsFor self.now h → result ≡ is_running h }
    {
        self.running.is_some()
    }
}
