//! What follows from a check that ended.

ghost use Rattle.std.specs.Prelude.{◌≡◌, IfOk, None};
ghost use Rattle.mdb_monitor.specs.Items.{awaits, connection_with};
ghost use Rattle.mdb_monitor.specs.Beginnings.{connection_for};
ghost use Rattle.mdb_monitor.specs.Endings.{success_event, failure_event, event_of, report_of, next_of};
ghost use Rattle.mdb_monitor.specs.Standing.{known_connection, known_version};
ghost use Rattle.mdb_monitor.specs.Sessions.{knowledge_after, average_after};

use crate::check::{CheckResult, Next, Report};
use crate::knowledge::Knowledge;
use crate::monitor::MonitorCore;
use crate::raw_reply::without_authentication;
use mdb_base::{Error, Nanos, OutOfMemory};
use mdb_events::{SdamEvent, ServerHeartbeatFailedEvent, ServerHeartbeatSucceededEvent};
use mdb_hello::HelloReply;
use std::alloc::Global;

impl MonitorCore {
    pub(crate) fn ending(
        &self,
        alloc: Global,
        fresh: u32,
        duration: Nanos,
        outcome: &CheckResult,
    ) -> Result<SdamEvent, OutOfMemory>
        ensures { IfOk result (λ event. event ≡ event_of self.now.setting (known_connection self.now.knowledge) (known_version self.now.knowledge) fresh duration outcome.now) }
    {
        let _alloc = alloc;
        match outcome {
            CheckResult::Ok(reply, _) => self.success(fresh, duration, reply),
            CheckResult::Err(error) => self.failure(fresh, duration, error),
            CheckResult::Cancelled(error) => self.failure(fresh, duration, error),
        }
    }

    fn success(
        &self,
        fresh: u32,
        duration: Nanos,
        reply: &HelloReply,
    ) -> Result<SdamEvent, OutOfMemory>
        ensures { IfOk result (λ event. event ≡ success_event self.now.setting (awaits self.now.setting.allow_streaming (known_version self.now.knowledge)) (connection_with (known_connection self.now.knowledge) fresh reply.now) duration reply.now) }
    {
        let connection = self.knowledge.connection_with(fresh, reply);
        Ok(SdamEvent::ServerHeartbeatSucceeded(ServerHeartbeatSucceededEvent {
            duration,
            reply: without_authentication(&reply.raw_command_response)?,
            server_address: self.setting.address.clone()?,
            awaited: self.awaits(),
            driver_connection_id: connection.driver_id,
            server_connection_id: connection.server_id,
        }))
    }

    fn failure(&self, fresh: u32, duration: Nanos, error: &Error) -> Result<SdamEvent, OutOfMemory>
        ensures { IfOk result (λ event. event ≡ failure_event self.now.setting (awaits self.now.setting.allow_streaming (known_version self.now.knowledge)) (connection_for (known_connection self.now.knowledge) fresh) duration error.now) }
    {
        let connection = self.connection_for(fresh);
        Ok(SdamEvent::ServerHeartbeatFailed(ServerHeartbeatFailedEvent {
            duration,
            failure: error.clone()?,
            server_address: self.setting.address.clone()?,
            awaited: self.awaits(),
            driver_connection_id: connection.driver_id,
            server_connection_id: connection.server_id,
        }))
    }

    // The check runs no longer, and what it told is known.
    pub(crate) fn conclude(&mut self, fresh: u32, duration: Nanos, outcome: CheckResult) -> Report
        ensures setting { self.new.setting ≡ self.old.setting }
        ensures running { self.new.running ≡ None }
        ensures knowledge { self.new.knowledge ≡ knowledge_after self.old.setting.allow_streaming self.old.knowledge fresh duration outcome }
        ensures report { result ≡ report_of (average_after self.old.setting.allow_streaming self.old.knowledge duration) outcome }
    {
        self.running = None;
        match outcome {
            CheckResult::Ok(reply, more) => {
                let streaming = self.setting.allow_streaming;
                let session = self
                    .knowledge
                    .after(streaming, fresh, duration, &reply, more);
                self.knowledge = Knowledge::Connected(session);
                Report::Update(reply, session.average)
            }
            CheckResult::Err(error) => {
                self.knowledge = Knowledge::nothing();
                Report::Error(error)
            }
            CheckResult::Cancelled(_) => {
                self.knowledge = Knowledge::nothing();
                Report::Nothing
            }
        }
    }
}

impl CheckResult {
    pub(crate) fn next(&self, available: bool, streaming: bool) -> Next
        ensures { result ≡ next_of self.now available streaming }
    {
        match self {
            CheckResult::Ok(reply, _) => {
                if reply.command_response.topology_version.is_some() && streaming {
                    Next::Continue
                } else {
                    Next::Sleep
                }
            }
            CheckResult::Err(error) if error.is_network_error() && available => Next::Retry,
            CheckResult::Err(_) => Next::Sleep,
            CheckResult::Cancelled(_) => Next::Sleep,
        }
    }
}
