//! How a check begins.

ghost use Rattle.std.specs.Prelude.{◌≡◌, IfOk};
ghost use Rattle.mdb_monitor.specs.Items.{awaits};
ghost use Rattle.mdb_monitor.specs.Beginnings.{connection_for, timeout_of, action_of, begin_with};
ghost use Rattle.mdb_monitor.specs.Standing.{known_connection, known_version, says_more};

use crate::check::{Action, Begin};
use crate::knowledge::Connection;
use crate::monitor::MonitorCore;
use mdb_base::{Moment, OutOfMemory};
use mdb_events::{SdamEvent, ServerHeartbeatStartedEvent};
use mdb_hello::AwaitableHelloOptions;
use std::alloc::Global;

impl MonitorCore {
    // The server is asked to answer when something changes.
    pub(crate) fn awaits(&self) -> bool
        ensures { result ≡ awaits self.now.setting.allow_streaming (known_version self.now.knowledge) }
    {
        self.knowledge.version().is_some() && self.setting.allow_streaming
    }

    // The connection that there is, or the one that is made.
    pub(crate) fn connection_for(&self, fresh: u32) -> Connection
        ensures { result ≡ connection_for (known_connection self.now.knowledge) fresh }
    {
        match self.knowledge.connection() {
            Some(connection) => connection,
            None => Connection {
                driver_id: fresh,
                server_id: None,
            },
        }
    }

    fn timeout(&self) -> Moment
        ensures { result ≡ timeout_of self.now.setting (known_version self.now.knowledge) }
    {
        match self.knowledge.version() {
            Some(_) => self.setting.connect.saturating_add(self.setting.heartbeat),
            None => self.setting.connect,
        }
    }

    fn action(&self) -> Action
        ensures { result ≡ action_of self.now.setting (known_connection self.now.knowledge) (known_version self.now.knowledge) (says_more self.now.knowledge) }
    {
        if self.knowledge.connection().is_none() {
            return Action::Connect;
        }
        if self.knowledge.says_more() {
            return Action::Read;
        }
        match self.knowledge.version() {
            Some(topology_version) if self.setting.allow_streaming => {
                Action::Hello(Some(AwaitableHelloOptions {
                    topology_version,
                    max_await_time: self.setting.heartbeat,
                }))
            }
            _ => Action::Hello(None),
        }
    }

    pub(crate) fn beginning(&self, alloc: Global, fresh: u32) -> Result<Begin, OutOfMemory>
        ensures { IfOk result (λ b. b ≡ begin_with self.now.setting (known_connection self.now.knowledge) (known_version self.now.knowledge) (says_more self.now.knowledge) fresh) }
    {
        let _alloc = alloc;
        let awaited = self.awaits();
        let connection = self.connection_for(fresh);
        let event = SdamEvent::ServerHeartbeatStarted(ServerHeartbeatStartedEvent {
            server_address: self.setting.address.clone()?,
            awaited,
            driver_connection_id: connection.driver_id,
            server_connection_id: connection.server_id,
        });
        Ok(Begin {
            awaited,
            driver_connection_id: connection.driver_id,
            action: self.action(),
            timeout: self.timeout(),
            event,
        })
    }
}
