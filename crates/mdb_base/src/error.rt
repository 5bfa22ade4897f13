//! Errors of operations, of establishing connections and of checks.

ghost use Rattle.std.specs.Prelude.{◌≡◌};

use crate::items::Items;
use crate::text::Text;
use crate::topology_version::TopologyVersion;
use std::alloc::AllocError;

/// What kind of error it is. A command error carries its code.
#[derive(Clone, Copy, Debug, PartialEq, Eq)]
pub enum ErrorKind {
    Network,
    NetworkTimeout,
    Auth,
    IncompatibleServer,
    Command(i32),
    Other,
}

/// An error, with its labels and the topology version that came with it.
#[derive(Debug, Drop, PartialEq, Eq)]
pub struct Error {
    pub kind: ErrorKind,
    pub labels: Items<Text>,
    pub topology_version: Option<TopologyVersion>,
    pub message: Text,
}

impl Clone for Error {
    ghost is_clone = { λ s t. t ≡ s };

    fn clone(&self) -> Result<Error, AllocError> {
        let labels = self.labels.clone()?;
        let message = self.message.clone()?;
        Ok(Error {
            kind: self.kind,
            labels,
            topology_version: self.topology_version,
            message,
        })
    }
}

impl Error {
    ghost use Rattle.mdb_base.specs.Errors.{is_network, is_timeout, is_plain_network, is_auth, is_incompatible, has_label, is_recovering, is_not_writable, is_shutting_down, is_state_change};

    /// The connection broke, in time or not.
    pub fn is_network_error(&self) -> bool
        ensures { result ≡ is_network self.now.kind }
    {
        matches!(self.kind, ErrorKind::Network | ErrorKind::NetworkTimeout)
    }

    /// The time for an answer ran out.
    pub fn is_network_timeout(&self) -> bool
        ensures { result ≡ is_timeout self.now.kind }
    {
        matches!(self.kind, ErrorKind::NetworkTimeout)
    }

    /// The connection broke before its time ran out.
    pub fn is_non_timeout_network_error(&self) -> bool
        ensures { result ≡ is_plain_network self.now.kind }
    {
        matches!(self.kind, ErrorKind::Network)
    }

    /// The server did not accept the credential.
    pub fn is_auth_error(&self) -> bool
        ensures { result ≡ is_auth self.now.kind }
    {
        matches!(self.kind, ErrorKind::Auth)
    }

    /// The driver cannot speak to this server.
    pub fn is_incompatible_server(&self) -> bool
        ensures { result ≡ is_incompatible self.now.kind }
    {
        matches!(self.kind, ErrorKind::IncompatibleServer)
    }

    /// The error has this label.
    pub fn contains_label(&self, label: &str) -> bool
        ensures { result ≡ has_label self.now label.now }
    {
        self.labels
            .as_slice()
            .iter()
            .any(|own| own.as_str() == label)
    }

    /// The node is recovering (SDAM, "not writable primary and node is recovering").
    pub fn is_recovering(&self) -> bool
        ensures { result ≡ is_recovering self.now.kind }
    {
        matches!(
            self.kind,
            ErrorKind::Command(11600 | 11602 | 13436 | 189 | 91)
        )
    }

    /// The node is not a writable primary (SDAM, "not writable primary and node is recovering").
    pub fn is_not_writable_primary(&self) -> bool
        ensures { result ≡ is_not_writable self.now.kind }
    {
        matches!(self.kind, ErrorKind::Command(10107 | 13435 | 10058))
    }

    /// The node is shutting down (SDAM, "not writable primary and node is recovering").
    pub fn is_shutting_down(&self) -> bool
        ensures { result ≡ is_shutting_down self.now.kind }
    {
        matches!(self.kind, ErrorKind::Command(11600 | 91))
    }

    /// The node is recovering or is not a writable primary.
    pub fn is_state_change_error(&self) -> bool
        ensures { result ≡ is_state_change self.now.kind }
    {
        self.is_recovering() || self.is_not_writable_primary()
    }
}
