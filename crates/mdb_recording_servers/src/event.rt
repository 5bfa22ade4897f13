//! What a driver's listener is told of its servers and its topology (SDAM, "Events").

ghost use Rattle.std.specs.Prelude.{◌≡◌};
ghost use Rattle.mdb_recording_servers.specs.ServerEvents.{ends_change, ends_check_one, from_told, kind_number, needs_topology, opens_one, opens_topology, server_of_event, starts_check_one, uses_one};

/// The kind of a server (SDAM, "ServerType").
#[derive(Clone, Copy, Debug)]
pub enum ServerKind {
    Unknown,
    Standalone,
    Mongos,
    PossiblePrimary,
    Primary,
    Secondary,
    Arbiter,
    Other,
    Ghost,
    LoadBalancer,
}

/// What an event tells of its server.
#[derive(Clone, Copy, Debug)]
pub enum ServerTold {
    Opened,
    Closed,
    /// From one kind to another, as far as these are told.
    Changed(Option<ServerKind>, Option<ServerKind>),
    CheckStarted,
    CheckEnded,
}

/// What an event tells. A server is named by the number of its address.
#[derive(Clone, Copy, Debug)]
pub enum ServerEvent {
    Server(u32, ServerTold),
    TopologyOpened,
    TopologyChanged,
    TopologyClosed,
}

/// An event, and the number of the line that tells it.
#[derive(Clone, Copy, Debug)]
pub struct Seen {
    pub line: u64,
    pub event: ServerEvent,
}

impl ServerKind {
    pub(crate) fn number(self) -> u8
        ensures { result ≡ kind_number self }
    {
        match self {
            ServerKind::Unknown => 0,
            ServerKind::Standalone => 1,
            ServerKind::Mongos => 2,
            ServerKind::PossiblePrimary => 3,
            ServerKind::Primary => 4,
            ServerKind::Secondary => 5,
            ServerKind::Arbiter => 6,
            ServerKind::Other => 7,
            ServerKind::Ghost => 8,
            ServerKind::LoadBalancer => 9,
        }
    }
}

impl ServerEvent {
    /// The number of the server that it names.
    pub fn server(&self) -> Option<u32>
        ensures { result ≡ server_of_event self.now }
    {
        match self {
            ServerEvent::Server(server, _) => Some(*server),
            _ => None,
        }
    }

    pub(crate) fn opens(&self) -> bool
        ensures { result ≡ opens_one self.now }
    {
        matches!(self, ServerEvent::Server(_, ServerTold::Opened))
    }

    // It closes a server, or changes it.
    pub(crate) fn uses(&self) -> bool
        ensures { result ≡ uses_one self.now }
    {
        matches!(
            self,
            ServerEvent::Server(_, ServerTold::Closed | ServerTold::Changed(_, _))
        )
    }

    // A check of a server begins.
    pub(crate) fn starts_check(&self) -> bool
        ensures { result ≡ starts_check_one self.now }
    {
        matches!(self, ServerEvent::Server(_, ServerTold::CheckStarted))
    }

    pub(crate) fn ends_check(&self) -> bool
        ensures { result ≡ ends_check_one self.now }
    {
        matches!(self, ServerEvent::Server(_, ServerTold::CheckEnded))
    }

    // The topology changes once more, or ends.
    pub(crate) fn ends_change(&self) -> bool
        ensures { result ≡ ends_change self.now }
    {
        matches!(
            self,
            ServerEvent::TopologyChanged | ServerEvent::TopologyClosed
        )
    }

    pub(crate) fn opens_topology(&self) -> bool
        ensures { result ≡ opens_topology self.now }
    {
        matches!(self, ServerEvent::TopologyOpened)
    }

    // It is nothing that a closed topology does.
    pub(crate) fn needs_topology(&self) -> bool
        ensures { result ≡ needs_topology self.now }
    {
        matches!(
            self,
            ServerEvent::Server(
                _,
                ServerTold::Opened | ServerTold::Closed | ServerTold::Changed(_, _)
            ) | ServerEvent::TopologyChanged
                | ServerEvent::TopologyClosed
        )
    }

    // The kind from which it says that its server changed.
    pub(crate) fn from(&self) -> Option<ServerKind>
        ensures { result ≡ from_told self.now }
    {
        match self {
            ServerEvent::Server(_, ServerTold::Changed(from, _)) => *from,
            _ => None,
        }
    }
}
