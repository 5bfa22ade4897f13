//! How a server is monitored.

ghost use Rattle.std.specs.Prelude.{◌≡◌};
ghost use Rattle.mdb_monitor.specs.Modes.{allows_streaming};

/// How a server is monitored (SDAM, "serverMonitoringMode").
#[derive(Clone, Copy, Debug, Default, PartialEq, Eq)]
pub enum ServerMonitoringMode {
    /// The server answers when something changes.
    #[default]
    Stream,
    /// The server is asked again and again.
    Poll,
    /// By where the driver runs.
    Auto,
}

/// Whether the monitor may wait for answers that come when something changes; `is_faas` says that the driver runs in
/// a function as a service. No memory is taken.
pub fn allow_streaming(mode: ServerMonitoringMode, is_faas: bool) -> bool
    ensures { result ≡ allows_streaming mode is_faas }
{
    match mode {
        ServerMonitoringMode::Stream => true,
        ServerMonitoringMode::Poll => false,
        ServerMonitoringMode::Auto => !is_faas,
    }
}
