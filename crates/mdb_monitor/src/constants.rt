//! Times of checks, in milliseconds.

use mdb_base::Moment;

/// The time between two checks of a server, where the options name none (SDAM, "heartbeatFrequencyMS").
pub const DEFAULT_HEARTBEAT_FREQUENCY: Moment = 10_000;

/// The least time between two checks of a server (SDAM, "minHeartbeatFrequencyMS").
pub const MIN_HEARTBEAT_FREQUENCY: Moment = 500;

const _: () = prove!(DEFAULT_HEARTBEAT_FREQUENCY == 10_000 && MIN_HEARTBEAT_FREQUENCY == 500);
