//! Times, as the steps of a driver hand them in and as servers tell them.

/// A moment or a duration in milliseconds.
pub type Moment = u64;

/// A round trip or the duration of a check in nanoseconds.
pub type Nanos = u64;

/// A point in time that a server tells: milliseconds since the Unix epoch.
#[derive(Clone, Copy, Debug, PartialEq, Eq, PartialOrd, Ord)]
pub struct DateTime(pub i64);

/// A time of a cluster's logical clock. A later one is greater.
#[derive(Clone, Copy, Debug, PartialEq, Eq, PartialOrd, Ord)]
pub struct ClusterTime(pub u64);
