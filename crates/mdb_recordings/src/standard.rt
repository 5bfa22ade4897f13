//! The age of the standard by which a driver is judged.

/// The CMAP standard, as it stood.
#[derive(Clone, Copy, Debug)]
pub enum Standard {
    /// Since 2022.
    Current,
    /// A connection isn't closed while it is checked out.
    Of2021,
    /// Pools have no state before they are closed, and any number of connections may be pending.
    Of2020,
}
