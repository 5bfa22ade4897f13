//! What the calls of a shared driver answer where they don't do what they were asked for.

use crate::driver::SharedDriver;
use crate::seat::Seat;
use mdb_log::Core;

/// Not all seats were given. The driver and the seats come back.
#[derive(Drop)]
pub struct Unclosed<C: Core> {
    pub driver: SharedDriver<C>,
    pub seats: Vec<Seat<C>>,
    /// How many seats weren't given. Which ones tells the number of each that was (`Seat::number`): they are those below `SharedDriver::seats`.
    pub missing: u32,
}
