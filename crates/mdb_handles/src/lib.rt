//! A `Handle` for each thread of a shared driver has all its calls. Those of an application's own threads are functions too: they check connections out, and
//! watch the topology. Handles are lent where there are more threads than seats, and operations on a server are counted.
#![tactic(auto)]

mod asking;
mod counts;
mod handle;
mod handle_roles;
mod limits;
mod numbers;
mod spare_seats;
mod standing;
mod topology_state;
mod watching;

pub use asking::{CheckOutError, check_out, check_out_within};
pub use counts::{OpToken, Server};
pub use handle::Handle;
pub use numbers::{PartyNumbers, seats_share_no_number};
pub use spare_seats::SpareSeats;
pub use topology_state::TopologyState;
pub use watching::{TopologyWatcher, dismiss};
