//! What a driver knows of its servers: their descriptions, the description of the whole topology, and which servers
//! an operation may use (SDAM, "Server Discovery and Monitoring").
#![tactic(auto)]

mod carrying;
mod change;
mod compatibility;
mod copies;
mod decide;
mod description;
mod diff;
mod fields;
mod info_text;
mod listed;
mod lowered;
mod opening;
mod own_address;
mod preparation;
mod primary;
mod same;
mod selection;
mod server_info;
mod servers;
mod session_timeout;
mod storing;
mod topology;
mod update;

pub use description::ServerDescription;
pub use diff::Diff;
pub use info_text::TypeName;
pub use mdb_srv::TopologyType;
pub use selection::{Mode, ReadPreference, SelectionCriteria};
pub use server_info::ServerInfo;
pub use topology::TopologyDescription;
