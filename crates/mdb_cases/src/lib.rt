//! What programs of cases share: the page on which a case is answered, the words of a line, and how a line is judged.
//!
//! A case is a line `KIND GIVEN => WANTED`. It is written out as it stands where the call answers what is wanted, and after `differs:` with what
//! was found where not. A line with no arrow is a remark, and one that begins with `given` names a text for the lines behind it.
#![tactic(auto)]

mod errors;
mod facts;
mod judging;
mod naming;
mod options;
mod page;
mod pool_events;
mod topology;
mod words;

pub use errors::{down, made_error};
pub use facts::{held_down, made_end, made_fact};
pub use judging::{case_of, tell};
pub use naming::Names;
pub use options::made_options;
pub use page::Page;
pub use pool_events::{closed_reason, failed_reason, first_address, pool_event, service};
pub use topology::{tell_server, tell_topology};
pub use words::{decoded, named, number, parted, signed, small, some_version, value_of, version};
