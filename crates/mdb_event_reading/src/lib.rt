//! Reading of texts of facts: the ends of requests and the events of pools from their texts, and whether a text is that of an event of a server or of the topology.
#![tactic(auto)]

mod beats;
mod changes;
mod connection_events;
mod dashes;
mod end_kind;
mod ends;
mod event_kind;
mod event_reading;
mod event_rules;
mod pool_events;
mod reasons;
mod sdam_kind;
mod sdam_reading;
mod sdam_rules;
mod sdam_text;
mod shapes;
mod shown_sdam;
mod type_words;
mod words;

pub use dashes::{service_or_dash, truth};
pub use end_kind::EndKind;
pub use ends::{end_types, is_end, read_end};
pub use event_kind::EventKind;
pub use event_reading::read_event;
pub use event_rules::{event_types, is_event};
pub use sdam_kind::SdamKind;
pub use sdam_reading::is_sdam;
pub use shown_sdam::{ShownBeat, ShownSdam};
