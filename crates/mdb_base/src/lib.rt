//! What every crate of the driver stands on: texts and lists, addresses, ids, times, errors, options, and
//! the outside as sources and sinks.
#![tactic(auto)]

mod acknowledgment;
mod address;
mod address_order;
mod address_parse;
mod address_rule;
mod address_text;
mod cutting;
mod document;
mod document_copy;
mod error;
mod error_text;
mod held_document;
mod host;
mod items;
mod items_equality;
mod memory_sink;
mod memory_source;
mod object_id;
mod options;
mod options_check;
mod out_of_memory;
mod outside;
mod plain;
mod streams;
mod tags;
mod text;
mod text_order;
mod times;
mod topology_version;

pub use acknowledgment::{
    AcknowledgedMessage, Acknowledgment, AcknowledgmentReceiver, AcknowledgmentSender,
};
pub use address::{ServerAddress, has_colon};
pub use address_parse::AddressError;
pub use cutting::cut;
pub use document::{Doc, Value};
pub use error::{Error, ErrorKind};
pub use held_document::Document;
pub use host::Host;
pub use items::Items;
pub use memory_sink::MemSink;
pub use memory_source::MemSource;
pub use object_id::ObjectId;
pub use options::{BadOption, Options};
pub use out_of_memory::OutOfMemory;
pub use outside::{Failed, Sink, Source};
pub use plain::{NullSink, PlainSource};
pub use streams::{Reading, Writing};
pub use tags::TagSet;
pub use text::Text;
pub use times::{ClusterTime, DateTime, Moment, Nanos};
pub use topology_version::TopologyVersion;
