//! When two descriptions of a server are the same.

ghost use Rattle.std.specs.Prelude.{◌≡◌, option_copied};
ghost use Rattle.mdb_describe.specs.Same.{same, same_set, same_members, same_abilities, same_option, same_text, same_texts, same_tags, same_version, same_kind, same_error, same_type};

use crate::description::ServerDescription;
use mdb_base::{Error, ErrorKind, Items, TagSet, Text, TopologyVersion};
use mdb_hello::ServerType;

impl ServerDescription {
    /// The two say the same of the same server (SDAM, "ServerDescription equality"): all but the round trip, the
    /// update time and what the reply says beyond the fields that the standard names is compared, lists in their
    /// order.
    pub fn same(&self, other: &ServerDescription) -> bool
        ensures { result ≡ same self.now other.now }
    {
        self.address.is(&other.address)
            && same_type(self.server_type, other.server_type)
            && same_set(self, other)
            && same_members(self, other)
            && same_abilities(self, other)
            && same_version(self.topology_version(), other.topology_version())
            && same_error(self.error(), other.error())
    }
}

fn same_set(a: &ServerDescription, b: &ServerDescription) -> bool
    ensures { result ≡ same_set a.now b.now }
{
    same_text(a.set_name(), b.set_name())
        && a.set_version() == b.set_version()
        && a.election_id() == b.election_id()
        && same_text(a.primary(), b.primary())
        && same_text(a.me(), b.me())
}

fn same_members(a: &ServerDescription, b: &ServerDescription) -> bool
    ensures { result ≡ same_members a.now b.now }
{
    same_texts(a.hosts(), b.hosts())
        && same_texts(a.passives(), b.passives())
        && same_texts(a.arbiters(), b.arbiters())
}

fn same_abilities(a: &ServerDescription, b: &ServerDescription) -> bool
    ensures { result ≡ same_abilities a.now b.now }
{
    same_tags(a.tags(), b.tags())
        && a.min_wire_version() == b.min_wire_version()
        && a.max_wire_version() == b.max_wire_version()
        && a.session_timeout() == b.session_timeout()
}

fn same_text(a: Option<&Text>, b: Option<&Text>) -> bool
    ensures { result ≡ same_option same_text (option_copied a.entry) (option_copied b.entry) }
{
    match (a, b) {
        (Some(a), Some(b)) => a == b,
        (None, None) => true,
        _ => false,
    }
}

fn same_texts(a: Option<&Items<Text>>, b: Option<&Items<Text>>) -> bool
    ensures { result ≡ same_option same_texts (option_copied a.entry) (option_copied b.entry) }
{
    match (a, b) {
        (Some(a), Some(b)) => a == b,
        (None, None) => true,
        _ => false,
    }
}

fn same_tags(a: Option<&TagSet>, b: Option<&TagSet>) -> bool
    ensures { result ≡ same_option same_tags (option_copied a.entry) (option_copied b.entry) }
{
    match (a, b) {
        (Some(a), Some(b)) => a.as_slice() == b.as_slice(),
        (None, None) => true,
        _ => false,
    }
}

fn same_version(a: Option<TopologyVersion>, b: Option<TopologyVersion>) -> bool
    ensures { result ≡ same_option same_version a b }
{
    a == b
}

fn same_error(a: Option<&Error>, b: Option<&Error>) -> bool
    ensures { result ≡ same_option same_error (option_copied a.entry) (option_copied b.entry) }
{
    match (a, b) {
        (Some(a), Some(b)) => equal_errors(a, b),
        (None, None) => true,
        _ => false,
    }
}

fn equal_errors(a: &Error, b: &Error) -> bool
    ensures { result ≡ same_error a.now b.now }
{
    same_kind(a.kind, b.kind)
        && a.labels == b.labels
        && same_version(a.topology_version, b.topology_version)
        && a.message == b.message
}

fn same_kind(a: ErrorKind, b: ErrorKind) -> bool
    ensures { result ≡ same_kind a b }
{
    a == b
}

/// The types are the same.
pub fn same_type(a: ServerType, b: ServerType) -> bool
    ensures { result ≡ same_type a b }
{
    a == b
}
