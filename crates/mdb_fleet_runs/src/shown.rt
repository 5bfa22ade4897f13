//! What is shown of a description: its type, its primary and both maxima.

ghost use Rattle.std.specs.Prelude.{◌≡◌, option_copied};
ghost use Rattle.mdb_fleet_runs.specs.FleetText.{described_primary};

use mdb_base::ObjectId;
use mdb_describe::{ServerDescription, TopologyDescription};
use mdb_hello::ServerType;
use std::fmt;

/// The primary of some servers, the first in the order of addresses.
pub fn described_primary(servers: &[ServerDescription]) -> Option<&ServerDescription>
    ensures { option_copied result ≡ described_primary servers.now }
{
    servers
        .iter()
        .find(|s| matches!(s.server_type, ServerType::RsPrimary))
}

// An address or a dash.
#[derive(Drop)]
struct PrimaryText<'a>(Option<&'a ServerDescription>);

impl fmt::Display for PrimaryText<'_> {
    ghost use Rattle.std.specs.Prelude.{Some, option_copied};
    ghost use Rattle.mdb_fleet_runs.specs.FleetText.{primary_text};

    ghost output = { λ x. Some (primary_text (option_copied x.0)) };

    fn fmt<W: fmt::Write>(&self, f: &mut fmt::Formatter<W>) -> fmt::Result {
        match self.0 {
            Some(server) => {
                let address = &server.address;
                write!(f, "{address}")
            }
            None => write!(f, "-"),
        }
    }
}

// An election or a dash.
#[derive(Drop)]
struct ElectionText(Option<ObjectId>);

impl fmt::Display for ElectionText {
    ghost use Rattle.std.specs.Prelude.{Some};
    ghost use Rattle.mdb_fleet_runs.specs.FleetText.{election_text};

    ghost output = { λ x. Some (election_text x.0) };

    fn fmt<W: fmt::Write>(&self, f: &mut fmt::Formatter<W>) -> fmt::Result {
        match self.0 {
            Some(id) => write!(f, "{id}"),
            None => write!(f, "-"),
        }
    }
}

// A set version or a dash.
#[derive(Drop)]
struct VersionText(Option<i32>);

impl fmt::Display for VersionText {
    ghost use Rattle.std.specs.Prelude.{Some};
    ghost use Rattle.mdb_fleet_runs.specs.FleetText.{version_text};

    ghost output = { λ x. Some (version_text x.0) };

    fn fmt<W: fmt::Write>(&self, f: &mut fmt::Formatter<W>) -> fmt::Result {
        match self.0 {
            Some(version) => write!(f, "{version}"),
            None => write!(f, "-"),
        }
    }
}

/// A description, shown by its type, its primary and both maxima.
#[derive(Drop)]
pub struct Shown<'a>(pub &'a TopologyDescription);

impl fmt::Display for Shown<'_> {
    ghost use Rattle.std.specs.Prelude.{Some};
    ghost use Rattle.mdb_fleet_runs.specs.FleetText.{shown};

    ghost output = { λ x. Some (shown x.0.now) };

    fn fmt<W: fmt::Write>(&self, f: &mut fmt::Formatter<W>) -> fmt::Result {
        let kind = self.0.topology_type();
        let primary = PrimaryText(described_primary(self.0.servers()));
        let election = ElectionText(self.0.max_election_id());
        let version = VersionText(self.0.max_set_version());
        write!(
            f,
            "{kind} primary={primary} election={election} set={version}"
        )
    }
}
