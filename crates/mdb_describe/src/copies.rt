//! Copies of descriptions.

ghost use Rattle.std.specs.Prelude.{◌≡◌, IfOk};

use crate::description::ServerDescription;
use crate::topology::TopologyDescription;
use mdb_base::{Error, Text};
use mdb_hello::HelloReply;
use std::alloc::AllocError;

impl Clone for ServerDescription {
    ghost is_clone = { λ s t. t ≡ s };

    fn clone(&self) -> Result<ServerDescription, AllocError> {
        let address = self.address.clone()?;
        let reply = copy_reply(&self.reply)?;
        Ok(ServerDescription {
            address,
            server_type: self.server_type,
            last_update_time: self.last_update_time,
            average_round_trip_time: self.average_round_trip_time,
            reply,
        })
    }
}

impl Clone for TopologyDescription {
    ghost is_clone = { λ s t. t ≡ s };

    fn clone(&self) -> Result<TopologyDescription, AllocError> {
        let set_name = copy_text(&self.set_name)?;
        let compatibility_error = copy_text(&self.compatibility_error)?;
        let servers = self.servers.clone()?;
        Ok(TopologyDescription {
            topology_type: self.topology_type,
            set_name,
            max_set_version: self.max_set_version,
            max_election_id: self.max_election_id,
            one_seed: self.one_seed,
            compatibility_error,
            servers,
            cluster_time: self.cluster_time,
        })
    }
}

fn copy_text(text: &Option<Text>) -> Result<Option<Text>, AllocError>
    ensures { IfOk result (λ t. t ≡ text.now) }
{
    match text {
        Some(text) => Ok(Some(text.clone()?)),
        None => Ok(None),
    }
}

// What the last check gave.
type Last = Result<Option<HelloReply>, Error>;

fn copy_reply(reply: &Last) -> Result<Last, AllocError>
    ensures { IfOk result (λ r. r ≡ reply.now) }
{
    match reply {
        Ok(Some(reply)) => Ok(Ok(Some(reply.clone()?))),
        Ok(None) => Ok(Ok(None)),
        Err(error) => Ok(Err(error.clone()?)),
    }
}
