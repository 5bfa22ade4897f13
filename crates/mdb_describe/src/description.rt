//! What is known of one server.

ghost use Rattle.std.specs.Prelude.{◌≡◌, IfOk};
ghost use Rattle.mdb_describe.specs.Descriptions.{unknown, load_balancer, failed, texts_of, listed_texts, from_reply, replied, bad_reply, time_of};
ghost use Rattle.mdb_describe.specs.Listed.{are_addresses};

use crate::listed::are_addresses;
use crate::lowered::lowered_reply;
use mdb_base::{
    DateTime, Error, ErrorKind, Items, Moment, Nanos, OutOfMemory, ServerAddress, Text,
};
use mdb_hello::{HelloCommandResponse, HelloReply, ServerType};
use std::alloc::Global;

/// What is known of one server (SDAM, "ServerDescription"). The reply is the last one, `Ok(None)` where nothing is
/// known, and the error where the last check or an operation failed. The update time is the moment of the reply, and
/// the round trip is in nanoseconds.
#[derive(Debug, Drop)]
pub struct ServerDescription {
    pub address: ServerAddress,
    pub server_type: ServerType,
    pub last_update_time: Option<DateTime>,
    pub average_round_trip_time: Option<Nanos>,
    pub reply: Result<Option<HelloReply>, Error>,
}

impl ServerDescription {
    /// A server of which nothing is known.
    pub fn new(alloc: Global, address: &ServerAddress) -> Result<ServerDescription, OutOfMemory>
        ensures { IfOk result (λ d. d ≡ unknown address.now) }
    {
        let _alloc = alloc;
        Ok(described(address.clone()?, Ok(None)))
    }

    /// A load balancer, which is not checked ("Load Balancer Support"). No memory is taken.
    pub fn new_load_balancer(address: ServerAddress) -> ServerDescription
        ensures { result ≡ load_balancer address }
    {
        ServerDescription {
            server_type: ServerType::LoadBalancer,
            ..described(address, Ok(None))
        }
    }

    /// A server whose check failed. No memory is taken.
    pub fn new_from_error(address: ServerAddress, error: Error) -> ServerDescription
        ensures { result ≡ failed address error }
    {
        described(address, Err(error))
    }

    /// A server that gave this reply at the moment `at` (SDAM, "Parsing a hello response"). The ASCII letters of
    /// hosts, passives, arbiters and `me` are lowered. Where a text of the three lists is no address, it is the
    /// description of an error that says so. The update time is at most 2^63 - 1.
    pub fn new_from_hello_reply(
        alloc: Global,
        address: ServerAddress,
        reply: HelloReply,
        rtt: Nanos,
        at: Moment,
    ) -> Result<ServerDescription, OutOfMemory>
        ensures { IfOk result (λ d. d ≡ from_reply address reply rtt at) }
    {
        if lists_addresses(alloc, &reply.command_response)? {
            replied(alloc, address, reply, rtt, at)
        } else {
            refused(alloc, address)
        }
    }
}

// A server that gave a reply which lists addresses.
fn replied(
    alloc: Global,
    address: ServerAddress,
    reply: HelloReply,
    rtt: Nanos,
    at: Moment,
) -> Result<ServerDescription, OutOfMemory>
    ensures { IfOk result (λ d. d ≡ replied address reply rtt at) }
{
    let server_type = reply.command_response.server_type();
    let reply = lowered_reply(alloc, reply)?;
    Ok(ServerDescription {
        address,
        server_type,
        last_update_time: Some(time_of(at)),
        average_round_trip_time: Some(rtt),
        reply: Ok(Some(reply)),
    })
}

// A server whose reply lists a text that is no address.
fn refused(alloc: Global, address: ServerAddress) -> Result<ServerDescription, OutOfMemory>
    ensures { IfOk result (λ d. d ≡ failed address bad_reply) }
{
    let error = bad_reply(alloc)?;
    Ok(ServerDescription::new_from_error(address, error))
}

// A server of type Unknown.
fn described(address: ServerAddress, reply: Result<Option<HelloReply>, Error>) -> ServerDescription
    ensures { result ≡ record { address = address; server_type = ServerType.Unknown; last_update_time = None; average_round_trip_time = None; reply = reply } }
{
    ServerDescription {
        address,
        server_type: ServerType::Unknown,
        last_update_time: None,
        average_round_trip_time: None,
        reply,
    }
}

fn time_of(at: Moment) -> DateTime
    ensures { result.0 ≡ time_of at }
{
    const LAST: u64 = 0x7fff_ffff_ffff_ffff;
    if at <= LAST {
        DateTime(at as i64)
    } else {
        DateTime(i64::MAX)
    }
}

fn bad_reply(alloc: Global) -> Result<Error, OutOfMemory>
    ensures { IfOk result (λ e. e ≡ bad_reply) }
{
    let message = String::from_str(alloc, "bad address in hello reply")?;
    Ok(Error {
        kind: ErrorKind::Other,
        labels: Items::new(Vec::new(alloc)),
        topology_version: None,
        message: Text::new(message),
    })
}

// Each text of the three lists is an address.
fn lists_addresses(alloc: Global, response: &HelloCommandResponse) -> Result<bool, OutOfMemory>
    ensures { IfOk result (λ all. all ≡ are_addresses (listed_texts response.now)) }
{
    Ok(
        all_addresses(alloc, &response.hosts)?
            && all_addresses(alloc, &response.passives)?
            && all_addresses(alloc, &response.arbiters)?,
    )
}

fn all_addresses(alloc: Global, texts: &Option<Items<Text>>) -> Result<bool, OutOfMemory>
    ensures { IfOk result (λ all. all ≡ are_addresses (texts_of texts.now)) }
{
    match texts {
        Some(texts) => are_addresses(alloc, texts.as_slice()),
        None => Ok(true),
    }
}
