//! Copies of replies.

ghost use Rattle.std.specs.Prelude.{◌≡◌, IfOk};

use super::{HelloCommandResponse, HelloReply};
use mdb_base::{Document, Items, TagSet, Text};
use std::alloc::AllocError;

fn copy_text(text: &Option<Text>) -> Result<Option<Text>, AllocError>
    ensures { IfOk result (λ t. t ≡ text.now) }
{
    match text {
        Some(text) => Ok(Some(text.clone()?)),
        None => Ok(None),
    }
}

fn copy_list(list: &Option<Items<Text>>) -> Result<Option<Items<Text>>, AllocError>
    ensures { IfOk result (λ t. t ≡ list.now) }
{
    match list {
        Some(list) => Ok(Some(list.clone()?)),
        None => Ok(None),
    }
}

fn copy_tags(tags: &Option<TagSet>) -> Result<Option<TagSet>, AllocError>
    ensures { IfOk result (λ t. t ≡ tags.now) }
{
    match tags {
        Some(tags) => Ok(Some(tags.clone()?)),
        None => Ok(None),
    }
}

fn copy_document(document: &Option<Document>) -> Result<Option<Document>, AllocError>
    ensures { IfOk result (λ t. t ≡ document.now) }
{
    match document {
        Some(document) => Ok(Some(document.clone()?)),
        None => Ok(None),
    }
}

// The lists of texts of a reply.
#[derive(Drop)]
struct Lists {
    hosts: Option<Items<Text>>,
    passives: Option<Items<Text>>,
    arbiters: Option<Items<Text>>,
    compressors: Option<Items<Text>>,
    sasl_supported_mechs: Option<Items<Text>>,
}

fn copy_lists(reply: &HelloCommandResponse) -> Result<Lists, AllocError>
    ensures { IfOk result (λ l. l ≡ record { hosts = reply.now.hosts; passives = reply.now.passives; arbiters = reply.now.arbiters; compressors = reply.now.compressors; sasl_supported_mechs = reply.now.sasl_supported_mechs }) }
{
    Ok(Lists {
        hosts: copy_list(&reply.hosts)?,
        passives: copy_list(&reply.passives)?,
        arbiters: copy_list(&reply.arbiters)?,
        compressors: copy_list(&reply.compressors)?,
        sasl_supported_mechs: copy_list(&reply.sasl_supported_mechs)?,
    })
}

// The single texts of a reply.
#[derive(Drop)]
struct Texts {
    msg: Option<Text>,
    me: Option<Text>,
    set_name: Option<Text>,
    primary: Option<Text>,
}

fn copy_texts(reply: &HelloCommandResponse) -> Result<Texts, AllocError>
    ensures { IfOk result (λ t. t ≡ record { msg = reply.now.msg; me = reply.now.me; set_name = reply.now.set_name; primary = reply.now.primary }) }
{
    Ok(Texts {
        msg: copy_text(&reply.msg)?,
        me: copy_text(&reply.me)?,
        set_name: copy_text(&reply.set_name)?,
        primary: copy_text(&reply.primary)?,
    })
}

impl Clone for HelloCommandResponse {
    ghost is_clone = { λ s t. t ≡ s };

    fn clone(&self) -> Result<HelloCommandResponse, AllocError> {
        let lists = copy_lists(self)?;
        let texts = copy_texts(self)?;
        let tags = copy_tags(&self.tags)?;
        let speculative_authenticate = copy_document(&self.speculative_authenticate)?;
        Ok(HelloCommandResponse {
            is_writable_primary: self.is_writable_primary,
            is_master: self.is_master,
            hello_ok: self.hello_ok,
            hosts: lists.hosts,
            passives: lists.passives,
            arbiters: lists.arbiters,
            msg: texts.msg,
            me: texts.me,
            compressors: lists.compressors,
            set_version: self.set_version,
            set_name: texts.set_name,
            hidden: self.hidden,
            secondary: self.secondary,
            arbiter_only: self.arbiter_only,
            is_replica_set: self.is_replica_set,
            logical_session_timeout_minutes: self.logical_session_timeout_minutes,
            last_write: self.last_write,
            min_wire_version: self.min_wire_version,
            max_wire_version: self.max_wire_version,
            tags,
            election_id: self.election_id,
            primary: texts.primary,
            sasl_supported_mechs: lists.sasl_supported_mechs,
            speculative_authenticate,
            max_bson_object_size: self.max_bson_object_size,
            max_write_batch_size: self.max_write_batch_size,
            service_id: self.service_id,
            topology_version: self.topology_version,
            max_message_size_bytes: self.max_message_size_bytes,
            connection_id: self.connection_id,
        })
    }
}

impl Clone for HelloReply {
    ghost is_clone = { λ s t. t ≡ s };

    fn clone(&self) -> Result<HelloReply, AllocError> {
        let server_address = self.server_address.clone()?;
        let raw_command_response = self.raw_command_response.clone()?;
        let command_response = self.command_response.clone()?;
        Ok(HelloReply {
            server_address,
            command_response,
            raw_command_response,
            cluster_time: self.cluster_time,
        })
    }
}
