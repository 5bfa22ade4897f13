//! What hellos and checks of servers came to, with the server's reply as a document in BSON.

ghost use Rattle.std.specs.Prelude.{◌≡◌, ◌≢◌, None, IfOk, IfErr};
ghost use Rattle.mdb_base.specs.declared.address.ServerAddress.{ServerAddress as Address};
ghost use Rattle.mdb_hello.specs.declared.response.HelloCommandResponse.{HelloCommandResponse as Reply};
ghost use Rattle.mdb_log.specs.declared.checked.BeatenResult.TheVariants as beaten;
ghost use Rattle.mdb_log.specs.declared.checked.HelloResult.TheVariants as hello;
ghost use Rattle.mdb_log.specs.declared.step.Act.TheVariants as act;
ghost use Rattle.mdb_session.specs.Sessions.{IsStepped, step_at};
ghost use Rattle.mdb_session.specs.Texts.{IsAddressOf};
ghost use Rattle.mdb_c.specs.declared.documents.Refused.TheVariants as refused;
ghost use Rattle.mdb_c.specs.Documents.{IsRefused, IsUnread, reply_in, kept_of, at_of, more_of};

use crate::document_faults::{DocumentFault, byte_fault, field_fault};
use mdb_base::ServerAddress;
use mdb_bson::{BsonError, read};
use mdb_events::Boxed;
use mdb_hello::{HelloCommandResponse, HelloError};
use mdb_lines::LineError;
use mdb_log::{Act, BeatenResult, HelloResult};
use mdb_session::{
    At, BAD_DOCUMENT, CLOSED, MALFORMED, NO_MEMORY, OK, ReplyNumbers, Slot, Status, address_in,
};
use std::alloc::Global;

/// How a server's reply came.
#[repr(C)]
#[derive(Clone, Copy)]
pub struct CameNumbers {
    /// The moment, in milliseconds.
    pub moment: u64,
    /// How long the round trip or the check took, in nanoseconds.
    pub nanos: u64,
    /// The seat.
    pub seat: u32,
    /// The number of the pool for which the hello or the check was begun.
    pub pool: u32,
    /// Whether the server sends more replies unasked.
    pub more: u32,
}

/// The reply to a step, or what is bad in its document.
#[repr(C)]
#[derive(Clone, Copy)]
pub struct Answered {
    /// The reply.
    pub reply: ReplyNumbers,
    /// What is bad in the document.
    pub bad: DocumentFault,
}

/// Why an address and a document are not taken.
#[derive(Clone, Copy)]
pub enum Refused {
    Bad(DocumentFault),
    Malformed,
    NoMemory,
}

fn at_of(came: &CameNumbers) -> At
    ensures { result ≡ at_of came.now }
{
    At {
        moment: came.moment,
        seat: came.seat,
    }
}

// The fields of the reply that a line of a script names.
fn kept_of(reply: HelloCommandResponse) -> HelloCommandResponse
    ensures { result ≡ kept_of reply }
{
    let mut kept = reply;
    kept.compressors = None;
    kept.last_write = None;
    kept.sasl_supported_mechs = None;
    kept.speculative_authenticate = None;
    kept.max_bson_object_size = 0;
    kept.max_write_batch_size = None;
    kept.service_id = None;
    kept.max_message_size_bytes = 0;
    kept
}

// What is kept of the reply that the bytes are.
fn reply_in(alloc: Global, bytes: &[u8]) -> Result<HelloCommandResponse, Refused>
    ensures ok { IfOk result (λ reply. reply_in bytes.now ≡ Ok reply) }
    ensures err { IfErr result (IsUnread bytes.now) }
{
    let doc = match read(alloc, bytes) {
        Ok(doc) => doc,
        Err(BsonError::Bad(fault, place)) => return Err(Refused::Bad(byte_fault(fault, place))),
        Err(BsonError::OutOfMemory) => return Err(Refused::NoMemory),
    };
    let reply = HelloCommandResponse::from_doc(alloc, &doc);
    drop(doc);
    match reply {
        Ok(reply) => Ok(kept_of(reply)),
        Err(HelloError::BadField(name)) => Err(Refused::Bad(field_fault(name))),
        Err(HelloError::OutOfMemory) => Err(Refused::NoMemory),
    }
}

// The address and the reply that came from there.
fn came_in(
    alloc: Global,
    address: &[u8],
    document: &[u8],
) -> Result<(ServerAddress, Boxed<HelloCommandResponse>), Refused>
    ensures ok { IfOk result (λ x. IsAddressOf address.now x.0 × (reply_in document.now ≡ Ok x.1)) }
    ensures err { IfErr result (λ why. IsRefused address.now document.now why) }
{
    let address = match address_in(alloc, address) {
        Ok(address) => address,
        Err(LineError::Bad) => return Err(Refused::Malformed),
        Err(LineError::OutOfMemory) => return Err(Refused::NoMemory),
    };
    let reply = match reply_in(alloc, document) {
        Ok(reply) => reply,
        Err(why) => return Err(why),
    };
    match Boxed::new(alloc, reply) {
        Ok(reply) => Ok((address, reply)),
        Err(_) => Err(Refused::NoMemory),
    }
}

// Tells why.
fn told(why: Refused, answered: &mut Answered) -> Status
    ensures bad { result ≡ BAD_DOCUMENT → (why ≡ refused.Bad answered.new.bad) × (answered.new.reply ≡ answered.old.reply) }
    ensures same { result ≢ BAD_DOCUMENT → answered.new ≡ answered.old }
    ensures malformed { result ≡ MALFORMED → why ≡ refused.Malformed }
    ensures answers { result ≢ NO_MEMORY → result ≢ MALFORMED → result ≡ BAD_DOCUMENT }
{
    match why {
        Refused::Bad(fault) => {
            answered.bad = fault;
            BAD_DOCUMENT
        }
        Refused::Malformed => MALFORMED,
        Refused::NoMemory => NO_MEMORY,
    }
}

/// The hello of a monitor was answered (SDAM, "Updating the TopologyDescription") by this document, after a round trip of `nanos`.
#[unsafe(no_mangle)]
pub extern "C" fn mdb_hello_bson(
    alloc: Global,
    slot: &mut Slot,
    came: &CameNumbers,
    address: &[u8],
    document: &[u8],
    answered: &mut Answered,
) -> Status
    ensures ok { result ≡ OK → (a : Address) × (r : Reply) × IsAddressOf address.now a × (reply_in document.now ≡ Ok r) × (answered.new.bad ≡ answered.old.bad) × IsStepped slot.old.word.value slot.new.word.value came.now.seat (step_at (at_of came.now) (act.Hello a came.now.pool (hello.Ok came.now.nanos r))) answered.new.reply }
    ensures bad { result ≡ BAD_DOCUMENT → (reply_in document.now ≡ Err answered.new.bad) × (answered.new.reply ≡ answered.old.reply) }
    ensures same { result ≢ OK → result ≢ BAD_DOCUMENT → answered.new ≡ answered.old }
    ensures other { result ≢ OK → slot.new.word.value ≡ slot.old.word.value }
    ensures malformed { result ≡ MALFORMED → (a : Address) → IsAddressOf address.now a → ⊥ }
    ensures closed { result ≡ CLOSED → slot.old.word.value ≡ None }
    ensures answers { result ≢ OK → result ≢ NO_MEMORY → result ≢ MALFORMED → result ≢ BAD_DOCUMENT → result ≡ CLOSED }
{
    match came_in(alloc, address, document) {
        Ok((address, reply)) => {
            let act = Act::Hello(address, came.pool, HelloResult::Ok(came.nanos, reply));
            slot.act(alloc, &at_of(came), act, &mut answered.reply)
        }
        Err(why) => told(why, answered),
    }
}

/// The check of a monitor was answered (SDAM monitoring, "ServerHeartbeatSucceededEvent") by this document, after `nanos`.
#[unsafe(no_mangle)]
pub extern "C" fn mdb_beaten_bson(
    alloc: Global,
    slot: &mut Slot,
    came: &CameNumbers,
    address: &[u8],
    document: &[u8],
    answered: &mut Answered,
) -> Status
    ensures ok { result ≡ OK → (a : Address) × (r : Reply) × IsAddressOf address.now a × (reply_in document.now ≡ Ok r) × (answered.new.bad ≡ answered.old.bad) × IsStepped slot.old.word.value slot.new.word.value came.now.seat (step_at (at_of came.now) (act.Beaten a came.now.pool came.now.nanos (beaten.Ok r (more_of came.now)))) answered.new.reply }
    ensures bad { result ≡ BAD_DOCUMENT → (reply_in document.now ≡ Err answered.new.bad) × (answered.new.reply ≡ answered.old.reply) }
    ensures same { result ≢ OK → result ≢ BAD_DOCUMENT → answered.new ≡ answered.old }
    ensures other { result ≢ OK → slot.new.word.value ≡ slot.old.word.value }
    ensures malformed { result ≡ MALFORMED → (a : Address) → IsAddressOf address.now a → ⊥ }
    ensures closed { result ≡ CLOSED → slot.old.word.value ≡ None }
    ensures answers { result ≢ OK → result ≢ NO_MEMORY → result ≢ MALFORMED → result ≢ BAD_DOCUMENT → result ≡ CLOSED }
{
    match came_in(alloc, address, document) {
        Ok((address, reply)) => {
            let act = Act::Beaten(
                address,
                came.pool,
                came.nanos,
                BeatenResult::Ok(reply, came.more != 0),
            );
            slot.act(alloc, &at_of(came), act, &mut answered.reply)
        }
        Err(why) => told(why, answered),
    }
}
