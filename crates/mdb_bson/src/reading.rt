//! Reading a document.

ghost use Rattle.std.specs.Prelude.{◌≡◌, map};
ghost use Rattle.mdb_base.specs.Document.{doc_content, named_content};
ghost use Rattle.mdb_bson.specs.Reading.{Gives, whole};
ghost use Rattle.mdb_bson.specs.Bson.{Reads, read};

use crate::document::document;
use crate::fault::{BsonError, Fault, Stop};
use mdb_base::{Doc, Value};
use std::alloc::Global;

/// How many documents may stand within one another, the outermost one counted.
pub const MAX_DEPTH: usize = 100;

/// The greatest length of a document in bytes: that of a command, 16 MiB and 16 KiB.
pub const MAX_LENGTH: usize = 16_793_600;

// The fields of the document that all of the bytes are.
#[tactic(auto, unfolding(crate::specs::Reading::whole))]
fn whole(alloc: Global, bytes: &[u8]) -> Result<Vec<(String, Value)>, Stop>
    ensures { Gives (λ x. map named_content x.items) result (whole bytes.now) }
{
    if bytes.len() > MAX_LENGTH {
        return Err(Stop::Bad(Fault::Size, bytes.len()));
    }
    let (fields, rest) = document(alloc, MAX_DEPTH, bytes)?;
    if !rest.is_empty() {
        return Err(Stop::Bad(Fault::Trailing, rest.len()));
    }
    Ok(fields)
}

/// The document that the bytes are, all of them. A value of a type that `Value` has nothing for is passed over: the
/// document has no field for it, and a list no element. Those types are double, binary, undefined, null, regular
/// expression, DBPointer, code, symbol, code with scope, timestamp, decimal128, and the least and the greatest key.
/// What stands in a binary value is not looked at.
pub fn read(alloc: Global, bytes: &[u8]) -> Result<Doc, BsonError>
    ensures { Reads result (read bytes.now) }
{
    match whole(alloc, bytes) {
        Ok(fields) => Ok(Doc { fields }),
        Err(Stop::Bad(fault, left)) => {
            Err(BsonError::Bad(fault, bytes.len().saturating_sub(left)))
        }
        Err(Stop::Memory) => Err(BsonError::OutOfMemory),
    }
}
