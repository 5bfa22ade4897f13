//! Object ids, in hex.

ghost use Rattle.std.specs.Prelude.{◌≡◌, length, IfOk, string_bytes, Some, Ok};
ghost use Rattle.hex.specs.Hex.{decode_sized, encode_lower};

use crate::out_of_memory::OutOfMemory;
use hex::FromHex;
use std::alloc::{AllocError, Global};
use std::fmt;

/// The twelve bytes that name a service, a process, an election or a topology.
#[derive(Clone, Copy, Debug, PartialEq, Eq, PartialOrd, Ord)]
pub struct ObjectId(pub [u8; 12]);

// The digits of the bytes, which give the bytes back.
fn digits(alloc: Global, bytes: &[u8]) -> Result<String, AllocError>
    ensures digits { IfOk result (λ text. string_bytes text ≡ encode_lower bytes.now) }
    ensures again { IfOk result (λ text. decode_sized (string_bytes text) (length bytes.now) ≡ Ok bytes.now) }
{
    hex::encode(alloc, bytes)
}

impl ObjectId {
    ghost use Rattle.mdb_base.specs.Spelling.{id_of};

    /// Reads 24 hex digits of any case, and `None` for any other text.
    pub fn from_hex(text: &str) -> Option<ObjectId>
        ensures { result ≡ id_of text.now }
    {
        match <[u8; 12] as FromHex>::from_hex(text) {
            Ok(bytes) => Some(ObjectId(bytes)),
            Err(_) => None,
        }
    }

    /// 24 hex digits in lower case, which `from_hex` reads as the same id.
    pub fn to_hex(&self, alloc: Global) -> Result<String, OutOfMemory>
        ensures digits { IfOk result (λ text. string_bytes text ≡ encode_lower self.now.0) }
        ensures again { IfOk result (λ text. id_of (string_bytes text) ≡ Some self.now) }
    {
        let bytes: &[u8] = &self.0;
        prove!(bytes.len() == 12);
        Ok(digits(alloc, bytes)?)
    }
}

impl fmt::Display for ObjectId {
    ghost use Rattle.mdb_base.specs.Spelling.{object_id};

    ghost output = { λ id. Some (object_id id) };

    fn fmt<W: fmt::Write>(&self, f: &mut fmt::Formatter<W>) -> fmt::Result {
        let mut digits = [0u8; 24];
        if hex::encode_to_slice(&self.0, &mut digits).is_err() {
            return Err(fmt::Error);
        }
        match str::from_utf8(&digits) {
            Ok(text) => write!(f, "{text}"),
            Err(_) => Err(fmt::Error),
        }
    }
}
