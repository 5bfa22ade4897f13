//! Why bytes are no document.

ghost use Rattle.std.specs.Prelude.{◌≡◌};
ghost use Rattle.mdb_bson.specs.declared.fault.Stop.TheVariants.{Memory};

use std::alloc::{AllocError, AllocFailed};
use thiserror::Error;

/// What is bad in the bytes: the first fault from left to right.
#[derive(Clone, Copy, Debug, PartialEq, Eq)]
pub enum Fault {
    /// The bytes are more than a document may have.
    Size,
    /// The bytes end within a value.
    Short,
    /// A length counts too little, or more bytes than there are.
    Length,
    /// No zero byte stands where a name, a text or a document ends.
    Zero,
    /// A name or a text is not UTF-8.
    Utf8,
    /// A truth value is neither 0 nor 1.
    Bool,
    /// The standard has no type of this number.
    Kind,
    /// Too many documents stand within one another.
    Depth,
    /// An element passes the end of its document.
    Past,
    /// Bytes stand behind the document.
    Trailing,
}

/// Why bytes gave no document.
#[derive(Clone, Copy, Debug, PartialEq, Eq, Error)]
pub enum BsonError {
    /// This is bad, at the byte of this number, from 0: at a value for its type, at the element that passes the end of
    /// its document.
    #[error("the bytes are no document from byte {1} on")]
    Bad(Fault, usize),
    /// There was no memory.
    #[error("out of memory")]
    OutOfMemory,
}

/// Why reading stops: at a fault with so many bytes from there to the end, or for want of memory.
#[derive(Clone, Copy, Debug, PartialEq, Eq)]
pub enum Stop {
    Bad(Fault, usize),
    Memory,
}

impl From<AllocError> for Stop {
    ghost from_gives = { λ _ e. e ≡ Memory };

    fn from(_e: AllocError) -> Stop {
        Stop::Memory
    }
}

impl<T: Drop> From<AllocFailed<T>> for Stop {
    ghost from_gives = { λ _ e. e ≡ Memory };

    fn from(_e: AllocFailed<T>) -> Stop {
        Stop::Memory
    }
}
