//! What is bad in a document, as numbers and a name.

ghost use Rattle.std.specs.Prelude.{◌≡◌};
ghost use Rattle.mdb_c.specs.Documents.{fault_number, padded, byte_fault, field_fault};

use mdb_bson::Fault;

/// What is bad in a document.
#[repr(C)]
#[derive(Clone, Copy)]
pub struct DocumentFault {
    /// The number of the bad byte, from 0, and 0 where a field is bad.
    pub place: u64,
    /// What is bad there, from 1. It is 11 where a field is bad.
    pub kind: u32,
    /// The name of the bad field, with zeros behind it, and zeros where no field is bad.
    pub field: [u8; 36],
}

fn fault_number(fault: Fault) -> u32
    ensures { result ≡ fault_number fault }
{
    match fault {
        Fault::Size => 1,
        Fault::Short => 2,
        Fault::Length => 3,
        Fault::Zero => 4,
        Fault::Utf8 => 5,
        Fault::Bool => 6,
        Fault::Kind => 7,
        Fault::Depth => 8,
        Fault::Past => 9,
        Fault::Trailing => 10,
    }
}

// A name with zeros behind it.
fn padded(name: &str) -> [u8; 36]
    ensures { result ≡ padded name.now }
{
    let mut field = [0; 36];
    let bytes = name.as_bytes();
    let count = bytes.len().min(36);
    field[..count].copy_from_slice(&bytes[..count]);
    field
}

/// The fault at a byte.
pub fn byte_fault(fault: Fault, place: usize) -> DocumentFault
    ensures { result ≡ byte_fault fault place }
{
    DocumentFault {
        place: place as u64,
        kind: fault_number(fault),
        field: [0; 36],
    }
}

/// The fault of a field.
pub fn field_fault(name: &str) -> DocumentFault
    ensures { result ≡ field_fault name.now }
{
    DocumentFault {
        place: 0,
        kind: 11,
        field: padded(name),
    }
}
