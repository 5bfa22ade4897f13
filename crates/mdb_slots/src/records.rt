//! The records of values.

use mdb_base::{Moment, ObjectId};

/// What is kept in a slot.
#[derive(Clone, Copy, Debug, PartialEq, Eq)]
pub struct Record {
    /// The number of the record.
    pub id: u32,
    /// The service that it belongs to.
    pub service: Option<ObjectId>,
    /// When it came.
    pub since: Moment,
}

/// Names a record.
#[derive(Clone, Copy, Debug, PartialEq, Eq)]
pub struct SlotRef {
    /// The slot of the record.
    pub slot: u32,
    /// The number of the record.
    pub id: u32,
}
