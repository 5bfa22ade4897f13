//! The numbers by which a caller names a text of a topology or a server.

/// The name of the replica set.
pub const SET_NAME: u32 = 1;

/// The election id, in 24 hex digits.
pub const ELECTION_ID: u32 = 2;

/// Why the driver cannot speak to a server of the topology; the error of a server.
pub const ERROR: u32 = 3;

/// The address of the server.
pub const ADDRESS: u32 = 4;

/// All that is told of the server, in one text.
pub const INFO: u32 = 5;

/// The address by which the set knows the server.
pub const ME: u32 = 6;

/// The address of the primary, as the server knows it.
pub const PRIMARY: u32 = 7;

/// The members that hold data and can be elected.
pub const HOSTS: u32 = 8;

/// The members that hold data and cannot be elected.
pub const PASSIVES: u32 = 9;

/// The members that vote and hold no data.
pub const ARBITERS: u32 = 10;

/// All fields of the reply that a line names.
pub const REPLY: u32 = 11;
