//! One driver that keeps the last entry of its log while contracts see the whole log, and the slot in which a program in C keeps it.
#![tactic(auto)]

mod ahead;
mod at;
mod driver_pools;
mod fact_numbers;
mod last_facts;
mod loose;
mod numbers;
mod pool_facts;
mod readable;
mod reads;
mod session;
mod slot;
mod status;
mod steps;
mod texts;
mod told;
mod word;

pub use at::At;
pub use driver_pools::DriverPoolNumbers;
pub use fact_numbers::FactNumbers;
pub use last_facts::sdam_address;
pub use numbers::{ReplyNumbers, numbers_of};
pub use pool_facts::tell_pool_facts;
pub use session::Session;
pub use slot::Slot;
pub use status::{
    BAD_DOCUMENT, BAD_RECORDS, CLOSED, MALFORMED, NO_ENTRY, NO_MEMORY, NO_ROOM, OK, OPENED, Status,
    UNSPELLED, status_of,
};
pub use texts::{address_in, copied, text_in};
pub use told::Told;
pub use word::Word;
