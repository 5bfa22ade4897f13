//! One pool that stands alone and keeps the last entry of its log while contracts see the whole log, and the slot in which a program in C keeps it.
#![tactic(auto)]

mod loose;
mod pool_act;
mod pool_reads;
mod pool_session;
mod pool_slot;
mod pool_word;

pub use pool_act::PoolAct;
pub use pool_session::PoolSession;
pub use pool_slot::PoolSlot;
pub use pool_word::PoolWord;
