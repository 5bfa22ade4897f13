//! Laws of whole histories of a driver, each by a name: what a reader of the standards asks of every log, over the definitions that the driver's answers are proved by.
//!
//! `headline` says in one place what every log keeps. `closes` says why connections are closed, `errors` what late errors leave alone, `handed` what a pool that a driver hands out tells, `histories` what
//! every list of items keeps, `logs` what every log tells, `names` which connections events name, `pools` by what pools change, `refusals` when steps are refused, `searches` which connection a caller
//! gets, and `telling` what is told of requests.
#![tactic(auto)]

pub mod closes;
pub mod errors;
pub mod handed;
pub mod headline;
pub mod histories;
pub mod logs;
pub mod names;
pub mod pools;
pub mod refusals;
pub mod searches;
pub mod telling;
