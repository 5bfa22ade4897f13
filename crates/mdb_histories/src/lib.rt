//! What every history of a driver keeps, in each pool and across pools (`keeping`), and that its logs are legal by the plain sentences (`legality`).
#![tactic(auto)]

pub mod keeping;
pub mod legality;
