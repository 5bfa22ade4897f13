//! What a driver describes of a replica set that fails over: the laws of failover, over every update of a description.
#![tactic(auto)]

mod laws;

pub use laws::{
    at_most_one_is_primary, ids_are_in_order, losses_are_followed, no_pair_is_above_the_greatest,
    openings_follow, replies_are_followed, the_greatest_pair_never_falls,
};
