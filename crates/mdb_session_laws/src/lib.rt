//! What every log of a session keeps, whoever made its steps and by whichever calls.
#![tactic(auto)]

mod laws;

pub use laws::{
    logs_are_legal, logs_are_sound, sessions_keep_the_headline, slots_cross,
    slots_keep_the_headline,
};
