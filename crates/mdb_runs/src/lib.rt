//! Runs of scripts of steps over connection pools: of those that a source holds, of generated ones, and of the tool by its
//! words.
#![tactic(auto)]

mod made;
mod run;
mod tool;

pub use made::run_made;
pub use run::run_script;
pub use tool::run_tool;
