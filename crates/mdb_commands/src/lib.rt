//! What a command line of the tool asks for, and what its help says.
#![tactic(auto)]

mod command;
mod error;
mod help;
mod reading;
mod subcommand;

pub use command::{Command, Input};
pub use error::CommandError;
pub use help::{help_of, tool_help, version};
pub use reading::read_command;
pub use subcommand::Subcommand;
