//! Hello: the command by which a driver greets a server, and the server's reply (SDAM, "hello").
#![tactic(auto)]

mod checking;
mod command;
mod error;
mod field;
mod groups;
mod link;
mod making;
mod memory_link;
mod nested_values;
mod plain_reply;
mod plain_values;
mod reading;
mod response;
mod response_copy;
mod server_type;
mod tag_values;
mod writing;

pub use command::{
    AwaitableHelloOptions, Command, HELLO_COMMAND_NAME, LEGACY_HELLO_COMMAND_NAME,
    LEGACY_HELLO_COMMAND_NAME_LOWERCASE, ServerApi, hello_command,
};
pub use error::{HelloError, LinkError, RunHelloError};
pub use link::{Link, run_hello};
pub use memory_link::MemLink;
pub use response::{HelloCommandResponse, HelloReply, LastWrite};
pub use server_type::ServerType;
