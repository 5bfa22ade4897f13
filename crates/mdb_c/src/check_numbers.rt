//! A check of a server as numbers.

ghost use Rattle.std.specs.Prelude.{◌≡◌, not, None, option_copied};
ghost use Rattle.mdb_hello.specs.Commands.{is_current};
ghost use Rattle.mdb_c.specs.Checks.{action_number, awaited_of, hello_ok_of, most_of, counter_of, process_of, sends, check_with};

use crate::types::flag_number;
use mdb_describe::ServerDescription;
use mdb_hello::AwaitableHelloOptions;
use mdb_monitor::{Action, Begin};

/// What the next check of a server does. A number that the check does not have is 0.
#[repr(C)]
#[derive(Clone, Copy)]
pub struct CheckNumbers {
    /// After how many milliseconds the check counts as a network timeout.
    pub timeout: u64,
    /// The greatest time for which the server may wait before it answers, in milliseconds.
    pub most: u64,
    /// The counter of the version that the driver has of the server's description.
    pub counter: i64,
    /// The process of that version.
    pub process: [u8; 12],
    /// What the check does, from 1: it makes a connection, reads the next reply, or sends a hello.
    pub action: u32,
    /// The driver's number of the connection.
    pub connection: u32,
    /// Whether the hello is answered when something changes.
    pub awaits: u32,
    /// Whether the hello has the older name of the command.
    pub legacy: u32,
    /// Whether the hello asks the server if it knows the newer name.
    pub asks: u32,
}

fn action_number(action: Action) -> u32
    ensures { result ≡ action_number action }
{
    match action {
        Action::Connect => 1,
        Action::Read => 2,
        Action::Hello(_) => 3,
    }
}

// With what the server answers when something changes.
fn awaited_of(action: Action) -> Option<AwaitableHelloOptions>
    ensures { result ≡ awaited_of action }
{
    match action {
        Action::Connect => None,
        Action::Read => None,
        Action::Hello(options) => options,
    }
}

// Whether the server said that it knows `hello`, over the connection by which the check asks it.
fn hello_ok_of(action: Action, server: Option<&ServerDescription>) -> Option<bool>
    ensures { result ≡ hello_ok_of action (option_copied server.entry) }
{
    match action {
        Action::Connect => None,
        Action::Read => None,
        Action::Hello(_) => server?.response()?.hello_ok,
    }
}

// It sends a command.
fn sends(action: Action) -> bool
    ensures { result ≡ sends action }
{
    match action {
        Action::Connect => true,
        Action::Read => false,
        Action::Hello(_) => true,
    }
}

fn is_legacy(hello_ok: Option<bool>) -> bool
    ensures { result ≡ not (is_current None None hello_ok) }
{
    match hello_ok {
        Some(known) => !known,
        None => true,
    }
}

fn most_of(options: &Option<AwaitableHelloOptions>) -> u64
    ensures { result ≡ most_of options.now }
{
    match options {
        Some(options) => options.max_await_time,
        None => 0,
    }
}

fn counter_of(options: &Option<AwaitableHelloOptions>) -> i64
    ensures { result ≡ counter_of options.now }
{
    match options {
        Some(options) => options.topology_version.counter,
        None => 0,
    }
}

fn process_of(options: &Option<AwaitableHelloOptions>) -> [u8; 12]
    ensures { result ≡ process_of options.now }
{
    match options {
        Some(options) => options.topology_version.process_id.0,
        None => [0; 12],
    }
}

/// The numbers of the check of a server that is described so.
pub fn numbers_of_check(server: Option<&ServerDescription>, check: &Begin) -> CheckNumbers
    ensures { result ≡ check_with (option_copied server.entry) check.now }
{
    let options = awaited_of(check.action);
    let hello_ok = hello_ok_of(check.action, server);
    let sends = sends(check.action);
    CheckNumbers {
        timeout: check.timeout,
        most: most_of(&options),
        counter: counter_of(&options),
        process: process_of(&options),
        action: action_number(check.action),
        connection: check.driver_connection_id,
        awaits: flag_number(options.is_some()),
        legacy: flag_number(sends && is_legacy(hello_ok)),
        asks: flag_number(sends && hello_ok.is_none()),
    }
}
