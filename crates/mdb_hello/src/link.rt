//! A link to a server, and a hello over it.

ghost use Rattle.mdb_hello.specs.Links.{Exchanges, Greets, GreetsOnce};

use crate::command::Command;
use crate::error::{LinkError, RunHelloError};
use crate::response::{HelloCommandResponse, HelloReply};
use mdb_base::{Doc, Document, ServerAddress};
use std::alloc::Global;

/// A connection over which a server answers commands.
pub trait Link {
    ghost use Rattle.std.specs.Prelude.{Option, List, Result};
    ghost use Rattle.mdb_base.specs.declared.document.Doc.{Doc};
    ghost use Rattle.mdb_hello.specs.declared.error.LinkError.{LinkError};
    ghost use Rattle.mdb_base.specs.Document.{Field};
    ghost use Rattle.mdb_hello.specs.declared.command.Command.{Command};
    ghost use Rattle.mdb_hello.specs.Links.{LinkState};

    /// The document that it has for a command now, where the object tells.
    ghost document: { Self → Command → Option (List Field) };

    /// The last error that it answered, where the object tells, and how often it failed.
    ghost state: { Self → LinkState };

    /// What one exchange is for this kind of link: the link before, the command, the answer, the link after.
    ghost exchanged: { Self → Command → Result Doc LinkError → Self → Type 0 };

    /// Sends the command and gives the server's answer.
    fn exchange(&mut self, alloc: Global, command: &Command) -> Result<Doc, LinkError>
        ensures answer { Exchanges (document self.old command.now) (state self.old) (state self.new) result }
        ensures exchanged { exchanged self.old command.now result self.new };
}

/// Greets the server at this address by one exchange and reads its reply. `Link` is the error with which the link failed in this
/// call; `BadField` is as in `HelloCommandResponse::from_doc`. The reply keeps the document and has no cluster time.
pub fn run_hello<L: Link>(
    alloc: Global,
    link: &mut L,
    address: &ServerAddress,
    command: &Command,
) -> Result<HelloReply, RunHelloError>
    ensures greets { Greets (L.document link.old command.now) address.now (L.state link.old) (L.state link.new) result }
    ensures once { GreetsOnce (λ answer. L.exchanged link.old command.now answer link.new) address.now result }
{
    let doc = link.exchange(alloc, command)?;
    let command_response = HelloCommandResponse::from_doc(alloc, &doc)?;
    let server_address = address.clone()?;
    Ok(HelloReply {
        server_address,
        command_response,
        raw_command_response: Document::new(doc),
        cluster_time: None,
    })
}
