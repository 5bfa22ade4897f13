//! The text of a step's line.

ghost use Rattle.std.specs.Prelude.{◌≡◌, IfOk, string_bytes};
ghost use Rattle.mdb_lines.specs.Spelling.{spelling, use_text, HasSpelling};

use crate::open_text::OpenText;
use crate::topology_text::TopologyText;
use mdb_base::{Error, Moment, ObjectId, OutOfMemory};
use mdb_log::{Act, Established, FailedAt, Step, Use};
use std::alloc::Global;
use std::fmt;

// The service that a connection belongs to, if it is known.
#[derive(Drop)]
struct ServicePart(Option<ObjectId>);

impl fmt::Display for ServicePart {
    ghost use Rattle.std.specs.Prelude.{Some, codes, option_map};
    ghost use Rattle.mdb_base.specs.Spelling.{object_id};
    ghost use Rattle.mdb_parts.specs.Parts.{part_text};

    ghost output = { λ x. Some (part_text (codes " sid=") (option_map object_id x.0)) };

    fn fmt<W: fmt::Write>(&self, f: &mut fmt::Formatter<W>) -> fmt::Result {
        match self.0 {
            Some(id) => write!(f, " sid={id}"),
            None => Ok(()),
        }
    }
}

// The server's own number of a connection, if it is known.
#[derive(Drop)]
struct ServerPart(Option<i64>);

impl fmt::Display for ServerPart {
    ghost use Rattle.std.specs.Prelude.{Some, codes, option_map};
    ghost use Rattle.std.specs.Fmt.{signed_decimal};
    ghost use Rattle.mdb_parts.specs.Parts.{part_text};

    ghost output = { λ x. Some (part_text (codes " server=") (option_map signed_decimal x.0)) };

    fn fmt<W: fmt::Write>(&self, f: &mut fmt::Formatter<W>) -> fmt::Result {
        match self.0 {
            Some(number) => write!(f, " server={number}"),
            None => Ok(()),
        }
    }
}

// The end of a line that establishes: the connection, and what was reported.
#[derive(Drop)]
struct Made<'a>(u32, &'a Established);

impl fmt::Display for Made<'_> {
    ghost use Rattle.std.specs.Prelude.{Some, decimal, codes, ◌++◌};
    ghost use Rattle.std.specs.Fmt.{signed_decimal};
    ghost use Rattle.mdb_parts.specs.Parts.{parts_text};
    ghost use Rattle.mdb_lines.specs.Spelling.{established_parts};

    ghost output = { λ x. Some (decimal x.0 ++ (codes " wire=" ++ (signed_decimal x.1.now.wire ++ parts_text (established_parts x.1.now)))) };

    #[tactic(auto, unfolding(mdb_parts::specs::Parts::parts_text))]
    fn fmt<W: fmt::Write>(&self, f: &mut fmt::Formatter<W>) -> fmt::Result {
        let id = self.0;
        let wire = self.1.wire;
        let service = ServicePart(self.1.service_id);
        let server = ServerPart(self.1.server_id);
        write!(f, "{id} wire={wire}{service}{server}")
    }
}

// The end of a line that tells a failure: the connection, when it failed, and the error.
#[derive(Drop)]
struct Lost<'a>(u32, FailedAt, &'a Error);

impl fmt::Display for Lost<'_> {
    ghost use Rattle.std.specs.Prelude.{Some, decimal, codes, ◌++◌};
    ghost use Rattle.mdb_base.specs.ErrorText.{error_text};
    ghost use Rattle.mdb_lines.specs.Spelling.{failed_at_text};

    ghost output = { λ x. Some (decimal x.0 ++ (failed_at_text x.1 ++ (codes " " ++ error_text x.2.now))) };

    fn fmt<W: fmt::Write>(&self, f: &mut fmt::Formatter<W>) -> fmt::Result {
        let id = self.0;
        let error = self.2;
        match self.1 {
            FailedAt::Pre => write!(f, "{id} pre {error}"),
            FailedAt::Post(service) => {
                let service = ServicePart(service);
                write!(f, "{id} post{service} {error}")
            }
        }
    }
}

// A pool and a connection.
#[derive(Drop)]
struct PoolAndConnection(u32, u32);

impl fmt::Display for PoolAndConnection {
    ghost use Rattle.std.specs.Prelude.{Some, decimal, codes, ◌++◌};

    ghost output = { λ x. Some (decimal x.0 ++ (codes " " ++ decimal x.1)) };

    fn fmt<W: fmt::Write>(&self, f: &mut fmt::Formatter<W>) -> fmt::Result {
        let pool = self.0;
        let id = self.1;
        write!(f, "{pool} {id}")
    }
}

fn word_of(used: Use) -> &'static str
    ensures { result.now ≡ use_text used }
{
    match used {
        Use::Ok => "ok",
        Use::Errored => "errored",
        Use::Dropped => "dropped",
        Use::Streaming => "streaming",
    }
}

/// A step's line. It is empty for the acts that no line spells.
#[derive(Drop)]
pub struct LineText<'a>(pub Moment, pub &'a Act);

impl fmt::Display for LineText<'_> {
    ghost use Rattle.std.specs.Prelude.{Some};
    ghost use Rattle.mdb_lines.specs.Spelling.{act_text};

    ghost output = { λ x. Some (act_text x.0 x.1.now) };

    fn fmt<W: fmt::Write>(&self, f: &mut fmt::Formatter<W>) -> fmt::Result {
        let m = self.0;
        match self.1 {
            Act::Open(o) => {
                let open = OpenText(o.get());
                write!(f, "{open}")
            }
            Act::Request(r, address) => write!(f, "request {m} {r} {address}"),
            Act::Warm(r, address) => write!(f, "warm {m} {r} {address}"),
            Act::Collect(r) => write!(f, "collect {m} {r}"),
            Act::Claim => write!(f, "claim {m}"),
            Act::GiveUp(r) => write!(f, "giveup {m} {r}"),
            Act::Established(p, c, e) => {
                let made = Made(*c, e);
                write!(f, "established {m} {p} {made}")
            }
            Act::Failed(p, c, at, e) => {
                let lost = Lost(*c, *at, e.get());
                write!(f, "failed {m} {p} {lost}")
            }
            Act::Return(r, used) => {
                let used = word_of(*used);
                write!(f, "return {m} {r} {used}")
            }
            Act::Pin(r) => write!(f, "pin {m} {r}"),
            Act::Replicate(p, c) => write!(f, "replicate {m} {p} {c}"),
            Act::Take(r, p, c) => {
                let place = PoolAndConnection(*p, *c);
                write!(f, "take {m} {r} {place}")
            }
            Act::Unpin(p, c) => write!(f, "unpin {m} {p} {c}"),
            Act::Maintain(address) => write!(f, "maintain {m} {address}"),
            Act::Expire(address) => write!(f, "expire {m} {address}"),
            Act::Error(r, error) => {
                let error = error.get();
                write!(f, "error {m} {r} {error}")
            }
            act => {
                let line = TopologyText(m, act);
                write!(f, "{line}")
            }
        }
    }
}

/// The line of a step, without the newline.
pub fn write_line(alloc: Global, step: &Step) -> Result<String, OutOfMemory>
    requires { HasSpelling step.now }
    ensures { IfOk result (λ text. string_bytes text ≡ spelling step.now) }
{
    let line = LineText(step.moment, &step.act);
    Ok(line.to_string(alloc)?)
}
