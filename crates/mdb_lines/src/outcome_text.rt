//! The text of what hellos and checks came to.

use mdb_base::Nanos;
use mdb_log::{BeatenResult, HelloResult};
use mdb_replies::ReplyText;
use std::fmt;

// What a hello came to.
#[derive(Drop)]
struct HelloText<'a>(&'a HelloResult);

impl fmt::Display for HelloText<'_> {
    ghost use Rattle.std.specs.Prelude.{Some};
    ghost use Rattle.mdb_lines.specs.Spelling.{hello_text};

    ghost output = { λ x. Some (hello_text x.0.now) };

    fn fmt<W: fmt::Write>(&self, f: &mut fmt::Formatter<W>) -> fmt::Result {
        match self.0 {
            HelloResult::Ok(rtt, reply) => {
                let fields = ReplyText(reply.get(), false);
                write!(f, " ok rtt={rtt}{fields}")
            }
            HelloResult::Err(error) => {
                let error = error.get();
                write!(f, " err {error}")
            }
        }
    }
}

/// A pool, and what its hello came to.
#[derive(Drop)]
pub struct PoolAndHello<'a>(pub u32, pub &'a HelloResult);

impl fmt::Display for PoolAndHello<'_> {
    ghost use Rattle.std.specs.Prelude.{Some, decimal, ◌++◌};
    ghost use Rattle.mdb_lines.specs.Spelling.{hello_text};

    ghost output = { λ x. Some (decimal x.0 ++ hello_text x.1.now) };

    fn fmt<W: fmt::Write>(&self, f: &mut fmt::Formatter<W>) -> fmt::Result {
        let pool = self.0;
        let came = HelloText(self.1);
        write!(f, "{pool}{came}")
    }
}

// What a check came to.
#[derive(Drop)]
struct BeatenText<'a>(&'a BeatenResult);

impl fmt::Display for BeatenText<'_> {
    ghost use Rattle.std.specs.Prelude.{Some};
    ghost use Rattle.mdb_lines.specs.Spelling.{beaten_text};

    ghost output = { λ x. Some (beaten_text x.0.now) };

    fn fmt<W: fmt::Write>(&self, f: &mut fmt::Formatter<W>) -> fmt::Result {
        match self.0 {
            BeatenResult::Ok(reply, more) => {
                let fields = ReplyText(reply.get(), *more);
                write!(f, " ok{fields}")
            }
            BeatenResult::Err(error) => {
                let error = error.get();
                write!(f, " err {error}")
            }
            BeatenResult::Cancelled(error) => {
                let error = error.get();
                write!(f, " cancelled {error}")
            }
        }
    }
}

/// A pool, how long its check took, and what it came to.
#[derive(Drop)]
pub struct Checked<'a>(pub u32, pub Nanos, pub &'a BeatenResult);

impl fmt::Display for Checked<'_> {
    ghost use Rattle.std.specs.Prelude.{Some, decimal, codes, ◌++◌};
    ghost use Rattle.mdb_lines.specs.Spelling.{beaten_text};

    ghost output = { λ x. Some (decimal x.0 ++ (codes " " ++ (decimal x.1 ++ beaten_text x.2.now))) };

    fn fmt<W: fmt::Write>(&self, f: &mut fmt::Formatter<W>) -> fmt::Result {
        let pool = self.0;
        let time = self.1;
        let came = BeatenText(self.2);
        write!(f, "{pool} {time}{came}")
    }
}
