//! The text of hosts with commas between them.

use mdb_base::ServerAddress;
use std::fmt;

/// Hosts with commas between them.
#[derive(Drop)]
pub struct Hosts<'a>(pub &'a [ServerAddress]);

impl fmt::Display for Hosts<'_> {
    ghost use Rattle.std.specs.Prelude.{Some};
    ghost use Rattle.mdb_c.specs.Hosts.{hosts_text};

    ghost output = { λ x. Some (hosts_text x.0.now) };

    fn fmt<W: fmt::Write>(&self, f: &mut fmt::Formatter<W>) -> fmt::Result {
        match self.0 {
            [] => Ok(()),
            [first, more @ ..] => {
                write!(f, "{first}")?;
                for host in more {
                    write!(f, ",{host}")?;
                }
                Ok(())
            }
        }
    }
}
