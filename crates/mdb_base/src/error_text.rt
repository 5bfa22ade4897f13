//! The text of an error: its kind, its labels, its topology version and its message.

use crate::error::{Error, ErrorKind};
use crate::text::Text;
use crate::topology_version::TopologyVersion;
use std::fmt;

impl fmt::Display for TopologyVersion {
    ghost use Rattle.std.specs.Prelude.{Some};
    ghost use Rattle.mdb_base.specs.ErrorText.{version_text};

    ghost output = { λ v. Some (version_text v) };

    fn fmt<W: fmt::Write>(&self, f: &mut fmt::Formatter<W>) -> fmt::Result {
        let id = self.process_id;
        let counter = self.counter;
        write!(f, "{id}.{counter}")
    }
}

impl fmt::Display for ErrorKind {
    ghost use Rattle.std.specs.Prelude.{Some};
    ghost use Rattle.mdb_base.specs.ErrorText.{kind_text};

    ghost output = { λ k. Some (kind_text k) };

    fn fmt<W: fmt::Write>(&self, f: &mut fmt::Formatter<W>) -> fmt::Result {
        match self {
            ErrorKind::Network => write!(f, "network"),
            ErrorKind::NetworkTimeout => write!(f, "timeout"),
            ErrorKind::Auth => write!(f, "auth"),
            ErrorKind::IncompatibleServer => write!(f, "incompatible"),
            ErrorKind::Command(code) => write!(f, "command.{code}"),
            ErrorKind::Other => write!(f, "other"),
        }
    }
}

impl fmt::Display for Text {
    ghost use Rattle.std.specs.Prelude.{Some};

    ghost output = { λ t. Some t };

    fn fmt<W: fmt::Write>(&self, f: &mut fmt::Formatter<W>) -> fmt::Result {
        let text = self.as_str();
        write!(f, "{text}")
    }
}

// Labels with commas between, after the word that names them; nothing where there is none.
#[derive(Drop)]
struct Labels<'a>(&'a [Text]);

impl fmt::Display for Labels<'_> {
    ghost use Rattle.std.specs.Prelude.{Some};
    ghost use Rattle.mdb_base.specs.ErrorText.{labels_text};

    ghost output = { λ l. Some (labels_text l.0.now) };

    fn fmt<W: fmt::Write>(&self, f: &mut fmt::Formatter<W>) -> fmt::Result {
        match self.0 {
            [] => Ok(()),
            [first, more @ ..] => {
                write!(f, " labels={first}")?;
                for label in more {
                    write!(f, ",{label}")?;
                }
                Ok(())
            }
        }
    }
}

// A version after the word that names it; nothing where there is none.
#[derive(Drop)]
struct Version(Option<TopologyVersion>);

impl fmt::Display for Version {
    ghost use Rattle.std.specs.Prelude.{Some};
    ghost use Rattle.mdb_base.specs.ErrorText.{version_part};

    ghost output = { λ v. Some (version_part v.0) };

    fn fmt<W: fmt::Write>(&self, f: &mut fmt::Formatter<W>) -> fmt::Result {
        match self.0 {
            Some(version) => write!(f, " tv={version}"),
            None => Ok(()),
        }
    }
}

impl fmt::Display for Error {
    ghost use Rattle.std.specs.Prelude.{Some};
    ghost use Rattle.mdb_base.specs.ErrorText.{error_text};

    ghost output = { λ e. Some (error_text e) };

    fn fmt<W: fmt::Write>(&self, f: &mut fmt::Formatter<W>) -> fmt::Result {
        let kind = self.kind;
        let labels = Labels(self.labels.as_slice());
        let version = Version(self.topology_version);
        let message = self.message.as_str();
        write!(f, "{kind}{labels}{version} msg={message}")
    }
}
