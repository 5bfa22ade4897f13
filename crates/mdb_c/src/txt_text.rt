//! The options of TXT records, as a connection string has them.

use mdb_base::Text;
use mdb_srv::ResolvedConfig;
use std::fmt;

// An option behind `&`, if it is set.
#[derive(Drop)]
struct NameOption<'a>(&'static str, &'a Option<Text>);

impl fmt::Display for NameOption<'_> {
    ghost use Rattle.std.specs.Prelude.{Some};
    ghost use Rattle.mdb_c.specs.Txt.{option_text};

    ghost output = { λ x. Some (option_text x.0.now x.1.now) };

    fn fmt<W: fmt::Write>(&self, f: &mut fmt::Formatter<W>) -> fmt::Result {
        let name = self.0;
        match self.1 {
            Some(value) => write!(f, "{name}{value}"),
            None => Ok(()),
        }
    }
}

// A flag behind `&`, if it is set.
#[derive(Drop)]
struct FlagOption(&'static str, Option<bool>);

impl fmt::Display for FlagOption {
    ghost use Rattle.std.specs.Prelude.{Some, option_map};
    ghost use Rattle.mdb_c.specs.Txt.{flag_text, option_text};

    ghost output = { λ x. Some (option_text x.0.now (option_map flag_text x.1)) };

    fn fmt<W: fmt::Write>(&self, f: &mut fmt::Formatter<W>) -> fmt::Result {
        let name = self.0;
        match self.1 {
            Some(true) => write!(f, "{name}true"),
            Some(false) => write!(f, "{name}false"),
            None => Ok(()),
        }
    }
}

/// The options that are set, each behind `&`.
#[derive(Drop)]
pub struct SetOptions<'a>(pub &'a ResolvedConfig);

impl fmt::Display for SetOptions<'_> {
    ghost use Rattle.std.specs.Prelude.{Some};
    ghost use Rattle.mdb_c.specs.Txt.{options_text};

    ghost output = { λ x. Some (options_text x.0.now) };

    fn fmt<W: fmt::Write>(&self, f: &mut fmt::Formatter<W>) -> fmt::Result {
        let source = NameOption("&authSource=", &self.0.auth_source);
        let set = NameOption("&replicaSet=", &self.0.replica_set);
        let balanced = FlagOption("&loadBalanced=", self.0.load_balanced);
        write!(f, "{source}{set}{balanced}")
    }
}
