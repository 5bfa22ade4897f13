//! The text of the first line.

use mdb_base::{Options, Text};
use mdb_parts::part_text::{Addresses, FlagPart, NumberPart, narrow};
use std::fmt;

// The name of a set, if there is one.
#[derive(Drop)]
struct SetPart<'a>(&'a Option<Text>);

impl fmt::Display for SetPart<'_> {
    ghost use Rattle.std.specs.Prelude.{Some, codes};
    ghost use Rattle.mdb_parts.specs.Parts.{part_text};

    ghost output = { λ x. Some (part_text (codes " set=") x.0.now) };

    fn fmt<W: fmt::Write>(&self, f: &mut fmt::Formatter<W>) -> fmt::Result {
        match self.0 {
            Some(name) => {
                let name = name.as_str();
                write!(f, " set={name}")
            }
            None => Ok(()),
        }
    }
}

// How checks are made, if it is said.
#[derive(Drop)]
struct ModePart(Option<bool>);

impl fmt::Display for ModePart {
    ghost use Rattle.std.specs.Prelude.{Some, codes, option_map};
    ghost use Rattle.mdb_parts.specs.Parts.{part_text};
    ghost use Rattle.mdb_lines.specs.OpenLine.{mode_text};

    ghost output = { λ x. Some (part_text (codes " mode=") (option_map mode_text x.0)) };

    fn fmt<W: fmt::Write>(&self, f: &mut fmt::Formatter<W>) -> fmt::Result {
        match self.0 {
            Some(true) => write!(f, " mode=stream"),
            Some(false) => write!(f, " mode=poll"),
            None => Ok(()),
        }
    }
}

// The first three optional parts: the set and the two words.
#[derive(Drop)]
struct Kind<'a>(&'a Options);

impl fmt::Display for Kind<'_> {
    ghost use Rattle.std.specs.Prelude.{Some, take};
    ghost use Rattle.mdb_parts.specs.Parts.{parts_text};
    ghost use Rattle.mdb_lines.specs.OpenLine.{open_parts};

    ghost output = { λ x. Some (parts_text (take 3 (open_parts x.0.now))) };

    #[tactic(auto, unfolding(mdb_parts::specs::Parts::parts_text))]
    fn fmt<W: fmt::Write>(&self, f: &mut fmt::Formatter<W>) -> fmt::Result {
        let set = SetPart(&self.0.set_name);
        let direct = FlagPart(" direct", self.0.direct);
        let load_balanced = FlagPart(" lb", self.0.load_balanced);
        write!(f, "{set}{direct}{load_balanced}")
    }
}

// The next five: the sizes of a pool, its idle time and its wait limit.
#[derive(Drop)]
struct Sizes<'a>(&'a Options);

impl fmt::Display for Sizes<'_> {
    ghost use Rattle.std.specs.Prelude.{Some, take, drop};
    ghost use Rattle.mdb_parts.specs.Parts.{parts_text};
    ghost use Rattle.mdb_lines.specs.OpenLine.{open_parts};

    ghost output = { λ x. Some (parts_text (take 5 (drop 3 (open_parts x.0.now)))) };

    #[tactic(auto, unfolding(mdb_parts::specs::Parts::parts_text))]
    fn fmt<W: fmt::Write>(&self, f: &mut fmt::Formatter<W>) -> fmt::Result {
        let max = narrow(" max=", self.0.max_pool_size);
        let min = narrow(" min=", self.0.min_pool_size);
        let connecting = narrow(" connecting=", self.0.max_connecting);
        let idle = NumberPart(" idle=", self.0.max_idle_time);
        let wait = NumberPart(" wait=", self.0.max_wait);
        write!(f, "{max}{min}{connecting}{idle}{wait}")
    }
}

// The next three, which are about monitoring.
#[derive(Drop)]
struct Checks<'a>(&'a Options);

impl fmt::Display for Checks<'_> {
    ghost use Rattle.std.specs.Prelude.{Some, take, drop};
    ghost use Rattle.mdb_parts.specs.Parts.{parts_text};
    ghost use Rattle.mdb_lines.specs.OpenLine.{open_parts};

    ghost output = { λ x. Some (parts_text (take 3 (drop 8 (open_parts x.0.now)))) };

    #[tactic(auto, unfolding(mdb_parts::specs::Parts::parts_text))]
    fn fmt<W: fmt::Write>(&self, f: &mut fmt::Formatter<W>) -> fmt::Result {
        let heartbeat = NumberPart(" heartbeat=", self.0.heartbeat);
        let connect = NumberPart(" connect=", self.0.connect);
        let mode = ModePart(self.0.streaming);
        write!(f, "{heartbeat}{connect}{mode}")
    }
}

// The last four: the limits.
#[derive(Drop)]
struct Limits<'a>(&'a Options);

impl fmt::Display for Limits<'_> {
    ghost use Rattle.std.specs.Prelude.{Some, drop};
    ghost use Rattle.mdb_parts.specs.Parts.{parts_text};
    ghost use Rattle.mdb_lines.specs.OpenLine.{open_parts};

    ghost output = { λ x. Some (parts_text (drop 11 (open_parts x.0.now))) };

    #[tactic(auto, unfolding(mdb_parts::specs::Parts::parts_text))]
    fn fmt<W: fmt::Write>(&self, f: &mut fmt::Formatter<W>) -> fmt::Result {
        let limit_id = narrow(" limit_id=", self.0.limit_id);
        let limit_generation = NumberPart(" limit_generation=", self.0.limit_generation);
        let limit_pool = narrow(" limit_pool=", self.0.limit_pool);
        let limit_monitor = narrow(" limit_monitor=", self.0.limit_monitor);
        write!(f, "{limit_id}{limit_generation}{limit_pool}{limit_monitor}")
    }
}

/// The first line of a script.
#[derive(Drop)]
pub struct OpenText<'a>(pub &'a Options);

impl fmt::Display for OpenText<'_> {
    ghost use Rattle.std.specs.Prelude.{Some};
    ghost use Rattle.mdb_lines.specs.OpenLine.{open_text};

    ghost output = { λ x. Some (open_text x.0.now) };

    #[tactic(auto, unfolding(mdb_parts::specs::Parts::parts_text))]
    fn fmt<W: fmt::Write>(&self, f: &mut fmt::Formatter<W>) -> fmt::Result {
        let seeds = Addresses(self.0.seeds.as_slice());
        let kind = Kind(self.0);
        let sizes = Sizes(self.0);
        let checks = Checks(self.0);
        let limits = Limits(self.0);
        write!(f, "open seeds={seeds}{kind}{sizes}{checks}{limits}")
    }
}
