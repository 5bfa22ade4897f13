//! The text of optional parts, and of addresses with commas between them.

ghost use Rattle.std.specs.Prelude.{◌≡◌, decimal, option_map};
ghost use Rattle.mdb_parts.specs.Parts.{part_text};

use mdb_base::ServerAddress;
use std::fmt;

/// A part ` name=number` that is there or not.
#[derive(Drop)]
pub struct NumberPart(pub &'static str, pub Option<u64>);

impl fmt::Display for NumberPart {
    ghost use Rattle.std.specs.Prelude.{Some, decimal, option_map};
    ghost use Rattle.mdb_parts.specs.Parts.{part_text};

    ghost output = { λ x. Some (part_text x.0.now (option_map decimal x.1)) };

    fn fmt<W: fmt::Write>(&self, f: &mut fmt::Formatter<W>) -> fmt::Result {
        let name = self.0;
        match self.1 {
            Some(number) => write!(f, "{name}{number}"),
            None => Ok(()),
        }
    }
}

/// The part of a number of 32 bits.
pub fn narrow(name: &'static str, number: Option<u32>) -> NumberPart
    ensures { part_text result.0.now (option_map decimal result.1) ≡ part_text name.now (option_map decimal number) }
{
    match number {
        Some(number) => NumberPart(name, Some(u64::from(number))),
        None => NumberPart(name, None),
    }
}

/// A word, behind its space, that is there or not.
#[derive(Drop)]
pub struct FlagPart(pub &'static str, pub bool);

impl fmt::Display for FlagPart {
    ghost use Rattle.std.specs.Prelude.{Some};
    ghost use Rattle.mdb_parts.specs.Parts.{part_text, flag};

    ghost output = { λ x. Some (part_text x.0.now (flag x.1)) };

    fn fmt<W: fmt::Write>(&self, f: &mut fmt::Formatter<W>) -> fmt::Result {
        let word = self.0;
        if self.1 { write!(f, "{word}") } else { Ok(()) }
    }
}

/// Addresses with commas between them.
#[derive(Drop)]
pub struct Addresses<'a>(pub &'a [ServerAddress]);

impl fmt::Display for Addresses<'_> {
    ghost use Rattle.std.specs.Prelude.{Some};
    ghost use Rattle.mdb_parts.specs.Parts.{addresses};

    ghost output = { λ x. Some (addresses x.0.now) };

    fn fmt<W: fmt::Write>(&self, f: &mut fmt::Formatter<W>) -> fmt::Result {
        match self.0 {
            [] => Ok(()),
            [first, more @ ..] => {
                write!(f, "{first}")?;
                for address in more {
                    write!(f, ",{address}")?;
                }
                Ok(())
            }
        }
    }
}
