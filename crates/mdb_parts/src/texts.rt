//! Texts of a line, alone and with commas between them.

ghost use Rattle.std.specs.Prelude.{◌≡◌, ◌<◌, ℕ, List, length, true};
ghost use Rattle.std.specs.List.{list_all};
ghost use Rattle.mdb_parts.specs.Parts.{texts};
ghost use Rattle.mdb_parts.specs.Reading.{lacks, Gives};

use crate::line_error::LineError;
use mdb_base::{Items, Text};
use std::alloc::Global;

/// A word, kept.
pub fn text(alloc: Global, word: &str) -> Result<Text, LineError>
    ensures { Gives word.now result }
{
    Ok(Text::new(String::from_str(alloc, word)?))
}

/// Texts with commas between them.
pub fn texts_word(alloc: Global, word: &str) -> Result<Items<Text>, LineError>
    ensures { (all : List (List ℕ)) → 0 < length all → list_all (lacks 44) all ≡ true → word.now ≡ texts all → Gives all result }
{
    let mut found = Vec::new(alloc);
    let mut rest = word;
    while let Some((first, more)) = rest.split_once(',') {
        let text = text(alloc, first)?;
        found.push(text)?;
        rest = more;
    }
    let text = text(alloc, rest)?;
    found.push(text)?;
    Ok(Items::new(found))
}
