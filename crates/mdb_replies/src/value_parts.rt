//! Optional parts whose values stand in replies alone. A value that cannot be read is left out, and then the line is not
//! the spelling of what was read.

ghost use Rattle.std.specs.Prelude.{◌≡◌, ◌∷◌, ℕ, ℤ, List, Option, IfSome, option_map, option_copied, Bool, true, FitsSigned};
ghost use Rattle.std.specs.Int.{w32};
ghost use Rattle.std.specs.Fmt.{signed_decimal};
ghost use Rattle.mdb_base.specs.Tags.{Tag};
ghost use Rattle.mdb_parts.specs.Parts.{Part, parts_text, texts, may_follow};
ghost use Rattle.mdb_parts.specs.Reading.{Gives};
ghost use Rattle.mdb_parts.specs.WordRule.{keeps};
ghost use Rattle.mdb_replies.specs.Values.{bool_word, tags_text, are_tags, are_hosts};

use crate::tags::tags_word;
use mdb_base::{Items, TagSet, Text};
use mdb_parts::LineError;
use mdb_parts::parts::part;
use mdb_parts::texts::{text, texts_word};
use mdb_parts::words::signed32;
use std::alloc::Global;

fn optional_bool(word: Option<&str>) -> Option<bool>
    ensures { (o : Option Bool) → option_copied word.entry ≡ option_map bool_word o → result ≡ o }
{
    match word {
        None => None,
        Some(word) => Some(word == "true"),
    }
}

/// True or false.
#[tactic(auto, using(crate::proofs::ValueLemmas::words_lack_bool))]
pub fn bool_part<'a>(text: &'a str, name: &str) -> (Option<bool>, &'a str)
    ensures { (o : Option Bool) (ps : List Part) → may_follow name.now ps ≡ true → text.now ≡ parts_text ((name.now, option_map bool_word o) ∷ ps)
        → (result.0 ≡ o) × (result.1.now ≡ parts_text ps) }
{
    let (word, left) = part(text, name);
    (optional_bool(word), left)
}

fn optional_signed32(word: Option<&str>) -> Option<i32>
    ensures { (o : Option ℤ) → IfSome o (FitsSigned w32) → option_copied word.entry ≡ option_map signed_decimal o → result ≡ o }
{
    match word {
        None => None,
        Some(word) => signed32(word),
    }
}

/// A number of 32 bits, one bit of which is for its sign.
#[tactic(auto, using(crate::proofs::ValueLemmas::words_lack_signed32))]
pub fn i32_part<'a>(text: &'a str, name: &str) -> (Option<i32>, &'a str)
    ensures { (o : Option ℤ) (ps : List Part) → IfSome o (FitsSigned w32) → may_follow name.now ps ≡ true → text.now ≡ parts_text ((name.now, option_map signed_decimal o) ∷ ps)
        → (result.0 ≡ o) × (result.1.now ≡ parts_text ps) }
{
    let (word, left) = part(text, name);
    (optional_signed32(word), left)
}

/// A text, where its word is there.
pub fn optional_text(alloc: Global, word: Option<&str>) -> Result<Option<Text>, LineError>
    ensures { Gives (option_copied word.entry) result }
{
    match word {
        None => Ok(None),
        Some(word) => Ok(Some(text(alloc, word)?)),
    }
}

fn hosts_word(alloc: Global, word: &str) -> Result<Items<Text>, LineError>
    ensures { (hosts : List (List ℕ)) → are_hosts hosts ≡ true → word.now ≡ texts hosts → Gives hosts result }
{
    texts_word(alloc, word)
}

/// Addresses, kept as texts, where their word is there.
pub fn optional_hosts(alloc: Global, word: Option<&str>) -> Result<Option<Items<Text>>, LineError>
    ensures { (o : Option (List (List ℕ))) → keeps are_hosts o ≡ true → option_copied word.entry ≡ option_map texts o → Gives o result }
{
    match word {
        None => Ok(None),
        Some(word) => Ok(Some(hosts_word(alloc, word)?)),
    }
}

/// Tags, where their word is there.
pub fn optional_tags(alloc: Global, word: Option<&str>) -> Result<Option<TagSet>, LineError>
    ensures { (o : Option (List Tag)) → keeps are_tags o ≡ true → option_copied word.entry ≡ option_map tags_text o → Gives o result }
{
    match word {
        None => Ok(None),
        Some(word) => Ok(Some(tags_word(alloc, word)?)),
    }
}
